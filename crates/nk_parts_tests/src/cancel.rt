// The first failure of a channel, of all the statuses that come.

use crate::rows::none_wrong;
use nk_base::Status;
use nk_cancel::First;

/// A status that comes, whether it is kept, and what is kept then.
#[derive(Clone, Copy, Drop)]
struct Row(Status, bool, Option<Status>);

/// Whether what is kept is this failure, and 0 is given where there is none.
fn has(first: &First, kept: Option<Status>) -> bool {
    first.kept() == kept && first.get() == kept.unwrap_or(Status::OK)
}

/// The number of the first row that is not as it says.
fn first_wrong(rows: &[Row]) -> Option<usize> {
    let mut first = First::new();
    if !has(&first, None) {
        return Some(0);
    }
    for (i, row) in rows.iter().enumerate() {
        if first.merge(row.0) != row.1 || !has(&first, row.2) {
            return Some(i);
        }
    }
    None
}

#[test]
fn the_first_of_two_failures_is_kept(rt: HostRuntime) {
    const RESET: Option<Status> = Some(Status::NET_RESET);
    let rows = &[
        Row(Status::OK, false, None),
        Row(Status::NET_RESET, true, RESET),
        Row(Status::BINDING_ABORTED, false, RESET),
        Row(Status::NET_RESET, false, RESET),
        Row(Status::OK, false, RESET),
    ];
    none_wrong(&rt, first_wrong(rows));
}

#[test]
fn a_failure_has_the_top_bit_set(rt: HostRuntime) {
    const LEAST: Status = Status(0x8000_0000);
    const MOST: Status = Status(0xffff_ffff);
    let rows = &[
        Row(Status(1), false, None),
        Row(Status(0x7fff_ffff), false, None),
        Row(LEAST, true, Some(LEAST)),
        Row(MOST, false, Some(LEAST)),
    ];
    none_wrong(&rt, first_wrong(rows));
    none_wrong(&rt, first_wrong(&[Row(MOST, true, Some(MOST))]));
}

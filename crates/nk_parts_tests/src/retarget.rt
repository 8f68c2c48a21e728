// The data target of a channel: the worker that its data is moved to, and the refusals in their order.

use crate::rows::none_wrong;
use nk_base::{RetargetError, Status, Target};
use nk_retarget::{ChannelView, Delivery};

/// How a channel stands, the worker that is asked for, the answer, and where data is delivered then.
#[derive(Clone, Copy, Drop)]
struct Row(ChannelView, u8, Result<(), RetargetError>, Target);

const ABORTED: Status = Status::BINDING_ABORTED;

/// A channel that data may be moved of.
const GOOD: ChannelView = ChannelView {
    opened: true,
    stopped: false,
    status: Status::OK,
};

/// One that is not opened, has stopped and has failed.
const BAD: ChannelView = ChannelView {
    opened: false,
    stopped: true,
    status: ABORTED,
};

/// The answer; none where there is no such worker.
fn asked(
    delivery: &mut Delivery,
    view: ChannelView,
    worker: u8,
) -> Option<Result<(), RetargetError>> {
    if worker < 1 || worker > 16 {
        return None;
    }
    Some(delivery.retarget(view, worker))
}

/// The number of the first row that is not as it says.
fn first_wrong(retargetable: bool, rows: &[Row]) -> Option<usize> {
    let mut delivery = Delivery::new(retargetable);
    if delivery.target() != Target::Main {
        return Some(0);
    }
    for (i, row) in rows.iter().enumerate() {
        if asked(&mut delivery, row.0, row.1) != Some(row.2) || delivery.target() != row.3 {
            return Some(i);
        }
    }
    None
}

#[test]
fn a_retarget_names_why_it_is_refused(rt: HostRuntime) {
    const UNOPENED: ChannelView = ChannelView {
        opened: false,
        ..GOOD
    };
    const STOPPED: ChannelView = ChannelView {
        stopped: true,
        ..GOOD
    };
    const FAILED: ChannelView = ChannelView {
        status: ABORTED,
        ..GOOD
    };
    const ONE: Target = Target::Worker(1);
    const ALREADY: Result<(), RetargetError> = Err(RetargetError::AlreadyRetargeted(1));
    let rows = &[
        Row(UNOPENED, 1, Err(RetargetError::NotOpened), Target::Main),
        Row(STOPPED, 1, Err(RetargetError::Stopped), Target::Main),
        Row(FAILED, 1, Err(RetargetError::Failed(ABORTED)), Target::Main),
        Row(GOOD, 1, Ok(()), ONE),
        Row(GOOD, 1, ALREADY, ONE),
        Row(GOOD, 16, ALREADY, ONE),
        Row(UNOPENED, 2, Err(RetargetError::NotOpened), ONE),
        Row(STOPPED, 2, Err(RetargetError::Stopped), ONE),
        Row(FAILED, 2, Err(RetargetError::Failed(ABORTED)), ONE),
    ];
    none_wrong(&rt, first_wrong(true, rows));
    let fixed = &[Row(GOOD, 1, Err(RetargetError::NotRetargetable), Target::Main)];
    none_wrong(&rt, first_wrong(false, fixed));
}

#[test]
fn of_several_refusals_the_first_is_named(rt: HostRuntime) {
    const FAILED: Result<(), RetargetError> = Err(RetargetError::Failed(ABORTED));
    let rows = &[
        Row(BAD, 3, Err(RetargetError::NotOpened), Target::Main),
        Row(
            ChannelView {
                opened: true,
                ..BAD
            },
            3,
            Err(RetargetError::Stopped),
            Target::Main,
        ),
        Row(
            ChannelView {
                status: BAD.status,
                ..GOOD
            },
            3,
            FAILED,
            Target::Main,
        ),
        Row(GOOD, 3, Err(RetargetError::NotRetargetable), Target::Main),
    ];
    none_wrong(&rt, first_wrong(false, rows));
}

#[test]
fn a_status_that_is_no_failure_refuses_nothing(rt: HostRuntime) {
    const ODD: ChannelView = ChannelView {
        status: Status(0x7fff_ffff),
        ..GOOD
    };
    let last = &[Row(ODD, 16, Ok(()), Target::Worker(16))];
    none_wrong(&rt, first_wrong(true, last));
}

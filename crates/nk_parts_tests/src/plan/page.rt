// What the listener does and what the page calls, and the window: where a plan is refused for them.

use super::{EMPTY, FAILS, Met, OK, Parts, REDIRECTS, RESET, RESUME, meets, plan_of};
use crate::rows::none_wrong;
use nk_base::Status;
use nk_plan::{Act, Control, Finish, ListenerKind, PlanError, Reaction, Verdict};
use std::alloc::Global;

/// A body of so many pieces of this size, the sizes of a pipe for it and its readers, and whether such a listener is good.
#[derive(Clone, Copy, Drop)]
struct PipeRow(usize, usize, u32, u32, u8, bool);

/// Whether a plan is refused with this cause, or not refused where it is good.
fn is_so(alloc: Global, parts: Parts, is_good: bool, cause: PlanError) -> bool {
    let wanted = if is_good { None } else { Some(cause) };
    meets(alloc, parts, wanted)
}

/// Whether a plan is refused for its listener exactly where this row says so.
fn is_pipe_so(alloc: Global, row: &PipeRow) -> bool {
    let hops = [Met::Response(row.0, row.1, Finish::Good, 0, true)];
    let mut parts = plan_of(&hops);
    parts.listener = ListenerKind::Pipe {
        segment: row.2,
        limit: row.3,
        readers: row.4,
    };
    is_so(alloc, parts, row.5, PlanError::BadListener)
}

/// The number of the first row that is not so.
fn first_wrong_pipe(alloc: Global, rows: &[PipeRow]) -> Option<usize> {
    for (i, row) in rows.iter().enumerate() {
        if !is_pipe_so(alloc, row) {
            return Some(i);
        }
    }
    None
}

#[test]
fn a_pipe_is_refused_by_its_sizes_and_by_what_is_read(rt: HostRuntime) {
    let rows = &[
        PipeRow(31, 131_072, 4, 1, 1, false),
        PipeRow(1, 9, 4, 1, 1, true),
        PipeRow(1, 9, 3, 1, 1, false),
        PipeRow(1, 9, 65_536, 1024, 8, true),
        PipeRow(1, 9, 65_537, 1024, 8, false),
        PipeRow(1, 9, 4, 0, 1, false),
        PipeRow(1, 9, 4, 1025, 1, false),
        PipeRow(1, 9, 4, 1, 0, false),
        PipeRow(1, 9, 4, 1, 9, false),
        PipeRow(40, 100_000, 4, 1, 1, true),
        PipeRow(7, 122_449, 6, 1, 7, false),
        PipeRow(512, 131_072, 65_536, 1, 2, true),
        PipeRow(512, 131_072, 65_536, 1, 3, false),
    ];
    none_wrong(&rt, first_wrong_pipe(rt.alloc(), rows));
}

/// What the listener does or the page calls, or a window, and whether it may stand in a plan.
#[derive(Clone, Copy, Drop)]
enum PageRow {
    Reacts(Reaction, bool),
    Calls(u32, Act, bool),
    Window(u32, bool),
}

/// Whether a plan is refused exactly where its row says so.
fn is_page_so(alloc: Global, row: PageRow) -> bool {
    let mut parts = plan_of(&[FAILS]);
    match row {
        PageRow::Reacts(reaction, is_good) => {
            let all = [Reaction::StartSuspend, reaction];
            parts.reactions = &all;
            is_so(alloc, parts, is_good, PlanError::BadReaction(1))
        }
        PageRow::Calls(after, act, is_good) => {
            let all = [RESUME, Control { after, act }];
            parts.controls = &all;
            is_so(alloc, parts, is_good, PlanError::BadControl(1))
        }
        PageRow::Window(window, is_good) => {
            parts.window = window;
            is_so(alloc, parts, is_good, PlanError::BadWindow)
        }
    }
}

/// The number of the first row that is not so.
fn first_wrong(alloc: Global, rows: &[PageRow]) -> Option<usize> {
    for (i, row) in rows.iter().enumerate() {
        if !is_page_so(alloc, *row) {
            return Some(i);
        }
    }
    None
}

#[test]
fn what_the_page_does_is_refused_where_it_is_out_of_range(rt: HostRuntime) {
    let rows = &[
        PageRow::Reacts(Reaction::StartRetarget(0), false),
        PageRow::Reacts(Reaction::StartRetarget(1), true),
        PageRow::Reacts(Reaction::StartRetarget(16), true),
        PageRow::Reacts(Reaction::StartRetarget(17), false),
        PageRow::Reacts(Reaction::StartCancel(RESET), true),
        PageRow::Reacts(Reaction::StartCancel(OK), false),
        PageRow::Reacts(Reaction::StartFail(RESET), true),
        PageRow::Reacts(Reaction::StartFail(Status(1)), false),
        PageRow::Reacts(
            Reaction::BytesFail {
                nth: 0,
                status: RESET,
            },
            false,
        ),
        PageRow::Reacts(
            Reaction::BytesFail {
                nth: 1,
                status: RESET,
            },
            true,
        ),
        PageRow::Reacts(Reaction::BytesFail { nth: 1, status: OK }, false),
        PageRow::Reacts(
            Reaction::BytesFail {
                nth: 65_536,
                status: RESET,
            },
            true,
        ),
        PageRow::Reacts(
            Reaction::BytesFail {
                nth: 65_537,
                status: RESET,
            },
            false,
        ),
        PageRow::Calls(100_000, Act::Suspend, true),
        PageRow::Calls(100_001, Act::Suspend, false),
        PageRow::Calls(0, Act::Cancel(RESET), true),
        PageRow::Calls(0, Act::Cancel(OK), false),
        PageRow::Calls(0, Act::Break(RESET), true),
        PageRow::Calls(0, Act::Break(OK), false),
        PageRow::Calls(0, Act::Retarget(0), false),
        PageRow::Calls(0, Act::Retarget(1), true),
        PageRow::Calls(0, Act::Retarget(16), true),
        PageRow::Calls(0, Act::Retarget(17), false),
        PageRow::Window(0, false),
        PageRow::Window(1, true),
        PageRow::Window(16_777_216, true),
        PageRow::Window(16_777_217, false),
    ];
    none_wrong(&rt, first_wrong(rt.alloc(), rows));
}

/// What the listener does, so many calls of the page, each after one callback more, or what the page calls in a plan
/// that is never opened.
#[derive(Clone, Copy, Drop)]
enum Listed {
    Reactions(&'static [Reaction]),
    Calls(u32),
    Closed(&'static [Control]),
}

/// Whether a plan with so many calls of its page is refused so.
fn calls_meet(alloc: Global, count: u32, cause: Option<PlanError>) -> bool {
    let mut all = Vec::new(alloc);
    for after in 0..count {
        let act = Act::Resume;
        if all.push(Control { after, act }).is_err() {
            return false;
        }
    }
    let mut parts = plan_of(&[FAILS]);
    parts.controls = all.as_slice();
    meets(alloc, parts, cause)
}

/// Whether a plan with this list is refused so.
fn list_meets(alloc: Global, list: Listed, cause: Option<PlanError>) -> bool {
    let mut parts = plan_of(&[FAILS]);
    match list {
        Listed::Reactions(reactions) => parts.reactions = reactions,
        Listed::Calls(count) => return calls_meet(alloc, count, cause),
        Listed::Closed(controls) => {
            parts.controls = controls;
            parts.closed = true;
        }
    }
    meets(alloc, parts, cause)
}

/// The number of the first list that is not refused as is said beside it.
fn first_wrong_list(alloc: Global, rows: &[(Listed, Option<PlanError>)]) -> Option<usize> {
    for (i, row) in rows.iter().enumerate() {
        if !list_meets(alloc, row.0, row.1) {
            return Some(i);
        }
    }
    None
}

const BAD_REACTION: &[Reaction] = &[Reaction::StartRetarget(17)];

const SUSPENDS: &[Reaction] = &[Reaction::StartSuspend; 64];

const ONE_SUSPEND_MORE: &[Reaction] = &[Reaction::StartSuspend; 65];

#[test]
fn the_page_and_its_listener_are_refused(rt: HostRuntime) {
    const FIRST: Option<PlanError> = Some(PlanError::BadControl(0));
    let rows = &[
        (
            Listed::Reactions(BAD_REACTION),
            Some(PlanError::BadReaction(0)),
        ),
        (Listed::Reactions(SUSPENDS), None),
        (
            Listed::Reactions(ONE_SUSPEND_MORE),
            Some(PlanError::BadReaction(64)),
        ),
        (Listed::Calls(64), None),
        (Listed::Calls(65), Some(PlanError::BadControl(64))),
        (Listed::Closed(&[RESUME]), FIRST),
        (Listed::Closed(&[]), None),
    ];
    none_wrong(&rt, first_wrong_list(rt.alloc(), rows));
}

const NO_PIPE: ListenerKind = ListenerKind::Pipe {
    segment: 0,
    limit: 0,
    readers: 0,
};

const NO_HOP: Met = Met::Redirect(200, Verdict::Allow);

const BAD: Met = Met::Response(65_537, 2000, Finish::Good, 65, true);

/// Hops with one fault more than the rows below have.
fn hops_of(row: usize) -> &'static [Met] {
    match row {
        0 => &[],
        1 => &[NO_HOP; 33],
        2 => &[BAD, NO_HOP],
        3 => &[NO_HOP, BAD, BAD],
        4 => &[REDIRECTS, BAD],
        5 => &[Met::Response(65_537, 2000, Finish::Good, 0, true)],
        6 => &[Met::Response(513, 131_072, Finish::Good, 0, true)],
        7 => &[EMPTY],
        _ => &[FAILS],
    }
}

/// Whether a plan in which this row's part, and all that is looked at behind it, is wrong is refused for that part.
fn is_first_named(alloc: Global, row: usize, cause: PlanError) -> bool {
    let mut parts = plan_of(hops_of(row));
    parts.listener = if row < 8 {
        NO_PIPE
    } else {
        ListenerKind::Plain
    };
    if row < 9 {
        parts.reactions = &[Reaction::StartRetarget(0)];
    }
    if row < 10 {
        parts.controls = &[RESUME, RESUME];
    }
    parts.window = 0;
    parts.closed = true;
    meets(alloc, parts, Some(cause))
}

/// The number of the first row whose part is not named.
fn first_unnamed(alloc: Global, causes: &[PlanError]) -> Option<usize> {
    for (row, cause) in causes.iter().enumerate() {
        if !is_first_named(alloc, row, *cause) {
            return Some(row);
        }
    }
    None
}

#[test]
fn of_several_refusals_of_a_plan_the_first_is_named(rt: HostRuntime) {
    let causes = &[
        PlanError::NoHop,
        PlanError::TooManyHops(33),
        PlanError::LastIsRedirect,
        PlanError::EarlyEnd(1),
        PlanError::BadHop(1),
        PlanError::TooManyPieces(65_537),
        PlanError::TooManyBytes(67_239_936),
        PlanError::BadListener,
        PlanError::BadReaction(0),
        PlanError::BadControl(0),
        PlanError::BadWindow,
    ];
    none_wrong(&rt, first_unnamed(rt.alloc(), causes));
}

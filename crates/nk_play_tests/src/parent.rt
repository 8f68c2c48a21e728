//! The credit of a window, a load that is cancelled before its start, and messages that are not expected in the phase in
//! which they come.

use crate::scripts::{compare, script};
use nk_base::{BackMsg, MainMsg, Memory, OutList, Status, UpMsg};
use nk_parent::Parent;
use nk_plan::{ChannelPlan, ParentStep};
use nk_trace::Printer;
use std::alloc::Global;
use std::test::Fail;

/// A step, the lines of what it sends, the credit that it leaves, and messages that are not expected there.
type Row = (ParentStep, &'static [u8], i64, &'static [UpMsg]);

/// Prints the lines of what was sent.
fn print(
    printer: &mut Printer,
    main: &OutList<MainMsg>,
    back: &OutList<BackMsg>,
) -> Result<(), Memory> {
    if let Some(message) = main.first() {
        printer.main_message(message)?;
        printer.line_feed()?;
    }
    if let Some(message) = back.first() {
        printer.back_message(message)?;
        printer.line_feed()?;
    }
    Ok(())
}

/// Fetches, and answers the lines of what is sent.
fn fetch(alloc: Global, parent: &mut Parent) -> Result<Vec<u8>, Memory> {
    let mut main = OutList::new(alloc);
    let mut back = OutList::new(alloc);
    let mut printer = Printer::new(alloc);
    parent.fetch(&mut main, &mut back)?;
    print(&mut printer, &main, &back)?;
    Ok(printer.into_bytes())
}

/// Takes a step, and answers the lines of what it sends.
fn sent(alloc: Global, parent: &mut Parent, step: ParentStep) -> Result<Vec<u8>, Memory> {
    match step {
        ParentStep::Fetch => fetch(alloc, parent),
        ParentStep::Up(message) => {
            parent.up(message)?;
            Ok(Vec::new(alloc))
        }
    }
}

/// Takes these messages again and again, and among them verdicts on hops that there are not.
fn takes(parent: &mut Parent, strays: &[UpMsg]) -> Result<(), Memory> {
    for hop in 2..8 {
        for &status in &[Status::OK, Status::NET_RESET] {
            parent.up(UpMsg::Verify { hop, status })?;
        }
        for &message in strays {
            parent.up(message)?;
        }
    }
    Ok(())
}

/// Takes the step of this row, and what is not expected behind it.
fn plays(
    alloc: Global,
    parent: &mut Parent,
    &(step, lines, credit, strays): &Row,
) -> Result<(), Fail> {
    compare(sent(alloc, parent, step)?, lines)?;
    if parent.credit() != credit {
        Err("another credit")?
    }
    let status = parent.status();
    takes(parent, strays)?;
    if parent.status() != status {
        Err("another status")?
    }
    Ok(())
}

/// Takes the steps of these rows.
fn plays_all(alloc: Global, parent: &mut Parent, rows: &[Row]) -> Result<(), Fail> {
    for row in rows {
        plays(alloc, parent, row)?;
    }
    Ok(())
}

/// The same with the parent of a plan. What is dropped of it at the end is its journal.
fn sends_by(alloc: Global, plan: &ChannelPlan, rows: &[Row]) -> Result<(), Fail> {
    let mut parent = Parent::new(alloc, plan)?;
    let answer = plays_all(alloc, &mut parent, rows);
    drop(parent.into_journal());
    answer
}

/// The same with the parent of the channel of this script.
fn sends(alloc: Global, text: &[u8], rows: &[Row]) -> Result<(), Fail> {
    let script = script(alloc, text)?;
    sends_by(alloc, script.plans.get(0), rows)
}

const FETCH: ParentStep = ParentStep::Fetch;

const OPEN: ParentStep = ParentStep::Up(UpMsg::Open);

const VERIFIED: ParentStep = ParentStep::Up(UpMsg::Verify {
    hop: 0,
    status: Status::OK,
});

#[test]
fn a_piece_goes_where_there_is_credit(rt: HostRuntime) -> Result<(), Fail> {
    const ROWS: &[Row] = &[
        (OPEN, b"", 1, &[]),
        (FETCH, b"start 0 00000000 200 0\nsent 0\n", 1, &[]),
        (FETCH, b"bytes 0 00000000 0 5\n", -4, &[]),
        (FETCH, b"", -4, &[]),
        (ParentStep::Up(UpMsg::BytesRead { count: 5 }), b"", 1, &[]),
        (FETCH, b"bytes 0 00000000 5 5\n", -4, &[]),
    ];
    sends(
        rt.alloc(),
        b"script 1\nchannel\nhop response 200\npiece hello\npiece hello\nend ok\nwindow 1\n",
        ROWS,
    )
}

const CANCEL: ParentStep = ParentStep::Up(UpMsg::Cancel {
    status: Status::BINDING_ABORTED,
});

#[test]
fn a_load_that_is_cancelled_early_starts_and_stops(rt: HostRuntime) -> Result<(), Fail> {
    const ROWS: &[Row] = &[
        (FETCH, b"", 9, &[]),
        (VERIFIED, b"", 9, &[]),
        (OPEN, b"", 9, &[]),
        (CANCEL, b"", 9, &[]),
        (FETCH, b"start 0 804b0002 200 0\nsent 0\n", 9, &[]),
        (FETCH, b"stop 0 804b0002\n", 9, &[]),
        (FETCH, b"", 9, &[]),
    ];
    sends(
        rt.alloc(),
        b"script 1\nchannel\nhop response 200\npiece hello\nend ok\nwindow 9\n",
        ROWS,
    )
}

/// What changes nothing in any phase where all of the window is left.
const IDLE_CANCEL: UpMsg = UpMsg::Cancel { status: Status::OK };

const IDLE_READ: UpMsg = UpMsg::BytesRead { count: 1 };

/// The verdict of a page that says no, on hop 0 and on hop 1.
const VERDICT_0: UpMsg = UpMsg::Verify {
    hop: 0,
    status: Status::NET_RESET,
};

const VERDICT_1: UpMsg = UpMsg::Verify {
    hop: 1,
    status: Status::NET_RESET,
};

/// What is not expected before the opening, after it, while hop 0 is asked about, and where the load is over.
const IN_CLOSED: &[UpMsg] = &[IDLE_CANCEL, IDLE_READ, UpMsg::Resume, VERDICT_0];

const IN_LOAD: &[UpMsg] = &[
    IDLE_CANCEL,
    IDLE_READ,
    UpMsg::Resume,
    VERDICT_0,
    UpMsg::Open,
];

const IN_ASKING: &[UpMsg] = &[
    IDLE_CANCEL,
    IDLE_READ,
    UpMsg::Resume,
    VERDICT_1,
    UpMsg::Open,
];

const IN_DONE: &[UpMsg] = &[
    IDLE_CANCEL,
    IDLE_READ,
    UpMsg::Resume,
    VERDICT_0,
    UpMsg::Cancel {
        status: Status::NET_RESET,
    },
];

#[test]
fn messages_that_are_not_expected_change_nothing(rt: HostRuntime) -> Result<(), Fail> {
    const ROWS: &[Row] = &[
        (FETCH, b"", 1, IN_CLOSED),
        (OPEN, b"", 1, IN_LOAD),
        (FETCH, b"redirect1 0 302\n", 1, IN_ASKING),
        (VERIFIED, b"", 1, IN_LOAD),
        (FETCH, b"redirect3 0\n", 1, IN_LOAD),
        (FETCH, b"start 1 00000000 200 0\nsent 1\n", 1, IN_LOAD),
        (FETCH, b"stop 1 00000000\n", 1, IN_DONE),
        (FETCH, b"", 1, IN_DONE),
    ];
    sends(
        rt.alloc(),
        b"script 1\nchannel\nhop redirect 302 allow\nhop response 200\nend ok\nwindow 1\n",
        ROWS,
    )
}

// The background half of a parent: what goes in comes out in order.

ghost use Rattle.std.specs.Prelude.{◌≡◌, ◌≤◌, [], length};

use crate::rows::none_wrong;
use nk_back_parent::BackParent;
use nk_base::{BackMsg, Memory, Moved, Out, OutList};
use std::alloc::Global;

/// A half with the list that it is handed and the lane that it moves messages to, and how many messages there were:
/// so few that there is room for more.
#[derive(Drop)]
struct Driven {
    half: BackParent,
    inner: OutList<BackMsg>,
    lane: OutList<BackMsg>,
    given: u32,
    moved: u32,
    ghost few: { length inner.held ≤ given },
    ghost sent: { inner.staged ≡ [] },
    ghost few_moved: { length lane.held ≤ moved },
    ghost moved_all: { lane.staged ≡ [] },
}

/// A call of a half, or of the lists on both its sides.
#[derive(Clone, Copy, Drop)]
enum Call {
    Hand(u32),
    Forward,
    Count,
    Inner,
    Take,
}

/// What it answered. A message has its hop.
#[derive(Clone, Copy, Drop, PartialEq, Eq)]
enum Answer {
    Done,
    Moved(Moved),
    Count(usize),
    Message(Option<u32>),
    Refused,
    Memory,
}

fn hand(driven: &mut Driven, hop: u32) -> Answer {
    if driven.given >= 1000 || hop >= 32 {
        return Answer::Refused;
    }
    driven.given += 1;
    match driven.inner.stage(BackMsg::StartSent { hop }) {
        Ok(()) => {
            driven.inner.send_staged();
            Answer::Done
        }
        Err(_) => Answer::Memory,
    }
}

fn forward(driven: &mut Driven) -> Answer {
    if driven.moved >= 1000 {
        return Answer::Refused;
    }
    driven.moved += 1;
    match driven.half.forward(&mut driven.inner, &mut driven.lane) {
        Ok(moved) => Answer::Moved(moved),
        Err(Memory) => Answer::Memory,
    }
}

fn hop_of(message: Option<&BackMsg>) -> Option<u32> {
    match message {
        Some(BackMsg::StartSent { hop }) => Some(*hop),
        _ => None,
    }
}

fn make(driven: &mut Driven, call: Call) -> Answer {
    match call {
        Call::Hand(hop) => hand(driven, hop),
        Call::Forward => forward(driven),
        Call::Count => Answer::Count(driven.half.count()),
        Call::Inner => Answer::Message(hop_of(driven.inner.first())),
        Call::Take => {
            let message = driven.lane.take();
            Answer::Message(hop_of(message.as_ref()))
        }
    }
}

/// The number of the first call that answers otherwise than its row says.
fn first_wrong(alloc: Global, rows: &[(Call, Answer)]) -> Option<usize> {
    let mut driven = Driven {
        half: BackParent::new(),
        inner: OutList::new(alloc),
        lane: OutList::new(alloc),
        given: 0,
        moved: 0,
    };
    for (i, row) in rows.iter().enumerate() {
        if make(&mut driven, row.0) != row.1 {
            return Some(i);
        }
    }
    None
}

const DID: Answer = Answer::Moved(Moved::Did);

const IDLE: Answer = Answer::Moved(Moved::Idle);

#[test]
fn what_goes_in_comes_out_in_order(rt: HostRuntime) {
    let rows = &[
        (Call::Hand(0), Answer::Done),
        (Call::Hand(1), Answer::Done),
        (Call::Forward, DID),
        (Call::Take, Answer::Message(Some(0))),
        (Call::Forward, DID),
        (Call::Take, Answer::Message(Some(1))),
        (Call::Forward, IDLE),
        (Call::Take, Answer::Message(None)),
        (Call::Count, Answer::Count(2)),
    ];
    none_wrong(&rt, first_wrong(rt.alloc(), rows));
}

#[test]
fn a_message_is_moved_behind_those_that_were_moved(rt: HostRuntime) {
    let rows = &[
        (Call::Forward, IDLE),
        (Call::Count, Answer::Count(0)),
        (Call::Hand(3), Answer::Done),
        (Call::Hand(32), Answer::Refused),
        (Call::Inner, Answer::Message(Some(3))),
        (Call::Forward, DID),
        (Call::Inner, Answer::Message(None)),
        (Call::Hand(2), Answer::Done),
        (Call::Hand(1), Answer::Done),
        (Call::Forward, DID),
        (Call::Take, Answer::Message(Some(3))),
        (Call::Forward, DID),
        (Call::Count, Answer::Count(3)),
        (Call::Take, Answer::Message(Some(2))),
        (Call::Take, Answer::Message(Some(1))),
    ];
    none_wrong(&rt, first_wrong(rt.alloc(), rows));
}

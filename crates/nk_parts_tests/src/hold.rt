// The hold: what waits for its start, and what a release gives.

use crate::rows::none_wrong;
use nk_base::{BackMsg, Fields, Head, Piece, Status};
use nk_hold::{Held, Hold, Kept, Released};
use std::alloc::Global;

/// A call of a hold, or of the messages of its last release. Data has its hop and its offset.
#[derive(Clone, Copy, Drop)]
enum Call {
    Sent(u32),
    Start(u32),
    Data(u32, u64),
    Stop(u32),
    Queued(u32),
    Report,
    Kept,
    Release,
    Left,
    First,
    Take,
}

/// What it answered.
#[derive(Clone, Copy, Drop, PartialEq, Eq)]
enum Answer {
    Noted,
    Kept,
    Passed(Message),
    Done,
    Report(Option<u32>),
    Number(usize),
    Idle,
    Released,
    Message(Option<Message>),
    Refused,
    Memory,
}

/// A message, by its kind, its hop and, where it is data, its offset.
#[derive(Clone, Copy, Drop, PartialEq, Eq)]
enum Message {
    Sent(u32),
    Start(u32),
    Data(u32, u64),
    Stop(u32),
}

fn named(message: &BackMsg) -> Message {
    match message {
        BackMsg::StartSent { hop } => Message::Sent(*hop),
        BackMsg::Start { hop, .. } => Message::Start(*hop),
        BackMsg::Bytes { hop, offset, .. } => Message::Data(*hop, *offset),
        BackMsg::Stop { hop, .. } => Message::Stop(*hop),
    }
}

const OK: Status = Status::OK;

fn start(alloc: Global, hop: u32) -> Option<BackMsg> {
    let head = Head::new(200, Fields::new(alloc)).ok()?;
    let status = OK;
    Some(BackMsg::Start { hop, status, head })
}

fn data(alloc: Global, hop: u32, offset: u64) -> Option<BackMsg> {
    let piece = Piece::new(alloc, b"ab").ok()?;
    let status = OK;
    Some(BackMsg::Bytes {
        hop,
        status,
        offset,
        piece,
    })
}

fn stop(alloc: Global, hop: u32) -> Option<BackMsg> {
    let trailers = Fields::new(alloc);
    let status = OK;
    Some(BackMsg::Stop {
        hop,
        status,
        trailers,
    })
}

/// A hold, and what its last release gave.
#[derive(Drop)]
struct Driven {
    alloc: Global,
    hold: Hold,
    given: Option<Kept>,
}

fn held(held: Held) -> Answer {
    match held {
        Held::Pass(message) => Answer::Passed(named(&message)),
        Held::Kept => Answer::Kept,
        Held::Noted => Answer::Noted,
    }
}

/// Hands a message to the hold, with room made for it first.
fn back(hold: &mut Hold, message: Option<BackMsg>) -> Answer {
    if hold.reserve(1).is_err() {
        return Answer::Memory;
    }
    match message {
        Some(message) => held(hold.back(message)),
        None => Answer::Memory,
    }
}

fn queued(hold: &mut Hold, hop: u32) -> Answer {
    if hop > 32 {
        return Answer::Refused;
    }
    hold.start_queued(hop);
    Answer::Done
}

fn release(hold: &mut Hold, given: &mut Option<Kept>) -> Answer {
    let kept = hold.kept();
    if hold.reserve(kept).is_err() {
        return Answer::Memory;
    }
    match hold.release() {
        Released::Idle => Answer::Idle,
        Released::Messages(messages) => {
            *given = Some(messages);
            Answer::Released
        }
    }
}

fn left(given: &Option<Kept>) -> Answer {
    match given {
        Some(messages) => Answer::Number(messages.len()),
        None => Answer::Refused,
    }
}

fn first_of(messages: &Kept) -> Option<Message> {
    match messages.first() {
        Some(message) => Some(named(message)),
        None => None,
    }
}

fn first(given: &Option<Kept>) -> Answer {
    match given {
        Some(messages) => Answer::Message(first_of(messages)),
        None => Answer::Refused,
    }
}

fn take_of(messages: &mut Kept) -> Option<Message> {
    match messages.take() {
        Some(message) => Some(named(&message)),
        None => None,
    }
}

fn take(given: &mut Option<Kept>) -> Answer {
    match given {
        Some(messages) => Answer::Message(take_of(messages)),
        None => Answer::Refused,
    }
}

fn make(driven: &mut Driven, call: Call) -> Answer {
    let alloc = driven.alloc;
    match call {
        Call::Sent(hop) => back(&mut driven.hold, Some(BackMsg::StartSent { hop })),
        Call::Start(hop) => back(&mut driven.hold, start(alloc, hop)),
        Call::Data(hop, offset) => back(&mut driven.hold, data(alloc, hop, offset)),
        Call::Stop(hop) => back(&mut driven.hold, stop(alloc, hop)),
        Call::Queued(hop) => queued(&mut driven.hold, hop),
        Call::Report => Answer::Report(driven.hold.report()),
        Call::Kept => Answer::Number(driven.hold.kept()),
        Call::Release => release(&mut driven.hold, &mut driven.given),
        Call::Left => left(&driven.given),
        Call::First => first(&driven.given),
        Call::Take => take(&mut driven.given),
    }
}

fn new_hold(alloc: Global, has_first: bool) -> Hold {
    if has_first {
        Hold::with_first(alloc)
    } else {
        Hold::new(alloc)
    }
}

/// The number of the first call of a new hold, by which the first hop passes or not, that answers otherwise than its
/// row says.
fn first_wrong(alloc: Global, has_first: bool, rows: &[(Call, Answer)]) -> Option<usize> {
    let mut driven = Driven {
        alloc,
        hold: new_hold(alloc, has_first),
        given: None,
    };
    for (i, row) in rows.iter().enumerate() {
        if make(&mut driven, row.0) != row.1 {
            return Some(i);
        }
    }
    None
}

#[test]
fn data_waits_for_its_start_and_keeps_its_order(rt: HostRuntime) {
    let rows = &[
        (Call::Sent(0), Answer::Noted),
        (Call::Data(1, 0), Answer::Kept),
        (Call::Data(0, 2), Answer::Kept),
        (Call::Data(1, 2), Answer::Kept),
        (Call::Release, Answer::Idle),
        (Call::Queued(0), Answer::Done),
        (Call::Queued(1), Answer::Done),
        (Call::Report, Answer::Report(Some(1))),
        (Call::Release, Answer::Released),
        (Call::Kept, Answer::Number(1)),
        (Call::Left, Answer::Number(2)),
        (Call::First, Answer::Message(Some(Message::Data(1, 0)))),
        (Call::Take, Answer::Message(Some(Message::Data(1, 0)))),
        (Call::Take, Answer::Message(Some(Message::Data(1, 2)))),
        (Call::Data(1, 4), Answer::Passed(Message::Data(1, 4))),
        (Call::Take, Answer::Message(None)),
        (Call::First, Answer::Message(None)),
        (Call::Left, Answer::Number(0)),
        (Call::Report, Answer::Report(None)),
        (Call::Release, Answer::Idle),
        (Call::Kept, Answer::Number(1)),
    ];
    none_wrong(&rt, first_wrong(rt.alloc(), false, rows));
}

#[test]
fn only_the_word_that_a_start_was_sent_is_never_kept(rt: HostRuntime) {
    let rows = &[
        (Call::Sent(5), Answer::Noted),
        (Call::Report, Answer::Report(None)),
        (Call::Start(5), Answer::Kept),
        (Call::Data(5, 0), Answer::Kept),
        (Call::Stop(5), Answer::Kept),
        (Call::Kept, Answer::Number(3)),
        (Call::Queued(5), Answer::Done),
        (Call::Data(5, 7), Answer::Kept),
        (Call::Release, Answer::Released),
        (Call::Left, Answer::Number(4)),
        (Call::Take, Answer::Message(Some(Message::Start(5)))),
        (Call::Take, Answer::Message(Some(Message::Data(5, 0)))),
        (Call::Take, Answer::Message(Some(Message::Stop(5)))),
        (Call::Take, Answer::Message(Some(Message::Data(5, 7)))),
        (Call::Sent(5), Answer::Noted),
        (Call::Start(5), Answer::Passed(Message::Start(5))),
        (Call::Stop(5), Answer::Passed(Message::Stop(5))),
        (Call::Stop(6), Answer::Kept),
    ];
    none_wrong(&rt, first_wrong(rt.alloc(), false, rows));
}

#[test]
fn the_first_hop_passes_where_its_start_comes_behind_nothing(rt: HostRuntime) {
    let rows = &[
        (Call::Start(0), Answer::Passed(Message::Start(0))),
        (Call::Data(1, 0), Answer::Kept),
        (Call::Release, Answer::Idle),
        (Call::Queued(32), Answer::Done),
        (Call::Queued(33), Answer::Refused),
        (Call::Release, Answer::Released),
        (Call::Left, Answer::Number(0)),
        (Call::Data(32, 9), Answer::Passed(Message::Data(32, 9))),
        (Call::Data(0, 9), Answer::Passed(Message::Data(0, 9))),
        (Call::Queued(32), Answer::Done),
        (Call::Release, Answer::Released),
        (Call::Left, Answer::Number(0)),
        (Call::Queued(1), Answer::Done),
        (Call::Release, Answer::Released),
        (Call::Take, Answer::Message(Some(Message::Data(1, 0)))),
        (Call::Kept, Answer::Number(0)),
    ];
    none_wrong(&rt, first_wrong(rt.alloc(), true, rows));
}

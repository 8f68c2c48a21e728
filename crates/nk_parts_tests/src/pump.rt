// A pump over a stream in memory: the start, the bytes, and the stop.

ghost use Rattle.std.specs.Prelude.{if◌then◌else◌, ◌==◌};
ghost use Rattle.nk_pump.specs.Stream.{Open, Good, Failed};

use crate::rows::none_wrong;
use nk_base::Status;
use nk_pump::{Pump, PumpStream, Read, Turn};
use std::alloc::Global;

/// A stream of bytes in memory. Where it has ended, its status is 0 or why it failed.
#[derive(Drop)]
struct Lent {
    left: &'static [u8],
    ended: bool,
    status: Status,
    closed: bool,
}

impl PumpStream for Lent {
    ghost left = { λ s. s.left.now };

    ghost end = { λ s. (if s.ended then (if s.status.0 == 0 then Good else Failed s.status) else Open) };

    ghost closed = { λ s. s.closed };

    fn read_into(&mut self, buffer: &mut [u8]) -> Read {
        let count = buffer.len().min(self.left.len());
        let (given, left) = self.left.split_at(count);
        buffer[..count].copy_from_slice(given);
        self.left = left;
        if count > 0 {
            return Read::Read(count as u32);
        }
        if !self.ended {
            return Read::WouldBlock;
        }
        if self.status.0 == 0 {
            return Read::End;
        }
        Read::Failed(self.status)
    }

    fn close(&mut self, status: Status) {
        if !self.closed {
            self.left = &[];
            self.ended = true;
            self.status = status;
            self.closed = true;
        }
    }
}

/// A call of a pump, or what befalls its stream: it gets these bytes of the text, or ends.
#[derive(Clone, Copy, Drop)]
enum Call {
    Gets(usize, usize),
    Ends(Status),
    Turn,
    Cancel(Status),
    Started,
    Stop,
    Stream,
    Shown(usize),
}

/// What it answered.
#[derive(Clone, Copy, Drop, PartialEq, Eq)]
enum Answer {
    Done,
    Turn(Turn),
    Yes(bool),
    Stop(Option<Status>),
    Refused,
    Memory,
}

const DID: Answer = Answer::Turn(Turn::Did);

const WAITING: Answer = Answer::Turn(Turn::Waiting);

const DEAD: Answer = Answer::Turn(Turn::Dead);

const TEXT: &[u8] = b"abcdefghij";

const OK: Status = Status::OK;

const ABORTED: Status = Status::BINDING_ABORTED;

const RESET: Status = Status::NET_RESET;

fn gets(stream: &mut Lent, from: usize, to: usize) -> Answer {
    if from > to || to > 10 || stream.ended {
        return Answer::Refused;
    }
    stream.left = &TEXT[from..to];
    Answer::Done
}

fn turn(pump: &mut Pump, stream: &mut Lent) -> Answer {
    match pump.turn(stream) {
        Ok(turn) => Answer::Turn(turn),
        Err(_) => Answer::Memory,
    }
}

fn cancel(pump: &mut Pump, status: Status) -> Answer {
    if !status.is_failure() {
        return Answer::Refused;
    }
    pump.cancel(status);
    Answer::Done
}

/// Whether the pump has shown the first bytes of the text, so many.
fn has_shown(pump: &Pump, count: usize) -> bool {
    count <= 10 && pump.bytes().as_slice() == &TEXT[..count]
}

fn make(pump: &mut Pump, stream: &mut Lent, call: Call) -> Answer {
    match call {
        Call::Gets(from, to) => gets(stream, from, to),
        Call::Ends(status) => {
            stream.ended = true;
            stream.status = status;
            Answer::Done
        }
        Call::Turn => turn(pump, stream),
        Call::Cancel(status) => cancel(pump, status),
        Call::Started => Answer::Yes(pump.started()),
        Call::Stop => Answer::Stop(pump.stop()),
        Call::Stream => Answer::Stop(if stream.closed {
            Some(stream.status)
        } else {
            None
        }),
        Call::Shown(count) => Answer::Yes(has_shown(pump, count)),
    }
}

/// The number of the first call that answers otherwise than its row says.
fn first_wrong_of(pump: &mut Pump, rows: &[(Call, Answer)]) -> Option<usize> {
    let mut stream = Lent {
        left: &[],
        ended: false,
        status: OK,
        closed: false,
    };
    for (i, row) in rows.iter().enumerate() {
        if make(pump, &mut stream, row.0) != row.1 {
            return Some(i);
        }
    }
    None
}

/// The same for a new pump, or the number of none where it gave away another number of bytes in the end.
fn first_wrong(alloc: Global, size: u32, rows: &[(Call, Answer)], given: usize) -> Option<usize> {
    if size < 1 || size > 65_536 {
        return Some(0);
    }
    let Ok(mut pump) = Pump::new(alloc, size) else {
        return Some(0);
    };
    let wrong = first_wrong_of(&mut pump, rows);
    let is_other = pump.into_bytes().len() != given;
    if wrong.is_none() && is_other {
        return Some(rows.len());
    }
    wrong
}

#[test]
fn a_pump_that_is_cancelled_while_it_waits_stops(rt: HostRuntime) {
    let rows = &[
        (Call::Gets(0, 3), Answer::Done),
        (Call::Started, Answer::Yes(false)),
        (Call::Turn, DID),
        (Call::Shown(0), Answer::Yes(true)),
        (Call::Turn, DID),
        (Call::Turn, WAITING),
        (Call::Started, Answer::Yes(true)),
        (Call::Cancel(ABORTED), Answer::Done),
        (Call::Cancel(RESET), Answer::Done),
        (Call::Stop, Answer::Stop(None)),
        (Call::Stream, Answer::Stop(None)),
        (Call::Turn, DID),
        (Call::Turn, DEAD),
        (Call::Stop, Answer::Stop(Some(ABORTED))),
        (Call::Stream, Answer::Stop(Some(ABORTED))),
        (Call::Shown(3), Answer::Yes(true)),
    ];
    none_wrong(&rt, first_wrong(rt.alloc(), 4, rows, 3));
}

#[test]
fn bytes_come_a_buffer_at_a_time_and_then_the_end(rt: HostRuntime) {
    let rows = &[
        (Call::Gets(0, 10), Answer::Done),
        (Call::Ends(OK), Answer::Done),
        (Call::Turn, DID),
        (Call::Turn, DID),
        (Call::Shown(4), Answer::Yes(true)),
        (Call::Turn, DID),
        (Call::Shown(8), Answer::Yes(true)),
        (Call::Turn, DID),
        (Call::Shown(10), Answer::Yes(true)),
        (Call::Stop, Answer::Stop(None)),
        (Call::Turn, DID),
        (Call::Stop, Answer::Stop(Some(OK))),
        (Call::Cancel(RESET), Answer::Done),
        (Call::Turn, DEAD),
        (Call::Stop, Answer::Stop(Some(OK))),
        (Call::Stream, Answer::Stop(None)),
    ];
    none_wrong(&rt, first_wrong(rt.alloc(), 4, rows, 10));
}

#[test]
fn a_failed_stream_gives_its_bytes_before_its_status(rt: HostRuntime) {
    let rows = &[
        (Call::Turn, DID),
        (Call::Turn, WAITING),
        (Call::Gets(0, 2), Answer::Done),
        (Call::Turn, DID),
        (Call::Turn, DID),
        (Call::Turn, WAITING),
        (Call::Gets(2, 3), Answer::Done),
        (Call::Ends(RESET), Answer::Done),
        (Call::Turn, DID),
        (Call::Turn, DID),
        (Call::Stop, Answer::Stop(Some(RESET))),
        (Call::Turn, DEAD),
        (Call::Stream, Answer::Stop(None)),
    ];
    none_wrong(&rt, first_wrong(rt.alloc(), 1, rows, 3));
}

#[test]
fn a_cancel_before_the_start_lets_the_start_come(rt: HostRuntime) {
    let rows = &[
        (Call::Gets(0, 3), Answer::Done),
        (Call::Cancel(OK), Answer::Refused),
        (Call::Cancel(RESET), Answer::Done),
        (Call::Turn, DID),
        (Call::Stop, Answer::Stop(None)),
        (Call::Stream, Answer::Stop(None)),
        (Call::Turn, DID),
        (Call::Shown(0), Answer::Yes(true)),
        (Call::Stream, Answer::Stop(Some(RESET))),
        (Call::Turn, DEAD),
    ];
    none_wrong(&rt, first_wrong(rt.alloc(), 65_536, rows, 0));
}

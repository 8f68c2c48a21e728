// Listeners: what their readers get, read by read, and a reader of a pipe as the stream of a pump.

ghost use Rattle.std.specs.Prelude.{IsTrue};
ghost use Rattle.nk_sink.specs.Reached.{IsGoodKind};
ghost use Rattle.nk_sink.specs.Lent.{IsThere};

use crate::rows::none_wrong;
use nk_base::{Entry, Fields, Moved, Piece, Status};
use nk_pipe::{Pipe, Write};
use nk_plan::{ListenerKind, Readers};
use nk_pump::{Pump, Turn};
use nk_sink::{Listener, PipeReader};
use std::alloc::Global;

/// A call of a listener. Data is the bytes of the text between two places.
#[derive(Clone, Copy, Drop)]
enum Call {
    Start,
    Bytes(usize, usize),
    Stop(Status),
    Read(u8),
    Entries,
}

/// What it answered.
#[derive(Clone, Copy, Drop, PartialEq, Eq)]
enum Answer {
    Done,
    Moved(Moved),
    Number(usize),
    Refused,
    Memory,
}

const TEXT: &[u8] = b"abcdefghijklmnopqrstuvwxyz";

const OK: Status = Status::OK;

const ABORTED: Status = Status::BINDING_ABORTED;

const RESET: Status = Status::NET_RESET;

const DID: Answer = Answer::Moved(Moved::Did);

const IDLE: Answer = Answer::Moved(Moved::Idle);

fn enter(listener: &mut Listener, entry: Entry) -> Answer {
    if listener.entries().len() >= 1000 {
        return Answer::Refused;
    }
    match listener.entry(entry) {
        Ok(()) => Answer::Done,
        Err(_) => Answer::Memory,
    }
}

fn enter_bytes(alloc: Global, listener: &mut Listener, from: usize, to: usize) -> Answer {
    if from > to || to > 26 {
        return Answer::Refused;
    }
    match Piece::new(alloc, &TEXT[from..to]) {
        Ok(piece) => enter(
            listener,
            Entry::Bytes {
                offset: from as u64,
                piece,
            },
        ),
        Err(_) => Answer::Memory,
    }
}

fn make(alloc: Global, listener: &mut Listener, call: Call) -> Answer {
    match call {
        Call::Start => enter(
            listener,
            Entry::Start {
                code: 200,
                status: OK,
            },
        ),
        Call::Bytes(from, to) => enter_bytes(alloc, listener, from, to),
        Call::Stop(status) => {
            let trailers = Fields::new(alloc);
            enter(listener, Entry::Stop { status, trailers })
        }
        Call::Read(reader) => match listener.read(reader) {
            Ok(moved) => Answer::Moved(moved),
            Err(_) => Answer::Memory,
        },
        Call::Entries => Answer::Number(listener.entries().len()),
    }
}

fn is_good(kind: ListenerKind) -> bool
    ensures { IsTrue result → IsGoodKind kind }
{
    match kind {
        ListenerKind::Plain => true,
        ListenerKind::Pipe {
            segment,
            limit,
            readers,
        } => {
            4 <= segment
                && segment <= 65_536
                && 1 <= limit
                && limit <= 1024
                && 1 <= readers
                && readers <= 8
        }
    }
}

/// What a reader has in the end: so many bytes of the text, from its first on, and the status of its stop.
#[derive(Clone, Copy, Drop)]
struct End(usize, Option<Status>);

/// Whether these are the ends of the readers.
fn are_ends(readers: &Readers, ends: &[End]) -> bool {
    if readers.len() != ends.len() {
        return false;
    }
    for (i, end) in ends.iter().enumerate() {
        let reader = readers.get(i);
        if end.0 > 26 || reader.bytes.as_slice() != &TEXT[..end.0] || reader.status != end.1 {
            return false;
        }
    }
    true
}

/// Whether these are the ends of the readers, of a listener that has kept all that it was shown.
fn ends_are(listener: Listener, ends: &[End]) -> bool {
    let is_whole = !listener.has_failed() && usize::from(listener.readers()) == ends.len();
    let shown = listener.entries().len();
    let (entries, readers) = listener.into_parts();
    let are_kept = entries.len() == shown;
    match readers {
        Ok(readers) => is_whole && are_kept && are_ends(&readers, ends),
        Err(_) => false,
    }
}

fn first_wrong_of_calls(
    alloc: Global,
    listener: &mut Listener,
    rows: &[(Call, Answer)],
) -> Option<usize> {
    for (i, row) in rows.iter().enumerate() {
        if make(alloc, listener, row.0) != row.1 {
            return Some(i);
        }
    }
    None
}

/// The number of the first call of a new listener that answers otherwise than its row says, or of none where its
/// readers have other ends in the end.
fn first_wrong(
    alloc: Global,
    kind: ListenerKind,
    rows: &[(Call, Answer)],
    ends: &[End],
) -> Option<usize> {
    if !is_good(kind) {
        return Some(0);
    }
    let Ok(mut listener) = Listener::new(alloc, kind) else {
        return Some(0);
    };
    let wrong = first_wrong_of_calls(alloc, &mut listener, rows);
    let is_kind = listener.kind() == kind;
    let are_so = ends_are(listener, ends) && is_kind;
    if wrong.is_none() && !are_so {
        return Some(rows.len());
    }
    wrong
}

fn pipe(limit: u32, readers: u8) -> ListenerKind {
    ListenerKind::Pipe {
        segment: 4,
        limit,
        readers,
    }
}

#[test]
fn two_readers_have_all_bytes_and_the_stop(rt: HostRuntime) {
    let rows = &[
        (Call::Start, Answer::Done),
        (Call::Bytes(0, 20), Answer::Done),
        (Call::Stop(OK), Answer::Done),
        (Call::Read(1), DID),
        (Call::Read(1), DID),
        (Call::Read(1), DID),
        (Call::Read(1), DID),
        (Call::Read(1), DID),
        (Call::Read(1), DID),
        (Call::Read(1), DID),
        (Call::Read(1), IDLE),
        (Call::Read(2), DID),
        (Call::Read(2), DID),
        (Call::Read(2), DID),
        (Call::Read(2), DID),
        (Call::Read(2), DID),
        (Call::Read(2), DID),
        (Call::Read(2), DID),
        (Call::Read(2), IDLE),
        (Call::Read(3), IDLE),
        (Call::Read(0), IDLE),
    ];
    let ends = &[End(20, Some(OK)), End(20, Some(OK))];
    none_wrong(&rt, first_wrong(rt.alloc(), pipe(2, 2), rows, ends));
}

#[test]
fn a_reader_waits_for_what_is_kept(rt: HostRuntime) {
    let rows = &[
        (Call::Start, Answer::Done),
        (Call::Bytes(0, 6), Answer::Done),
        (Call::Read(1), DID),
        (Call::Read(1), DID),
        (Call::Read(1), DID),
        (Call::Read(1), IDLE),
    ];
    none_wrong(
        &rt,
        first_wrong(rt.alloc(), pipe(1, 1), rows, &[End(6, None)]),
    );
}

#[test]
fn an_entry_behind_a_stop_changes_no_pipe(rt: HostRuntime) {
    let rows = &[
        (Call::Start, Answer::Done),
        (Call::Bytes(0, 20), Answer::Done),
        (Call::Stop(RESET), Answer::Done),
        (Call::Bytes(25, 26), Answer::Done),
        (Call::Stop(OK), Answer::Done),
        (Call::Entries, Answer::Number(5)),
        (Call::Read(1), DID),
        (Call::Read(1), DID),
        (Call::Read(1), DID),
        (Call::Read(1), DID),
        (Call::Read(1), DID),
        (Call::Read(1), DID),
        (Call::Read(1), DID),
        (Call::Read(1), IDLE),
    ];
    none_wrong(
        &rt,
        first_wrong(rt.alloc(), pipe(1, 1), rows, &[End(20, Some(RESET))]),
    );
}

#[test]
fn a_plain_listener_keeps_the_entries_alone(rt: HostRuntime) {
    let rows = &[
        (Call::Start, Answer::Done),
        (Call::Bytes(0, 20), Answer::Done),
        (Call::Stop(OK), Answer::Done),
        (Call::Entries, Answer::Number(3)),
        (Call::Read(1), IDLE),
        (Call::Bytes(20, 21), Answer::Done),
        (Call::Entries, Answer::Number(4)),
    ];
    none_wrong(&rt, first_wrong(rt.alloc(), ListenerKind::Plain, rows, &[]));
}

#[test]
fn the_furthest_reader_makes_room_for_what_is_kept(rt: HostRuntime) {
    let rows = &[
        (Call::Read(1), DID),
        (Call::Read(1), IDLE),
        (Call::Start, Answer::Done),
        (Call::Read(1), IDLE),
        (Call::Bytes(0, 3), Answer::Done),
        (Call::Bytes(3, 9), Answer::Done),
        (Call::Read(1), DID),
        (Call::Read(1), DID),
        (Call::Stop(Status::STREAM_CLOSED), Answer::Done),
        (Call::Read(8), DID),
        (Call::Read(8), DID),
        (Call::Read(8), DID),
        (Call::Read(8), DID),
        (Call::Read(8), DID),
        (Call::Read(8), IDLE),
        (Call::Read(1), DID),
        (Call::Read(1), DID),
        (Call::Read(1), IDLE),
        (Call::Read(9), IDLE),
        (Call::Read(2), DID),
        (Call::Read(2), DID),
        (Call::Entries, Answer::Number(4)),
    ];
    const NONE: End = End(0, None);
    const ALL: End = End(9, Some(OK));
    let ends = &[ALL, End(4, None), NONE, NONE, NONE, NONE, NONE, ALL];
    none_wrong(&rt, first_wrong(rt.alloc(), pipe(1, 8), rows, ends));
}

/// Whether a reader of this number was made.
fn is_there(pipe: &Pipe, reader: u32) -> bool
    ensures { IsTrue result → IsThere pipe.now.readers reader }
{
    pipe.position(reader).is_some()
}

/// A call of a pipe or of the pump of one of its readers.
#[derive(Clone, Copy, Drop)]
enum PumpCall {
    Write(usize),
    Turn(u32),
    Cancel(Status),
    Stop,
}

/// What it answered.
#[derive(Clone, Copy, Drop, PartialEq, Eq)]
enum PumpAnswer {
    Write(Write),
    Turn(Turn),
    Done,
    Stop(Option<Status>, usize),
    Refused,
    Memory,
}

/// Writes so many bytes of the text.
fn write(pipe: &mut Pipe, count: usize) -> PumpAnswer {
    if count > 26 || pipe.written() > 1000 {
        return PumpAnswer::Refused;
    }
    match pipe.write(&TEXT[..count]) {
        Ok(write) => PumpAnswer::Write(write),
        Err(_) => PumpAnswer::Memory,
    }
}

fn turn(pump: &mut Pump, pipe: &mut Pipe, reader: u32) -> PumpAnswer {
    if !is_there(pipe, reader) {
        return PumpAnswer::Refused;
    }
    let mut stream = PipeReader::new(pipe, reader);
    match pump.turn(&mut stream) {
        Ok(turn) => PumpAnswer::Turn(turn),
        Err(_) => PumpAnswer::Memory,
    }
}

fn cancel(pump: &mut Pump, status: Status) -> PumpAnswer {
    if !status.is_failure() {
        return PumpAnswer::Refused;
    }
    pump.cancel(status);
    PumpAnswer::Done
}

fn ask(pump: &mut Pump, pipe: &mut Pipe, call: PumpCall) -> PumpAnswer {
    match call {
        PumpCall::Write(count) => write(pipe, count),
        PumpCall::Turn(reader) => turn(pump, pipe, reader),
        PumpCall::Cancel(status) => cancel(pump, status),
        PumpCall::Stop => PumpAnswer::Stop(pump.stop(), pump.bytes().len()),
    }
}

/// The number of the first call that answers otherwise than its row says, or of none where the pump has shown other
/// bytes in the end.
fn first_wrong_of(
    pump: &mut Pump,
    pipe: &mut Pipe,
    rows: &[(PumpCall, PumpAnswer)],
    shown: &[u8],
) -> Option<usize> {
    for (i, row) in rows.iter().enumerate() {
        if ask(pump, pipe, row.0) != row.1 {
            return Some(i);
        }
    }
    if pump.bytes().as_slice() != shown {
        return Some(rows.len());
    }
    None
}

/// The same for a new pump.
fn first_wrong_of_pump(
    alloc: Global,
    pipe: &mut Pipe,
    rows: &[(PumpCall, PumpAnswer)],
    shown: &[u8],
) -> Option<usize> {
    match Pump::new(alloc, 4) {
        Ok(mut pump) => first_wrong_of(&mut pump, pipe, rows, shown),
        Err(_) => Some(0),
    }
}

/// The same for a new pump over a new pipe.
fn first_wrong_of_both(
    alloc: Global,
    rows: &[(PumpCall, PumpAnswer)],
    shown: &[u8],
) -> Option<usize> {
    match Pipe::new(alloc, 4, 2) {
        Ok((mut pipe, 1)) => first_wrong_of_pump(alloc, &mut pipe, rows, shown),
        _ => Some(0),
    }
}

#[test]
fn a_cancel_closes_the_only_reader_and_so_the_pipe(rt: HostRuntime) {
    let rows = &[
        (PumpCall::Write(3), PumpAnswer::Write(Write::Wrote(3))),
        (PumpCall::Turn(1), PumpAnswer::Turn(Turn::Did)),
        (PumpCall::Turn(1), PumpAnswer::Turn(Turn::Did)),
        (PumpCall::Turn(1), PumpAnswer::Turn(Turn::Waiting)),
        (PumpCall::Turn(2), PumpAnswer::Refused),
        (PumpCall::Cancel(ABORTED), PumpAnswer::Done),
        (PumpCall::Turn(1), PumpAnswer::Turn(Turn::Did)),
        (PumpCall::Turn(1), PumpAnswer::Turn(Turn::Dead)),
        (PumpCall::Stop, PumpAnswer::Stop(Some(ABORTED), 3)),
        (
            PumpCall::Write(1),
            PumpAnswer::Write(Write::Closed(ABORTED)),
        ),
    ];
    none_wrong(&rt, first_wrong_of_both(rt.alloc(), rows, b"abc"));
}

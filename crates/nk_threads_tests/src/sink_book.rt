// Sink books under their locks: what is sent on the lane is what the listener is shown, and what its readers get.

ghost use Rattle.std.specs.Prelude.{IfSome};
ghost use Rattle.nk_sink.specs.Reached.{IsGoodKind};

use nk_base::{Entry, Fields, Memory, Moved, Piece, Status};
use nk_lane::{AnyEntry, SendEnd, TakeEnd, lane};
use nk_plan::{ListenerKind, Readers, Trace};
use nk_sink::Listener;
use nk_sink_cell::{SinkBook, SinkCell};
use std::alloc::Global;
use std::sync::Wait;

/// The sending end of a lane, and the book that is fed from it.
#[derive(Drop)]
struct Driven {
    sender: SendEnd<Entry, AnyEntry>,
    cell: SinkCell,
}

/// An entry. Data is the bytes of the text between two places.
#[derive(Clone, Copy, Drop)]
enum Sent {
    Start,
    Bytes(usize, usize),
    Stop(Status),
}

/// A call of the sending end or of the cell.
#[derive(Clone, Copy, Drop)]
enum Call {
    Send(Sent),
    Deliver,
    Read(u8),
}

/// What it answered.
#[derive(Clone, Copy, Drop, PartialEq, Eq)]
enum Answer {
    Done,
    Moved(Moved),
    Refused,
    Memory,
}

const TEXT: &[u8] = b"abcdefghijklmnopqrstuvwxyz";

const NUMBER: u32 = 7;

const OK: Status = Status::OK;

const RESET: Status = Status::NET_RESET;

const START: Call = Call::Send(Sent::Start);

const DID: Answer = Answer::Moved(Moved::Did);

const IDLE: Answer = Answer::Moved(Moved::Idle);

fn entry_of(alloc: Global, sent: Sent) -> Option<Entry> {
    match sent {
        Sent::Start => Some(Entry::Start {
            code: 200,
            status: OK,
        }),
        Sent::Bytes(from, to) if from < to && to <= 26 => Some(Entry::Bytes {
            offset: from as u64,
            piece: Piece::new(alloc, &TEXT[from..to]).ok()?,
        }),
        Sent::Bytes(..) => None,
        Sent::Stop(status) => Some(Entry::Stop {
            status,
            trailers: Fields::new(alloc),
        }),
    }
}

fn send(alloc: Global, sender: &mut SendEnd<Entry, AnyEntry>, sent: Sent) -> Answer {
    if sender.room() == 0 {
        return Answer::Refused;
    }
    match entry_of(alloc, sent) {
        Some(entry) => {
            sender.send(entry);
            Answer::Done
        }
        None => Answer::Memory,
    }
}

fn answer_of(moved: Result<Moved, Memory>) -> Answer {
    match moved {
        Ok(moved) => Answer::Moved(moved),
        Err(_) => Answer::Memory,
    }
}

fn make<W: Wait>(rt: &W, alloc: Global, driven: &mut Driven, call: Call) -> Answer {
    match call {
        Call::Send(sent) => send(alloc, &mut driven.sender, sent),
        Call::Deliver => answer_of(driven.cell.deliver(rt)),
        Call::Read(reader) => answer_of(driven.cell.read(rt, reader)),
    }
}

/// What a reader has in the end: so many bytes of the text, from its first on, and the status of its stop.
#[derive(Clone, Copy, Drop)]
struct End(usize, Option<Status>);

/// Whether these are the ends of the readers.
fn are_ends(readers: &Readers, ends: &[End]) -> bool {
    if readers.len() != ends.len() {
        return false;
    }
    for (i, end) in ends.iter().enumerate() {
        let reader = readers.get(i);
        if end.0 > 26 || reader.bytes.as_slice() != &TEXT[..end.0] || reader.status != end.1 {
            return false;
        }
    }
    true
}

/// Whether this entry comes next, among those that were shown and then those that are left. It counts those of the first.
fn comes(
    trace: &Trace,
    seen: &mut usize,
    left: &mut TakeEnd<Entry, AnyEntry>,
    sent: &Entry,
) -> bool {
    if *seen < trace.len() {
        let same = trace.get(*seen).same(sent);
        *seen += 1;
        return same;
    }
    match left.take() {
        Some(entry) => entry.same(sent),
        None => false,
    }
}

/// Whether what was shown, and then what is left on the lane, is what these calls sent.
fn are_sent(
    alloc: Global,
    trace: &Trace,
    left: &mut TakeEnd<Entry, AnyEntry>,
    rows: &[(Call, Answer)],
) -> bool {
    let mut seen = 0;
    for row in rows {
        if let (Call::Send(sent), Answer::Done) = *row {
            let Some(entry) = entry_of(alloc, sent) else {
                return false;
            };
            if !comes(trace, &mut seen, left, &entry) {
                return false;
            }
        }
    }
    seen == trace.len() && left.take().is_none()
}

/// Whether a book leaves as many entries in its listener, and these ends of the readers.
fn leaves(
    alloc: Global,
    book: SinkBook,
    rows: &[(Call, Answer)],
    shown: usize,
    ends: &[End],
) -> bool {
    if book.number() != NUMBER {
        return false;
    }
    let (mut left, listener) = book.into_parts();
    let (trace, readers) = listener.into_parts();
    match readers {
        Ok(readers) => {
            trace.len() == shown
                && are_ends(&readers, ends)
                && are_sent(alloc, &trace, &mut left, rows)
        }
        Err(_) => false,
    }
}

/// Plain with no reader, else a pipe with segments of 4 bytes and the limit 1.
fn kind_of(readers: usize) -> Option<ListenerKind>
    ensures { IfSome result IsGoodKind }
{
    if readers == 0 {
        return Some(ListenerKind::Plain);
    }
    if readers > 8 {
        return None;
    }
    Some(ListenerKind::Pipe {
        segment: 4,
        limit: 1,
        readers: readers as u8,
    })
}

/// A new lane, and the book at its taking end.
fn new_driven(alloc: Global, capacity: u32, readers: usize) -> Option<Driven> {
    let kind = kind_of(readers)?;
    let Ok(listener) = Listener::new(alloc, kind) else {
        return None;
    };
    let (sender, taker) = lane::<Entry, AnyEntry>(alloc, capacity).ok()?;
    let cell = SinkCell::new(SinkBook::new(NUMBER, taker, listener));
    Some(Driven { sender, cell })
}

/// The number of the first call that answers otherwise than its row says, or of none where the book leaves something else
/// in the end. There is a reader for each end.
fn first_wrong<W: Wait>(
    rt: &W,
    alloc: Global,
    capacity: u32,
    rows: &[(Call, Answer)],
    shown: usize,
    ends: &[End],
) -> Option<usize> {
    let Some(mut driven) = new_driven(alloc, capacity, ends.len()) else {
        return Some(0);
    };
    for (i, row) in rows.iter().enumerate() {
        if make(rt, alloc, &mut driven, row.0) != row.1 {
            return Some(i);
        }
    }
    if leaves(alloc, driven.cell.into_book(), rows, shown, ends) {
        return None;
    }
    Some(rows.len())
}

const fn bytes(from: usize, to: usize) -> Call {
    Call::Send(Sent::Bytes(from, to))
}

const fn stop(status: Status) -> Call {
    Call::Send(Sent::Stop(status))
}

#[test]
fn two_readers_have_what_was_sent_on_the_lane(rt: HostRuntime) {
    let rows = [
        (Call::Deliver, IDLE),
        (Call::Read(1), DID),
        (Call::Read(1), IDLE),
        (START, Answer::Done),
        (bytes(0, 6), Answer::Done),
        (Call::Read(1), IDLE),
        (Call::Deliver, DID),
        (Call::Read(1), IDLE),
        (Call::Deliver, DID),
        (Call::Read(1), DID),
        (Call::Read(2), DID),
        (Call::Read(1), DID),
        (Call::Read(1), IDLE),
        (Call::Deliver, IDLE),
        (bytes(6, 9), Answer::Done),
        (stop(OK), Answer::Done),
        (START, Answer::Refused),
        (Call::Deliver, DID),
        (Call::Deliver, DID),
        (Call::Deliver, IDLE),
        (Call::Read(1), DID),
        (Call::Read(1), DID),
        (Call::Read(1), DID),
        (Call::Read(1), IDLE),
        (Call::Read(2), DID),
        (Call::Read(2), DID),
        (Call::Read(2), DID),
        (Call::Read(2), DID),
        (Call::Read(2), IDLE),
        (Call::Read(3), IDLE),
    ];
    let ends = [End(9, Some(OK)), End(9, Some(OK))];
    assert_eq!(&rt; first_wrong(&rt, rt.alloc(), 4, &rows, 4, &ends), None);
}

#[test]
fn what_was_not_delivered_is_left_on_the_lane(rt: HostRuntime) {
    let rows = [
        (START, Answer::Done),
        (bytes(0, 3), Answer::Done),
        (bytes(3, 5), Answer::Done),
        (stop(RESET), Answer::Done),
        (Call::Deliver, DID),
        (Call::Deliver, DID),
        (Call::Read(1), DID),
        (Call::Read(1), DID),
        (Call::Read(1), IDLE),
    ];
    let ends = [End(3, None), End(0, None)];
    assert_eq!(&rt; first_wrong(&rt, rt.alloc(), 10, &rows, 2, &ends), None);
}

#[test]
fn a_plain_listener_is_shown_what_was_sent(rt: HostRuntime) {
    let rows = [
        (START, Answer::Done),
        (Call::Deliver, DID),
        (bytes(0, 26), Answer::Done),
        (stop(RESET), Answer::Done),
        (Call::Deliver, DID),
        (Call::Read(1), IDLE),
        (Call::Deliver, DID),
        (Call::Deliver, IDLE),
    ];
    assert_eq!(&rt; first_wrong(&rt, rt.alloc(), 3, &rows, 3, &[]), None);
}

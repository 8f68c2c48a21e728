// Lanes: what is sent on one end is taken at the other, at most as much as the capacity; and messages as frames, on each lane.

ghost use Rattle.std.specs.Prelude.{◌≡◌, ◌<◌, [], IfSome};
ghost use Rattle.nk_base.specs.Ranges.{IsMainInRange, IsBackInRange, IsUpInRange};
ghost use Rattle.nk_lane.specs.Ends.{IsLane};

use crate::rows::{none_wrong, right};
use nk_base::{BackMsg, Entry, Fields, Head, MainMsg, Out, Piece, Status, UpMsg};
use nk_lane::{AnyEntry, EntryOut, FrameOut, SendEnd, Spelled, TakeEnd, lane, settle};
use nk_wire::{Frame, Framed};
use std::alloc::Global;

/// The two ends of one lane. An entry is named by its code.
#[derive(Drop)]
struct Driven {
    sender: SendEnd<Entry, AnyEntry>,
    taker: TakeEnd<Entry, AnyEntry>,
    ghost lane: { IsLane sender taker },
}

/// A call of an end, or of both.
#[derive(Clone, Copy, Drop)]
enum Call {
    Send(u16),
    Room,
    Peek,
    Take,
    Settle,
}

/// What it answered.
#[derive(Clone, Copy, Drop, PartialEq, Eq)]
enum Answer {
    Done,
    Room(u32),
    Entry(Option<u16>),
    Refused,
}

fn entry(code: u16) -> Entry {
    Entry::Start {
        code,
        status: Status::OK,
    }
}

fn code_of(entry: Option<&Entry>) -> Option<u16> {
    match entry {
        Some(Entry::Start { code, .. }) => Some(*code),
        _ => None,
    }
}

fn send(driven: &mut Driven, code: u16) -> Answer {
    if driven.sender.room() == 0 {
        return Answer::Refused;
    }
    driven.sender.send(entry(code));
    Answer::Done
}

fn take(driven: &mut Driven) -> Answer {
    let entry = driven.taker.take();
    Answer::Entry(code_of(entry.as_ref()))
}

fn make(driven: &mut Driven, call: Call) -> Answer {
    match call {
        Call::Send(code) => send(driven, code),
        Call::Room => Answer::Room(driven.sender.room()),
        Call::Peek => Answer::Entry(code_of(driven.taker.peek())),
        Call::Take => take(driven),
        Call::Settle => {
            settle(&mut driven.sender, &mut driven.taker);
            Answer::Done
        }
    }
}

/// The number of the first call that answers otherwise than its row says.
fn first_wrong_of(driven: &mut Driven, rows: &[(Call, Answer)]) -> Option<usize> {
    for (i, row) in rows.iter().enumerate() {
        if make(driven, row.0) != row.1 {
            return Some(i);
        }
    }
    None
}

/// The same for a new lane.
fn first_wrong(alloc: Global, capacity: u32, rows: &[(Call, Answer)]) -> Option<usize> {
    match lane::<Entry, AnyEntry>(alloc, capacity) {
        Ok((sender, taker)) => first_wrong_of(&mut Driven { sender, taker }, rows),
        Err(_) => Some(rows.len()),
    }
}

#[test]
fn a_lane_of_three_gives_at_most_three(rt: HostRuntime) {
    let rows = &[
        (Call::Room, Answer::Room(3)),
        (Call::Take, Answer::Entry(None)),
        (Call::Send(1), Answer::Done),
        (Call::Send(2), Answer::Done),
        (Call::Take, Answer::Entry(Some(1))),
        (Call::Room, Answer::Room(1)),
        (Call::Send(3), Answer::Done),
        (Call::Send(4), Answer::Refused),
        (Call::Peek, Answer::Entry(Some(2))),
        (Call::Peek, Answer::Entry(Some(2))),
        (Call::Take, Answer::Entry(Some(2))),
        (Call::Take, Answer::Entry(Some(3))),
        (Call::Peek, Answer::Entry(None)),
        (Call::Take, Answer::Entry(None)),
        (Call::Room, Answer::Room(0)),
        (Call::Send(5), Answer::Refused),
        (Call::Settle, Answer::Done),
        (Call::Take, Answer::Entry(None)),
    ];
    none_wrong(&rt, first_wrong(rt.alloc(), 3, rows));
}

#[test]
fn a_lane_of_none_gives_none(rt: HostRuntime) {
    let rows = &[
        (Call::Room, Answer::Room(0)),
        (Call::Send(1), Answer::Refused),
        (Call::Peek, Answer::Entry(None)),
        (Call::Settle, Answer::Done),
        (Call::Take, Answer::Entry(None)),
    ];
    none_wrong(&rt, first_wrong(rt.alloc(), 0, rows));
}

#[test]
fn a_lane_is_settled_after_any_sends_and_takes(rt: HostRuntime) {
    let rows = &[
        (Call::Settle, Answer::Done),
        (Call::Send(1), Answer::Done),
        (Call::Settle, Answer::Done),
        (Call::Send(2), Answer::Done),
        (Call::Peek, Answer::Entry(Some(1))),
        (Call::Settle, Answer::Done),
        (Call::Take, Answer::Entry(Some(1))),
        (Call::Send(3), Answer::Done),
        (Call::Settle, Answer::Done),
        (Call::Room, Answer::Room(97)),
        (Call::Take, Answer::Entry(Some(2))),
        (Call::Settle, Answer::Done),
        (Call::Take, Answer::Entry(Some(3))),
        (Call::Settle, Answer::Done),
        (Call::Take, Answer::Entry(None)),
    ];
    none_wrong(&rt, first_wrong(rt.alloc(), 100, rows));
}

const OK: Status = Status::OK;

const RESET: Status = Status::NET_RESET;

/// Messages of one lane, one for each number.
trait Sampled: Framed + Drop {
    ghost use Rattle.std.specs.Prelude.{IfSome};

    fn sample(alloc: Global, number: usize) -> Option<Self>
        ensures { IfSome result (λ m. Self.IsInRange m) };

    fn is(&self, other: &Self) -> bool;
}

/// A message of the main lane for each number from 0 to 3.
fn main_sample(alloc: Global, number: usize) -> Option<MainMsg>
    ensures { IfSome result IsMainInRange }
{
    match number {
        0 => Some(MainMsg::Start {
            hop: 31,
            status: OK,
            head: Head::new(200, Fields::new(alloc)).ok()?,
        }),
        1 => Some(MainMsg::FailedOpen {
            hop: 0,
            status: RESET,
        }),
        2 => Some(MainMsg::Redirect1 { hop: 7, code: 302 }),
        _ => Some(MainMsg::Redirect3 { hop: 7 }),
    }
}

/// A message of the background lane for each number from 0 to 3.
fn back_sample(alloc: Global, number: usize) -> Option<BackMsg>
    ensures { IfSome result IsBackInRange }
{
    match number {
        0 => Some(BackMsg::StartSent { hop: 31 }),
        1 => Some(BackMsg::Bytes {
            hop: 0,
            status: OK,
            offset: 5,
            piece: Piece::new(alloc, b"hello").ok()?,
        }),
        2 => Some(BackMsg::Stop {
            hop: 0,
            status: RESET,
            trailers: Fields::new(alloc),
        }),
        _ => Some(BackMsg::Start {
            hop: 1,
            status: OK,
            head: Head::new(404, Fields::new(alloc)).ok()?,
        }),
    }
}

/// A message of the up lane for each number from 0 to 6.
fn up_sample(number: usize) -> Option<UpMsg>
    ensures { IfSome result IsUpInRange }
{
    match number {
        0 => Some(UpMsg::Open),
        1 => Some(UpMsg::Suspend),
        2 => Some(UpMsg::Resume),
        3 => Some(UpMsg::Cancel { status: RESET }),
        4 => Some(UpMsg::Verify { hop: 2, status: OK }),
        5 => Some(UpMsg::BytesRead { count: 131_072 }),
        _ => Some(UpMsg::Deleting),
    }
}

/// What comes out of a lane of what is ready to be sent. It is on the lane only once it was sent.
fn taken<M: Framed + Drop>(
    alloc: Global,
    out: &mut FrameOut<M>,
    taker: &mut TakeEnd<Frame, Spelled<M>>,
) -> Option<M> {
    if taker.take().is_some() {
        return None;
    }
    out.send_staged();
    let frame = taker.take()?;
    M::decode(alloc, &frame).ok()
}

/// The message as it comes out of a lane.
fn through<M: Framed + Drop>(alloc: Global, message: M) -> Option<M>
    requires { M.IsInRange message }
{
    let (sender, mut taker) = lane::<Frame, Spelled<M>>(alloc, 1).ok()?;
    let mut out = FrameOut::new(alloc, sender);
    if out.stage(message).is_err() {
        return None;
    }
    taken(alloc, &mut out, &mut taker)
}

impl Sampled for MainMsg {
    fn sample(alloc: Global, number: usize) -> Option<MainMsg> {
        main_sample(alloc, number)
    }

    fn is(&self, other: &MainMsg) -> bool {
        self.same(other)
    }
}

impl Sampled for BackMsg {
    fn sample(alloc: Global, number: usize) -> Option<BackMsg> {
        back_sample(alloc, number)
    }

    fn is(&self, other: &BackMsg) -> bool {
        self.same(other)
    }
}

impl Sampled for UpMsg {
    fn sample(_alloc: Global, number: usize) -> Option<UpMsg> {
        up_sample(number)
    }

    fn is(&self, other: &UpMsg) -> bool {
        self.same(other)
    }
}

fn comes_through<M: Sampled>(alloc: Global, number: usize) -> Option<bool> {
    let sample = M::sample(alloc, number)?;
    let message = through(alloc, M::sample(alloc, number)?)?;
    Some(message.is(&sample))
}

/// The number of the first of so many messages that does not come through its lane as it was sent.
fn first_lost<M: Sampled>(alloc: Global, count: usize) -> Option<usize> {
    for number in 0..count {
        if comes_through::<M>(alloc, number) != Some(true) {
            return Some(number);
        }
    }
    None
}

#[test]
fn messages_come_through_each_lane(rt: HostRuntime) {
    let alloc = rt.alloc();
    none_wrong(&rt, first_lost::<MainMsg>(alloc, 4));
    none_wrong(&rt, first_lost::<BackMsg>(alloc, 4));
    none_wrong(&rt, first_lost::<UpMsg>(alloc, 7));
}

/// Whether an entry is ready to be sent, where one before it was dropped.
fn stages<O: Out<Entry>>(out: &mut O) -> bool
    requires room { 0 < O.room out.old }
    requires empty { O.staged out.old ≡ [] }
{
    if out.stage(entry(404)).is_err() {
        return false;
    }
    out.drop_staged();
    out.stage(entry(200)).is_ok()
}

/// The code of the entry that comes out. It is on the lane only once it was sent.
fn taken_code(out: &mut EntryOut, taker: &mut TakeEnd<Entry, AnyEntry>) -> Option<u16> {
    if taker.take().is_some() {
        return None;
    }
    out.send_staged();
    let entry = taker.take();
    code_of(entry.as_ref())
}

/// The code of the entry that comes out, where the one that was dropped does not.
fn shown(alloc: Global) -> Option<u16> {
    let (sender, mut taker) = lane::<Entry, AnyEntry>(alloc, 1).ok()?;
    let mut out = EntryOut::new(alloc, sender);
    if !stages(&mut out) {
        return None;
    }
    taken_code(&mut out, &mut taker)
}

#[test]
fn an_entry_is_shown_once_it_is_sent(rt: HostRuntime) {
    right(&rt, shown(rt.alloc()) == Some(200));
}

// Streams of frames, in whatever pieces they come.

use crate::rows::{Row, all_right, bytes, none_wrong};
use crate::sample::{NO_HEADERS, ONE_HEADER, Sample};
use crate::wire::is_sample;
use nk_base::{Status, UpMsg};
use nk_wire::FrameCause::{self, Cut, Decode, Length};
use nk_wire::{AnyMsg, DecodeError, FrameError, Frames};
use std::alloc::Global;

/// The bytes before a frame, and what is wrong with it; `None` where nothing is.
pub type Fault = Option<(u64, FrameCause)>;

/// A stream's bytes, how many messages it gives, and what it ends with.
type Stream = (&'static str, usize, Fault);

/// What becomes of a stream.
#[derive(Clone, Copy)]
enum Call {
    /// It is fed these bytes.
    Feed(&'static str),
    /// It gives this message next.
    Gives(Sample),
    /// It gives none, and ends with this.
    Ends(Fault),
    /// So many bytes of it were given.
    IsAt(u64),
}

// What the stream gives next.
fn next(frames: &mut Frames) -> Option<AnyMsg> {
    if frames.offset() > 1_000_000_000 {
        return None;
    }
    frames.next().ok()?
}

fn fault(end: Result<(), FrameError>) -> Fault {
    match end {
        Ok(()) => None,
        Err(FrameError { offset, cause }) => Some((offset, cause)),
    }
}

// What a stream ends with that gives no message next; `None` where it gives one.
fn end(frames: &mut Frames) -> Option<Fault> {
    if frames.offset() > 1_000_000_000 {
        return None;
    }
    match frames.next() {
        Ok(Some(_)) => None,
        Ok(None) => Some(fault(frames.end())),
        Err(FrameError { offset, cause }) => Some(Some((offset, cause))),
    }
}

// Whether the bytes are fed.
fn feeds(alloc: Global, frames: &mut Frames, pairs: &str) -> bool {
    match bytes(alloc, pairs) {
        Some(bytes) => frames.feed(&bytes).is_ok(),
        None => false,
    }
}

// Whether the stream gives the sample's message next.
fn gives(alloc: Global, frames: &mut Frames, sample: &Sample) -> bool {
    match next(frames) {
        Some(m) => is_sample(alloc, &m, sample),
        None => false,
    }
}

// Whether the call is answered so.
fn answers(alloc: Global, frames: &mut Frames, call: &Call) -> bool {
    match call {
        Call::Feed(pairs) => feeds(alloc, frames, pairs),
        Call::Gives(sample) => gives(alloc, frames, sample),
        Call::Ends(fault) => end(frames) == Some(*fault),
        Call::IsAt(offset) => frames.offset() == *offset,
    }
}

// The number of the first call that is answered otherwise.
fn first_wrong(alloc: Global, calls: &[Call]) -> Option<usize> {
    let mut frames = Frames::new(alloc);
    let mut number: usize = 0;
    for call in calls {
        if !answers(alloc, &mut frames, call) {
            return Some(number);
        }
        number = number.wrapping_add(1);
    }
    None
}

// How many messages the stream gives, 9 at most.
fn count(frames: &mut Frames) -> usize {
    let mut number: usize = 0;
    for _ in 0..9 {
        if next(frames).is_none() {
            return number;
        }
        number = number.wrapping_add(1);
    }
    number
}

// How many messages the stream gives while it is fed these bytes, in pieces of this size.
fn fed(frames: &mut Frames, bytes: &[u8], size: usize) -> Option<usize> {
    if size == 0 {
        return None;
    }
    let mut number: usize = 0;
    for piece in bytes.chunks(size) {
        frames.feed(piece).ok()?;
        number = number.wrapping_add(count(frames));
    }
    Some(number)
}

/// Whether a stream of these bytes gives so many messages and ends with this, in pieces of this size.
pub fn is_told(alloc: Global, bytes: &[u8], size: usize, number: usize, fault: Fault) -> bool {
    let mut frames = Frames::new(alloc);
    fed(&mut frames, bytes, size) == Some(number) && end(&mut frames) == Some(fault)
}

// The same in pieces of 1, 7 and 100 bytes.
fn is_told_anyhow(alloc: Global, bytes: &[u8], number: usize, fault: Fault) -> bool {
    is_told(alloc, bytes, 1, number, fault)
        && is_told(alloc, bytes, 7, number, fault)
        && is_told(alloc, bytes, 100, number, fault)
}

impl Row for Stream {
    fn is_right(&self, alloc: Global) -> bool {
        match bytes(alloc, self.0) {
            Some(bytes) => is_told_anyhow(alloc, &bytes, self.1, self.2),
            None => false,
        }
    }
}

const CANCEL_AND_STOP: &str = "05000000 24 02004b80 09000000 13 00000000 00000000";

const HELLO_AND_VERIFY: &str = "1a000000 12 00000000 00000000 0000000000000000 05000000 68656c6c6f \
    09000000 25 00000000 02004b80";

const TRAILERS: &str = "12000000 f2 13 00000000 00000000 0100 0100 78 0100 79";

const WORKED: &[Stream] = &[
    ("", 0, None),
    (CANCEL_AND_STOP, 2, None),
    (HELLO_AND_VERIFY, 2, None),
    (TRAILERS, 1, None),
];

#[test]
fn worked_frames_are_told_in_any_pieces(rt: HostRuntime) {
    all_right(&rt, rt.alloc(), WORKED);
}

const CUT: &[Stream] = &[
    ("09000000 13 00", 0, Some((0, Cut { have: 6, need: 13 }))),
    ("12000000 f213", 0, Some((0, Cut { have: 6, need: 22 }))),
    ("00000000", 0, Some((0, Length(0)))),
    ("0e110800", 0, Some((0, Length(528_654)))),
    (
        "0d110800",
        0,
        Some((
            0,
            Cut {
                have: 4,
                need: 528_657,
            },
        )),
    ),
    ("ffffffff", 0, Some((0, Length(4_294_967_295)))),
    ("00000000 01000000 21", 0, Some((0, Length(0)))),
    ("09", 0, Some((0, Cut { have: 1, need: 4 }))),
    ("000000", 0, Some((0, Cut { have: 3, need: 4 }))),
    (
        "05000000 24 02004b80 09000000",
        1,
        Some((9, Cut { have: 4, need: 13 })),
    ),
    (
        "05000000 24 02004b80 00",
        1,
        Some((9, Cut { have: 1, need: 4 })),
    ),
    ("05000000 24 02004b80 00000000", 1, Some((9, Length(0)))),
];

#[test]
fn frames_that_are_cut_or_have_no_length(rt: HostRuntime) {
    all_right(&rt, rt.alloc(), CUT);
}

const NO_MESSAGE: &[Stream] = &[
    (
        "0a000000 13 00000000 00000000 ff",
        0,
        Some((0, Decode(DecodeError::Long { extra: 1 }))),
    ),
    ("01000000 99", 0, Some((0, Decode(DecodeError::Kind(0x99))))),
    (
        "02000000 f212",
        0,
        Some((0, Decode(DecodeError::Kind(0x12)))),
    ),
    (
        "01000000 f2",
        0,
        Some((0, Decode(DecodeError::Short { have: 1, need: 2 }))),
    ),
    (
        "01000000 00 01000000 21",
        0,
        Some((0, Decode(DecodeError::Kind(0)))),
    ),
    (
        "05000000 04 20000000",
        0,
        Some((0, Decode(DecodeError::BadField(1)))),
    ),
    (
        "01000000 21 05000000 24 00000000",
        1,
        Some((5, Decode(DecodeError::BadField(1)))),
    ),
    (
        "01000000 21 01000000 22 02000000 2727",
        2,
        Some((10, Decode(DecodeError::Long { extra: 1 }))),
    ),
];

#[test]
fn frames_whose_rest_is_no_message(rt: HostRuntime) {
    all_right(&rt, rt.alloc(), NO_MESSAGE);
}

const ABORTED: Status = Status::BINDING_ABORTED;

const GIVEN: &[Call] = &[
    Call::IsAt(0),
    Call::Ends(None),
    Call::Feed(CANCEL_AND_STOP),
    Call::IsAt(0),
    Call::Gives(Sample::Up(UpMsg::Cancel { status: ABORTED })),
    Call::IsAt(9),
    Call::Feed(HELLO_AND_VERIFY),
    Call::Gives(Sample::Stop(0, Status::OK, NO_HEADERS)),
    Call::IsAt(22),
    Call::Gives(Sample::Bytes(0, Status::OK, 0, (b"hello", 1))),
    Call::IsAt(52),
    Call::Gives(Sample::Up(UpMsg::Verify {
        hop: 0,
        status: ABORTED,
    })),
    Call::IsAt(65),
    Call::Ends(None),
    Call::Feed(""),
    Call::Ends(None),
    Call::IsAt(65),
];

#[test]
fn messages_are_those_of_their_frames(rt: HostRuntime) {
    none_wrong(&rt, first_wrong(rt.alloc(), GIVEN));
}

const LENGTH_STAYS: &[Call] = &[
    Call::Feed("12000000 f213"),
    Call::Ends(Some((0, Cut { have: 6, need: 22 }))),
    Call::Ends(Some((0, Cut { have: 6, need: 22 }))),
    Call::Feed("00000000 00000000 0100 0100 78 0100 79"),
    Call::Gives(Sample::Stop(0, Status::OK, ONE_HEADER)),
    Call::IsAt(22),
    Call::Feed("00000000"),
    Call::Ends(Some((22, Length(0)))),
    Call::Feed(TRAILERS),
    Call::Ends(Some((22, Length(0)))),
    Call::IsAt(22),
];

const KIND_STAYS: &[Call] = &[
    Call::Feed("01000000 27 01000000 99"),
    Call::Gives(Sample::Up(UpMsg::Deleting)),
    Call::Ends(Some((5, Decode(DecodeError::Kind(0x99))))),
    Call::Feed("01000000 27"),
    Call::Ends(Some((5, Decode(DecodeError::Kind(0x99))))),
    Call::IsAt(5),
];

#[test]
fn an_error_stays_and_a_cut_does_not(rt: HostRuntime) {
    let first = first_wrong(rt.alloc(), LENGTH_STAYS);
    none_wrong(&rt, first.or(first_wrong(rt.alloc(), KIND_STAYS)));
}

// The bytes of messages: how each is spelled, and that its spelling is read as it.

ghost use Rattle.std.specs.Prelude.{IsTrue};
ghost use Rattle.nk_base.specs.Ranges.{IsMainInRange, IsBackInRange, IsUpInRange};

use crate::rows::{Row, all_right, bytes};
use crate::sample::{Headers, NO_HEADERS, ONE_HEADER, Sample, TRAILER, message};
use nk_base::{BackMsg, MainMsg, Memory, Status, UpMsg};
use nk_wire::{
    AnyMsg, DecodeError, Frame, decode_any, decode_back, decode_main, decode_up, encode_back,
    encode_main, encode_up,
};
use std::alloc::Global;

/// The decoder of a lane, or of all three.
#[derive(Clone, Copy)]
pub enum Lane {
    Main,
    Back,
    Up,
    Any,
}

/// A message, and the bytes of its frame.
type Spelled = (Sample, &'static str);

// The most bytes of a frame's rest.
const MOST: usize = 528_653;

fn is_main_in_range(m: &MainMsg) -> bool
    ensures { IsTrue result → IsMainInRange m.now }
{
    match m {
        MainMsg::Start { hop, status, head } => {
            let is_head = 100 <= head.code && head.code <= 999 && head.fields.len() <= 64;
            is_head && head.fields.are_good() && *hop < 32 && status.is_legal()
        }
        MainMsg::FailedOpen { hop, status } => *hop < 32 && status.is_failure(),
        MainMsg::Redirect1 { hop, code } => *hop < 32 && 300 <= *code && *code <= 399,
        MainMsg::Redirect3 { hop } => *hop < 32,
    }
}

fn is_back_in_range(m: &BackMsg) -> bool
    ensures { IsTrue result → IsBackInRange m.now }
{
    match m {
        BackMsg::Start { hop, status, head } => {
            let is_head = 100 <= head.code && head.code <= 999 && head.fields.len() <= 64;
            is_head && head.fields.are_good() && *hop < 32 && status.is_legal()
        }
        BackMsg::StartSent { hop } => *hop < 32,
        BackMsg::Bytes {
            hop,
            status,
            piece,
            ..
        } => {
            let size = piece.size();
            1 <= size && size <= 131_072 && *hop < 32 && status.is_legal()
        }
        BackMsg::Stop {
            hop,
            status,
            trailers,
        } => {
            let is_small = *hop < 32 && trailers.len() <= 64;
            let is_good = status.is_legal() && trailers.are_good();
            is_small && is_good && (status.0 == 0 || trailers.len() == 0)
        }
    }
}

fn is_up_in_range(m: &UpMsg) -> bool
    ensures { IsTrue result → IsUpInRange m.now }
{
    match m {
        UpMsg::Open | UpMsg::Suspend | UpMsg::Resume | UpMsg::Deleting => true,
        UpMsg::Cancel { status } => status.is_failure(),
        UpMsg::Verify { hop, status } => *hop < 32 && status.is_legal(),
        UpMsg::BytesRead { count } => 1 <= *count && *count <= 131_072,
    }
}

fn encode(alloc: Global, m: &AnyMsg) -> Result<Frame, Memory> {
    match m {
        AnyMsg::Main(m) if is_main_in_range(m) => encode_main(alloc, m),
        AnyMsg::Back(m) if is_back_in_range(m) => encode_back(alloc, m),
        AnyMsg::Up(m) if is_up_in_range(m) => encode_up(alloc, m),
        _ => Err(Memory),
    }
}

/// The frame of the sample; `Memory` also where it is out of range.
pub fn frame(alloc: Global, sample: &Sample) -> Result<Frame, Memory> {
    match message(alloc, sample) {
        Ok(m) => encode(alloc, &m),
        Err(Memory) => Err(Memory),
    }
}

/// The lane of the sample.
pub fn lane_of(sample: &Sample) -> Lane {
    match sample {
        Sample::Start(..) | Sample::FailedOpen(..) => Lane::Main,
        Sample::Redirect1(..) | Sample::Redirect3(..) => Lane::Main,
        Sample::BackStart(..) | Sample::StartSent(..) => Lane::Back,
        Sample::Bytes(..) | Sample::Stop(..) => Lane::Back,
        Sample::Up(..) => Lane::Up,
    }
}

// What a decoder reads.
fn decode(alloc: Global, lane: Lane, rest: &[u8]) -> Result<AnyMsg, DecodeError> {
    if rest.len() > MOST {
        return Err(DecodeError::Memory);
    }
    match lane {
        Lane::Main => Ok(AnyMsg::Main(decode_main(alloc, rest)?)),
        Lane::Back => Ok(AnyMsg::Back(decode_back(alloc, rest)?)),
        Lane::Up => Ok(AnyMsg::Up(decode_up(rest)?)),
        Lane::Any => decode_any(alloc, rest),
    }
}

/// Why a decoder refuses a rest; `None` where it reads it.
pub fn refusal(alloc: Global, lane: Lane, rest: &[u8]) -> Option<DecodeError> {
    decode(alloc, lane, rest).err()
}

fn same(a: &AnyMsg, b: &AnyMsg) -> bool {
    match (a, b) {
        (AnyMsg::Main(a), AnyMsg::Main(b)) => a.same(b),
        (AnyMsg::Back(a), AnyMsg::Back(b)) => a.same(b),
        (AnyMsg::Up(a), AnyMsg::Up(b)) => a.same(b),
        _ => false,
    }
}

/// Whether the sample stands for this message.
pub fn is_sample(alloc: Global, m: &AnyMsg, sample: &Sample) -> bool {
    match message(alloc, sample) {
        Ok(expected) => same(m, &expected),
        Err(Memory) => false,
    }
}

// Whether the decoder reads the sample's message.
fn reads(alloc: Global, lane: Lane, rest: &[u8], sample: &Sample) -> bool {
    match decode(alloc, lane, rest) {
        Ok(m) => is_sample(alloc, &m, sample),
        Err(_) => false,
    }
}

// Whether that is the sample's frame.
fn is_frame(alloc: Global, sample: &Sample, bytes: &[u8]) -> bool {
    match frame(alloc, sample) {
        Ok(frame) => frame.as_slice() == bytes,
        Err(Memory) => false,
    }
}

// Whether the sample is spelled so, and read so by its own decoder and by the one of all lanes.
fn is_spelling(alloc: Global, sample: &Sample, bytes: &[u8]) -> bool {
    let Some(rest) = bytes.get(4..) else {
        return false;
    };
    is_frame(alloc, sample, bytes)
        && reads(alloc, lane_of(sample), rest, sample)
        && reads(alloc, Lane::Any, rest, sample)
}

fn is_spelled(alloc: Global, sample: &Sample, pairs: &str) -> bool {
    match bytes(alloc, pairs) {
        Some(bytes) => is_spelling(alloc, sample, &bytes),
        None => false,
    }
}

impl Row for Spelled {
    fn is_right(&self, alloc: Global) -> bool {
        is_spelled(alloc, &self.0, self.1)
    }
}

const OK: Status = Status::OK;

const ABORTED: Status = Status::BINDING_ABORTED;

const TWO: Headers = Headers(2, (b"x", 1), (b"y z", 1));

const SPELLED: &[Spelled] = &[
    (
        Sample::Start(3, OK, 200, ONE_HEADER),
        "13000000 01 03000000 00000000 c800 0100 0100 78 0100 79",
    ),
    (
        Sample::Start(31, ABORTED, 999, NO_HEADERS),
        "0d000000 01 1f000000 02004b80 e703 0000",
    ),
    (
        Sample::Start(0, OK, 100, TWO),
        "1d000000 01 00000000 00000000 6400 0200 0100 78 0300 79207a 0100 78 0300 79207a",
    ),
    (
        Sample::FailedOpen(0, Status::CONNECTION_REFUSED),
        "09000000 02 00000000 0d004b80",
    ),
    (Sample::Redirect1(7, 302), "07000000 03 07000000 2e01"),
    (Sample::Redirect1(0, 399), "07000000 03 00000000 8f01"),
    (Sample::Redirect3(31), "05000000 04 1f000000"),
    (Sample::StartSent(0), "05000000 11 00000000"),
    (
        Sample::Bytes(0, OK, 0, (b"hello", 1)),
        "1a000000 12 00000000 00000000 0000000000000000 05000000 68656c6c6f",
    ),
    (
        Sample::Bytes(2, Status::FAILURE, 0x0102_0304_0506_0708, (b"\0\xff", 1)),
        "17000000 12 02000000 05400080 0807060504030201 02000000 00ff",
    ),
    (
        Sample::Bytes(31, OK, u64::MAX, (b"a", 2)),
        "17000000 12 1f000000 00000000 ffffffffffffffff 02000000 6161",
    ),
    (
        Sample::BackStart(1, Status::NET_RESET, 404, TRAILER),
        "18000000 14 01000000 14004b80 9401 0100 0500 782d73756d 0200 3137",
    ),
    (
        Sample::Stop(0, OK, NO_HEADERS),
        "09000000 13 00000000 00000000",
    ),
    (
        Sample::Stop(5, Status::FAILURE, NO_HEADERS),
        "09000000 13 05000000 05400080",
    ),
    (
        Sample::Stop(0, OK, ONE_HEADER),
        "12000000 f2 13 00000000 00000000 0100 0100 78 0100 79",
    ),
    (
        Sample::Stop(31, OK, TRAILER),
        "17000000 f2 13 1f000000 00000000 0100 0500 782d73756d 0200 3137",
    ),
    (Sample::Up(UpMsg::Open), "01000000 21"),
    (Sample::Up(UpMsg::Suspend), "01000000 22"),
    (Sample::Up(UpMsg::Resume), "01000000 23"),
    (
        Sample::Up(UpMsg::Cancel { status: ABORTED }),
        "05000000 24 02004b80",
    ),
    (
        Sample::Up(UpMsg::Verify {
            hop: 0,
            status: ABORTED,
        }),
        "09000000 25 00000000 02004b80",
    ),
    (
        Sample::Up(UpMsg::Verify {
            hop: 31,
            status: OK,
        }),
        "09000000 25 1f000000 00000000",
    ),
    (
        Sample::Up(UpMsg::BytesRead { count: 1 }),
        "05000000 26 01000000",
    ),
    (
        Sample::Up(UpMsg::BytesRead { count: 131_072 }),
        "05000000 26 00000200",
    ),
    (Sample::Up(UpMsg::Deleting), "01000000 27"),
];

#[test]
fn each_message_has_its_spelling(rt: HostRuntime) {
    all_right(&rt, rt.alloc(), SPELLED);
}

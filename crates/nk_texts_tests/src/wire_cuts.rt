// Frames that are cut after each of their bytes, and frames as large as they may be.

use crate::rows::{Row, all_right};
use crate::sample::{Headers, NO_HEADERS, ONE_HEADER, Sample};
use crate::wire::{Lane, frame, lane_of, refusal};
use crate::wire_frames::is_told;
use nk_base::{Memory, Status, UpMsg};
use nk_wire::{DecodeError, FrameCause};
use std::alloc::Global;

/// A message, and the places of its frame's rest at which its fields end.
type Cut = (Sample, &'static [u32]);

/// A message, and the size of its frame.
type Size = (Sample, usize);

// Whether so many of a frame's first bytes are told as a frame that is cut.
fn is_cut_at(alloc: Global, frame: &[u8], have: u32, size: u32) -> bool {
    let need = if have < 4 { 4 } else { size };
    let fault = Some((0, FrameCause::Cut { have, need }));
    match frame.get(..have as usize) {
        Some(part) => is_told(alloc, part, 7, 0, fault),
        None => false,
    }
}

// Whether a frame of this size is cut, however many of its first bytes there are, and told whole.
fn is_cut_anywhere(alloc: Global, frame: &[u8], size: u32) -> bool {
    for have in 1..size {
        if !is_cut_at(alloc, frame, have, size) {
            return false;
        }
    }
    is_told(alloc, frame, 7, 1, None)
}

// What a rest of so many bytes is short of: the first field that ends behind them.
fn short(have: u32, ends: &[u32]) -> Option<DecodeError> {
    for end in ends {
        if have < *end {
            return Some(DecodeError::Short { have, need: *end });
        }
    }
    None
}

// Whether so many of a rest's first bytes are short of this field, or of none.
fn is_short_at(alloc: Global, lane: Lane, rest: &[u8], have: u32, ends: &[u32]) -> bool {
    let error = short(have, ends);
    match rest.get(..have as usize) {
        Some(part) => refusal(alloc, lane, part) == error
            && refusal(alloc, Lane::Any, part) == error,
        None => false,
    }
}

// Whether a rest of this size is short of a field, however many of its first bytes there are, and whole of none.
fn is_short_anywhere(alloc: Global, lane: Lane, rest: &[u8], size: u32, ends: &[u32]) -> bool {
    for have in 0..=size {
        if !is_short_at(alloc, lane, rest, have, ends) {
            return false;
        }
    }
    true
}

fn is_right(alloc: Global, lane: Lane, frame: &[u8], ends: &[u32]) -> bool {
    match (u32::try_from(frame.len()), frame.get(4..)) {
        (Ok(size), Some(rest)) => is_cut_anywhere(alloc, frame, size)
            && is_short_anywhere(alloc, lane, rest, size.saturating_sub(4), ends)
            && is_told(alloc, &[], 7, 0, None),
        _ => false,
    }
}

// Whether the sample's frame is cut, and its rest short, wherever it is cut.
fn is_short_wherever_cut(alloc: Global, sample: &Sample, ends: &[u32]) -> bool {
    match frame(alloc, sample) {
        Ok(frame) => is_right(alloc, lane_of(sample), frame.as_slice(), ends),
        Err(Memory) => false,
    }
}

impl Row for Cut {
    fn is_right(&self, alloc: Global) -> bool {
        is_short_wherever_cut(alloc, &self.0, self.1)
    }
}

fn is_told_whole(alloc: Global, frame: &[u8], size: usize) -> bool {
    frame.len() == size && is_told(alloc, frame, 262_144, 1, None)
}

// Whether the sample's frame has so many bytes, and is told as the one frame of a stream.
fn has_size(alloc: Global, sample: &Sample, size: usize) -> bool {
    match frame(alloc, sample) {
        Ok(frame) => is_told_whole(alloc, frame.as_slice(), size),
        Err(Memory) => false,
    }
}

impl Row for Size {
    fn is_right(&self, alloc: Global) -> bool {
        has_size(alloc, &self.0, self.1)
    }
}

const OK: Status = Status::OK;

const RESET: Status = Status::NET_RESET;

const TWO: Headers = Headers(2, (b"x", 1), (b"y", 1));

const MAIN: &[Cut] = &[
    (
        Sample::Start(3, OK, 200, ONE_HEADER),
        &[1, 5, 9, 11, 13, 15, 16, 18, 19],
    ),
    (Sample::FailedOpen(3, RESET), &[1, 5, 9]),
    (Sample::Redirect1(3, 302), &[1, 5, 7]),
    (Sample::Redirect3(3), &[1, 5]),
    (Sample::Start(3, OK, 200, NO_HEADERS), &[1, 5, 9, 11, 13]),
    (
        Sample::Start(3, OK, 200, TWO),
        &[1, 5, 9, 11, 13, 15, 16, 18, 19, 21, 22, 24, 25],
    ),
];

#[test]
fn each_frame_of_the_main_lane_is_short_wherever_it_is_cut(rt: HostRuntime) {
    all_right(&rt, rt.alloc(), MAIN);
}

const BACK: &[Cut] = &[
    (Sample::StartSent(3), &[1, 5]),
    (Sample::Bytes(3, OK, 7, (b"abc", 1)), &[1, 5, 9, 17, 21, 24]),
    (
        Sample::BackStart(3, OK, 200, ONE_HEADER),
        &[1, 5, 9, 11, 13, 15, 16, 18, 19],
    ),
    (Sample::Stop(3, OK, NO_HEADERS), &[1, 5, 9]),
    (
        Sample::Stop(3, OK, ONE_HEADER),
        &[1, 2, 6, 10, 12, 14, 15, 17, 18],
    ),
    (
        Sample::Stop(3, OK, TWO),
        &[1, 2, 6, 10, 12, 14, 15, 17, 18, 20, 21, 23, 24],
    ),
];

#[test]
fn each_frame_of_the_background_lane_is_short_wherever_it_is_cut(rt: HostRuntime) {
    all_right(&rt, rt.alloc(), BACK);
}

const UP: &[Cut] = &[
    (Sample::Up(UpMsg::Open), &[1]),
    (Sample::Up(UpMsg::Suspend), &[1]),
    (Sample::Up(UpMsg::Resume), &[1]),
    (Sample::Up(UpMsg::Deleting), &[1]),
    (Sample::Up(UpMsg::Cancel { status: RESET }), &[1, 5]),
    (
        Sample::Up(UpMsg::Verify {
            hop: 3,
            status: RESET,
        }),
        &[1, 5, 9],
    ),
    (Sample::Up(UpMsg::BytesRead { count: 5 }), &[1, 5]),
];

#[test]
fn each_frame_of_the_up_lane_is_short_wherever_it_is_cut(rt: HostRuntime) {
    all_right(&rt, rt.alloc(), UP);
}

const MOST: Headers = Headers(64, (b"x", 64), (b"y", 8192));

const LARGEST: &[Size] = &[
    (Sample::Start(31, OK, 999, MOST), 528_657),
    (Sample::Stop(31, OK, MOST), 528_656),
    (Sample::Bytes(31, OK, u64::MAX, (b"z", 131_072)), 131_097),
];

#[test]
fn the_largest_frames_are_told_whole(rt: HostRuntime) {
    all_right(&rt, rt.alloc(), LARGEST);
}

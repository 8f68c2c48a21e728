//! What `frames` prints of the frames of its input, also where its source gives one byte at a time, or its source or its
//! sink fails on the way.

use crate::run_driver::{Answer, Streams, answers, answers_over};
use std::alloc::Global;
use std::test::Fail;

/// A cancel, and a stop.
const TWO_FRAMES: &[u8] = b"\x05\0\0\0\x24\x02\0\x4b\x80\x09\0\0\0\x13\0\0\0\0\0\0\0\0";

const TWO_LINES: &[u8] = b"0 cancel 804b0002\n9 stop 0 00000000\n";

/// A stop with a trailer.
const TRAILER: &[u8] = b"\x12\0\0\0\xf2\x13\0\0\0\0\0\0\0\0\x01\0\x01\0x\x01\0y";

/// The bytes of an input, the status, what is printed and what is told.
type Row = (&'static [u8], u8, &'static [u8], &'static [u8]);

/// Lists the frames of each of these inputs, and compares what is answered.
fn lists(alloc: Global, rows: &[Row]) -> Result<(), Fail> {
    for &(bytes, status, printed, told) in rows {
        let input = bytes.to_vec(alloc)?;
        answers(alloc, &["frames"], input, (status, printed, told))?;
    }
    Ok(())
}

#[test]
fn each_frame_has_a_line(rt: HostRuntime) -> Result<(), Fail> {
    const ROWS: &[Row] = &[
        (b"", 0, b"", b""),
        (TWO_FRAMES, 0, TWO_LINES, b""),
        (
            b"\x1a\0\0\0\x12\0\0\0\0\0\0\0\0\0\0\0\0\0\0\0\0\x05\0\0\0hello\
              \x09\0\0\0\x25\0\0\0\0\x02\0\x4b\x80",
            0,
            b"0 bytes 0 00000000 0 5\n30 verify 0 804b0002\n",
            b"",
        ),
        (TRAILER, 0, b"0 stop 0 00000000 1\n", b""),
    ];
    lists(rt.alloc(), ROWS)
}

#[test]
fn the_first_frame_that_is_wrong_is_named(rt: HostRuntime) -> Result<(), Fail> {
    const ROWS: &[Row] = &[
        (b"\0\0\0\0", 7, b"", b"error: frame 0: length 0\n"),
        (b"\x01\0\0\0\x99", 7, b"", b"error: frame 0: kind 99\n"),
        (
            b"\x0a\0\0\0\x13\0\0\0\0\0\0\0\0\xff",
            7,
            b"",
            b"error: frame 0: long 1\n",
        ),
        (b"\x02\0\0\0\xf2\x12", 7, b"", b"error: frame 0: kind 12\n"),
        (b"\x01\0\0\0\xf2", 7, b"", b"error: frame 0: short 1 2\n"),
        (
            b"\x01\0\0\0\x21\x05\0\0\0\x04\x20\0\0\0",
            7,
            b"",
            b"error: frame 5: field 1\n",
        ),
    ];
    lists(rt.alloc(), ROWS)
}

#[test]
fn a_frame_that_is_cut_is_named(rt: HostRuntime) -> Result<(), Fail> {
    const ROWS: &[Row] = &[
        (b"\x09\0\0\0\x13\0", 7, b"", b"error: frame 0: cut 6 13\n"),
        (
            b"\x05\0\0\0\x24\x02\0\x4b\x80\x09\0\0\0\x13\0",
            7,
            b"",
            b"error: frame 9: cut 6 13\n",
        ),
        (
            b"\x05\0\0\0\x24\x02\0\x4b\x80\x09\0",
            7,
            b"",
            b"error: frame 9: cut 2 4\n",
        ),
        (b"\x12\0\0\0\xf2\x13", 7, b"", b"error: frame 0: cut 6 22\n"),
    ];
    lists(rt.alloc(), ROWS)
}

/// Lists the two frames over such streams, and compares what is answered.
fn lists_over(alloc: Global, streams: Streams<'_>, answer: Answer<'_>) -> Result<(), Fail> {
    answers_over(
        alloc,
        streams,
        &["frames"],
        TWO_FRAMES.to_vec(alloc)?,
        answer,
    )
}

#[test]
fn a_source_may_give_one_byte_at_a_time(rt: HostRuntime) -> Result<(), Fail> {
    let streams = Streams {
        given: 1,
        taken: 8,
        source_fails: &[],
        sink_fails: &[],
    };
    lists_over(rt.alloc(), streams, (0, TWO_LINES, b""))
}

#[test]
fn a_source_that_fails_leaves_the_output_empty(rt: HostRuntime) -> Result<(), Fail> {
    let streams = Streams {
        given: 8,
        taken: 8,
        source_fails: &[2],
        sink_fails: &[],
    };
    lists_over(rt.alloc(), streams, (3, b"", b"error: read\n"))
}

#[test]
fn a_sink_that_fails_keeps_what_it_got(rt: HostRuntime) -> Result<(), Fail> {
    let streams = Streams {
        given: 64,
        taken: 8,
        source_fails: &[],
        sink_fails: &[2],
    };
    lists_over(rt.alloc(), streams, (4, b"0 cancel", b"error: write\n"))
}

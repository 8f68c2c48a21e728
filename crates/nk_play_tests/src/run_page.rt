//! A page as a browser loads it: a redirect, a head of six fields, and a body in 40 pieces, which are shown on a worker and
//! read by two readers of a pipe.

use crate::run_driver::answers;
use crate::scripts::joined;
use itoa::Buffer;
use std::alloc::Global;
use std::test::Fail;

const PIECES: usize = 40;

/// The pieces of a page: the line of a script that makes one, and its size.
#[derive(Clone, Copy, Drop)]
pub(crate) struct Piece {
    line: &'static [u8],
    size: usize,
}

/// A page of 1,310,720 bytes.
pub(crate) const WHOLE: Piece = Piece {
    line: b"fill 2e 32768\n",
    size: 32_768,
};

/// The same page with short pieces.
pub(crate) const SMALL: Piece = Piece {
    line: b"fill 2e 32\n",
    size: 32,
};

/// The script of a page.
pub(crate) fn page(alloc: Global, piece: Piece) -> Result<Vec<u8>, Fail> {
    let pieces = piece.line.repeat(alloc, PIECES)?;
    joined(
        alloc,
        &[
            b"script 1\n\
              channel\n\
              hop redirect 301 allow\n\
              hop response 200\n\
              field content-type text/html; charset=utf-8\n\
              field content-length 1310720\n\
              field cache-control max-age=600\n\
              field date Tue, 09 Jul 2019 10:00:00 GMT\n\
              field server example\n\
              field vary accept-encoding\n",
            &pieces,
            b"end ok\n\
              listener pipe 4096 16 2\n\
              at start retarget w1\n",
        ],
    )
}

/// The line that is printed of a piece, between what stands before its number and behind it.
fn line(alloc: Global, before: &[u8], number: usize, behind: &[u8]) -> Result<Vec<u8>, Fail> {
    let mut digits = Buffer::new();
    let number = digits.format(number).as_bytes();
    joined(alloc, &[before, number, b" ", behind])
}

/// The lines that are printed of the pieces.
fn lines_of_pieces(alloc: Global, size: usize) -> Result<Vec<u8>, Fail> {
    let bytes = b"2e".repeat(alloc, size)?;
    let mut lines = Vec::new(alloc);
    for index in 0..PIECES {
        let offset = index.wrapping_mul(size);
        lines.extend_from_slice(&line(alloc, b"data ", offset, &bytes)?)?;
        lines.extend_from_slice(b"\n")?;
    }
    Ok(lines)
}

/// The lines that are printed of the readers.
fn lines_of_readers(alloc: Global, size: usize) -> Result<Vec<u8>, Fail> {
    let count = PIECES.wrapping_mul(size);
    let bytes = b"2e".repeat(alloc, count)?;
    let read = line(alloc, b"", count, &bytes)?;
    let stop: &[u8] = b" 00000000\n";
    joined(
        alloc,
        &[b"reader 1 ", &read, stop, b"reader 2 ", &read, stop],
    )
}

/// The report of a page.
pub(crate) fn report_of_page(alloc: Global, piece: Piece) -> Result<Vec<u8>, Fail> {
    let pieces = lines_of_pieces(alloc, piece.size)?;
    let readers = lines_of_readers(alloc, piece.size)?;
    joined(
        alloc,
        &[
            b"channel 1\nstart 200 00000000\n",
            &pieces,
            b"stop 00000000\n",
            &readers,
            b"end stopped\n",
        ],
    )
}

#[test]
fn a_page_is_shown_on_a_worker_and_read_by_two_readers(rt: HostRuntime) -> Result<(), Fail> {
    let alloc = rt.alloc();
    let report = report_of_page(alloc, WHOLE)?;
    answers(alloc, &["play"], page(alloc, WHOLE)?, (0, &report, b""))
}

// The source of a body: its pieces at their offsets, and then the end, again and again.

use crate::rows::none_wrong;
use nk_base::{Fields, Head, Memory, Piece, Status};
use nk_plan::{Finish, Hop, Pieces};
use nk_source::{Next, ResponseSource};
use std::alloc::Global;

/// A call of a source.
#[derive(Clone, Copy, Drop)]
enum Call {
    Next,
    Peek,
    Advance,
    Size,
}

/// What it answered. A piece has its offset and its number of bytes, which are those of the text there.
#[derive(Clone, Copy, Drop, PartialEq, Eq)]
enum Answer {
    Piece(u64, u32),
    OtherBytes,
    EndOk,
    EndFail(Status),
    Done,
    Size(Option<u32>),
    Memory,
}

const TEXT: &[u8] = b"abcdefgh";

/// Whether these are bytes of the text, from a place on.
fn are_at(bytes: &[u8], from: u64) -> bool {
    from <= 8 && TEXT[from as usize..].starts_with(bytes)
}

fn given(next: Result<Next, Memory>) -> Answer {
    match next {
        Ok(Next::Piece { offset, piece }) => {
            if are_at(piece.as_slice(), offset) {
                Answer::Piece(offset, piece.size())
            } else {
                Answer::OtherBytes
            }
        }
        Ok(Next::EndOk) => Answer::EndOk,
        Ok(Next::EndFail(status)) => Answer::EndFail(status),
        Err(_) => Answer::Memory,
    }
}

fn make(source: &mut ResponseSource, call: Call) -> Answer {
    match call {
        Call::Next => given(source.next()),
        Call::Peek => given(source.peek()),
        Call::Advance => {
            source.advance();
            Answer::Done
        }
        Call::Size => Answer::Size(source.peek_size()),
    }
}

/// The number of the first call that answers otherwise than its row says.
fn first_wrong(mut source: ResponseSource, rows: &[(Call, Answer)]) -> Option<usize> {
    for (i, row) in rows.iter().enumerate() {
        if make(&mut source, row.0) != row.1 {
            return Some(i);
        }
    }
    None
}

/// Cuts the text into pieces of these sizes.
fn cut(alloc: Global, sizes: &[usize], pieces: &mut Pieces) -> Option<()> {
    let mut rest = TEXT;
    for &size in sizes {
        if size > rest.len() {
            return None;
        }
        let piece = Piece::new(alloc, &rest[..size]).ok()?;
        pieces.push(piece).ok()?;
        rest = &rest[size..];
    }
    Some(())
}

/// A source of the text in pieces of these sizes.
fn source(alloc: Global, sizes: &[usize], finish: Finish) -> Option<ResponseSource> {
    let mut pieces = Pieces::new(alloc);
    cut(alloc, sizes, &mut pieces)?;
    if pieces.len() > 65_536 {
        return None;
    }
    let head = Head::new(200, Fields::new(alloc)).ok()?;
    let trailers = Fields::new(alloc);
    Some(ResponseSource::new(Hop::Response {
        head,
        pieces,
        finish,
        trailers,
    }))
}

/// The same for a source of the text in pieces of these sizes.
fn first_wrong_of(
    alloc: Global,
    sizes: &[usize],
    finish: Finish,
    rows: &[(Call, Answer)],
) -> Option<usize> {
    match source(alloc, sizes, finish) {
        Some(source) => first_wrong(source, rows),
        None => Some(0),
    }
}

#[test]
fn pieces_come_at_their_offsets_and_then_the_end(rt: HostRuntime) {
    const CUT: Finish = Finish::Fail(Status::NET_RESET);
    let rows = &[
        (Call::Size, Answer::Size(Some(3))),
        (Call::Next, Answer::Piece(0, 3)),
        (Call::Size, Answer::Size(Some(2))),
        (Call::Next, Answer::Piece(3, 2)),
        (Call::Size, Answer::Size(None)),
        (Call::Next, Answer::EndFail(Status::NET_RESET)),
        (Call::Next, Answer::EndFail(Status::NET_RESET)),
        (Call::Size, Answer::Size(None)),
    ];
    none_wrong(&rt, first_wrong_of(rt.alloc(), &[3, 2], CUT, rows));
}

#[test]
fn a_look_at_the_next_changes_nothing(rt: HostRuntime) {
    let rows = &[
        (Call::Peek, Answer::Piece(0, 1)),
        (Call::Peek, Answer::Piece(0, 1)),
        (Call::Advance, Answer::Done),
        (Call::Peek, Answer::Piece(1, 4)),
        (Call::Next, Answer::Piece(1, 4)),
        (Call::Advance, Answer::Done),
        (Call::Peek, Answer::EndOk),
        (Call::Advance, Answer::Done),
        (Call::Next, Answer::EndOk),
        (Call::Next, Answer::EndOk),
    ];
    none_wrong(
        &rt,
        first_wrong_of(rt.alloc(), &[1, 4, 3], Finish::Good, rows),
    );
}

#[test]
fn a_load_without_a_body_is_at_its_end(rt: HostRuntime) {
    let rows = &[
        (Call::Size, Answer::Size(None)),
        (Call::Peek, Answer::EndOk),
        (Call::Next, Answer::EndOk),
    ];
    none_wrong(&rt, first_wrong(ResponseSource::empty(rt.alloc()), rows));
    none_wrong(&rt, first_wrong_of(rt.alloc(), &[], Finish::Good, rows));
}

// The source of one response's body, which its parent reads.

ghost use Rattle.std.specs.Prelude.{◌≡◌, ◌≤◌, length, OnOk, OnErr, IfOk, slice_get};
ghost use Rattle.std.specs.Option.{option_map};
ghost use Rattle.nk_source.specs.Source.{IsResponse, source_of, no_source, next_of, end_of, stepped};

use nk_base::{Memory, Piece, Status};
use nk_plan::{Finish, Hop, Pieces};
use std::alloc::Global;
use std::marker::Model;

/// What a source gives next.
#[derive(Drop)]
pub enum Next {
    /// A piece, and the number of the body's bytes before it.
    Piece { offset: u64, piece: Piece },
    /// The body is whole.
    EndOk,
    /// The body was cut off, with this status.
    EndFail(Status),
}

/// The pieces of a response that are left, and its end. This project's own.
#[derive(Drop)]
pub struct ResponseSource {
    pieces: Pieces,
    finish: Finish,
    // The number of the next piece, and of the bytes before it.
    next: usize,
    offset: u64,
}

impl Model for ResponseSource {
    ghost use Rattle.nk_source.specs.Source.{Source, IsSource};

    ghost Value = { Source };

    ghost view = { λ s. record { pieces = s.pieces; finish = s.finish; next = s.next } };

    ghost invariant = { λ s. IsSource s.pieces s.next s.offset };
}

impl ResponseSource {
    /// The source of this hop, which is a response with at most 65,536 pieces.
    pub fn new(hop: Hop) -> ResponseSource
        requires { IsResponse hop }
        ensures { result ≡ source_of hop }
    {
        match hop {
            Hop::Response { pieces, finish, .. } => ResponseSource {
                pieces,
                finish,
                next: 0,
                offset: 0,
            },
            _ => unreachable!(),
        }
    }

    /// The source of a load that has no body: it is at its end, which is good.
    pub fn empty(alloc: Global) -> ResponseSource
        ensures { result ≡ no_source }
    {
        ResponseSource {
            pieces: Pieces::new(alloc),
            finish: Finish::Good,
            next: 0,
            offset: 0,
        }
    }

    /// Gives the next piece, over the same bytes, or the end, which it repeats.
    pub fn next(&mut self) -> Result<Next, Memory>
        ensures next { IfOk result (λ r. r ≡ next_of self.old) }
        ensures ok { OnOk result (self.new ≡ stepped self.old) }
        ensures err { OnErr result (self.new ≡ self.old) }
    {
        let next = self.peek()?;
        self.advance();
        Ok(next)
    }

    /// What `next` gives, for a caller that has more to make ready before it goes on.
    pub fn peek(&self) -> Result<Next, Memory>
        ensures { IfOk result (λ r. r ≡ next_of self.now) }
    {
        if self.next == self.pieces.len() {
            return Ok(end_of(self.finish));
        }
        let piece = self.pieces.get(self.next).share()?;
        let offset = self.offset;
        Ok(Next::Piece { offset, piece })
    }

    /// Goes on as `next` does, and gives nothing.
    pub fn advance(&mut self)
        ensures { self.new ≡ stepped self.old }
    {
        if self.next == self.pieces.len() {
            return;
        }
        self.offset += u64::from(self.pieces.get(self.next).size());
        self.next += 1;
    }

    /// The size of the next piece; none at the end.
    pub fn peek_size(&self) -> Option<u32>
        ensures { result ≡ option_map length (slice_get self.now.pieces self.now.next) }
    {
        if self.next == self.pieces.len() {
            return None;
        }
        Some(self.pieces.get(self.next).size())
    }
}

/// How a body with this finish ends.
fn end_of(finish: Finish) -> Next
    ensures { result ≡ end_of finish }
{
    match finish {
        Finish::Good => Next::EndOk,
        Finish::Fail(status) => Next::EndFail(status),
    }
}

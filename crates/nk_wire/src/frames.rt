// The frames of a stream that comes in any pieces.

ghost use Rattle.std.specs.Prelude.{◌≡◌, ◌<◌, ◌^◌, ◌+◌, length, Some, None, IfSome, IfNone, IfOk, OnOk, OnErr};
ghost use Rattle.nk_wire.specs.declared.error.FrameError.{FrameError as SpecFrameError};
ghost use Rattle.nk_wire.specs.Streams.{new_stream, fed, first, Part, IsNext, error_at, kept_after, needed, end_answer};

use crate::error::{DecodeError, FrameCause, FrameError};
use crate::look::look;
use crate::message::AnyMsg;
use nk_base::Memory;
use std::alloc::Global;
use std::marker::Model;

/// How many bytes the first frame needs, as far as is known.
fn needed(unused: &[u8]) -> u32
    requires { first unused.now ≡ Part }
    ensures { result ≡ needed unused.now }
{
    match unused {
        [a, b, c, d, ..] => 4 + u32::from_le_bytes([*a, *b, *c, *d]),
        _ => 4,
    }
}

/// A stream of frames. Its bytes may come in any pieces; each is looked at and moved a bounded number of times. This
/// project's own.
#[derive(Drop)]
pub struct Frames {
    bytes: Vec<u8>,
    // How many of these bytes belong to frames that were given.
    used: usize,
    // How many bytes all frames had that were given.
    offset: u64,
    error: Option<FrameError>,
}

impl Model for Frames {
    ghost use Rattle.std.specs.Prelude.{drop, ◌≤◌, vec_len};
    ghost use Rattle.nk_wire.specs.Streams.{Stream};

    ghost Value = { Stream };

    ghost view = { λ s. record { unused = drop s.used s.bytes.items; offset = s.offset; error = s.error } };

    ghost invariant = { λ s. s.used ≤ vec_len s.bytes };
}

impl Frames {
    /// A stream of which no byte has come.
    pub fn new(alloc: Global) -> Frames
        ensures { result ≡ new_stream }
    {
        Frames {
            bytes: Vec::new(alloc),
            used: 0,
            offset: 0,
            error: None,
        }
    }

    /// The number of bytes of the frames that were given.
    pub fn offset(&self) -> u64
        ensures { result ≡ self.now.offset }
    {
        self.offset
    }

    /// Forgets the used bytes once they are more than the others, so that each byte is moved but once for a used one.
    fn forget_used(&mut self)
        ensures { self.new ≡ self.old }
    {
        let left = self.bytes.len() - self.used;
        if left < self.used {
            self.bytes.rotate_left(self.used);
            self.bytes.truncate(left);
            self.used = 0;
        }
    }

    /// Adds a piece behind the unused bytes. Where an error stands, it changes nothing.
    pub fn feed(&mut self, piece: &[u8]) -> Result<(), Memory>
        ensures ok { OnOk result (self.new ≡ fed self.old piece.now) }
        ensures err { OnErr result (self.new ≡ self.old) }
    {
        if self.error.is_some() {
            return Ok(());
        }
        self.forget_used();
        match self.bytes.extend_from_slice(piece) {
            Ok(()) => Ok(()),
            Err(_) => Err(Memory),
        }
    }

    /// The message of the next whole frame; `None` where the unused bytes are a part frame. An error stands from then
    /// on, but for want of memory.
    pub fn next(&mut self) -> Result<Option<AnyMsg>, FrameError>
        requires { self.old.offset < 2 ^ 62 }
        ensures stands { (e : SpecFrameError) → self.old.error ≡ Some e → (result ≡ Err e) × (self.new ≡ self.old) }
        ensures next { self.old.error ≡ None → IsNext self.old (first self.old.unused) result self.new }
        // What a caller that goes on knows: after `None` only a part frame is left; no byte is lost or made.
        ensures part { IfOk result (λ found. IfNone found (first self.new.unused ≡ Part)) }
        ensures total { self.new.offset + length self.new.unused ≡ self.old.offset + length self.old.unused }
        ensures shrinks { IfOk result (λ found. IfSome found (λ m. self.old.offset < self.new.offset)) }
    {
        if let Some(error) = self.error {
            return Err(error);
        }
        match look(*self.bytes.allocator(), &self.bytes[self.used..]) {
            Ok(None) => Ok(None),
            Ok(Some((message, size))) => {
                self.used += size;
                self.offset += size as u64;
                Ok(Some(message))
            }
            Err(cause) => Err(self.fail(cause)),
        }
    }

    /// The error with this cause. It stands from now on, but for want of memory.
    fn fail(&mut self, cause: FrameCause) -> FrameError
        ensures answer { result ≡ error_at self.old cause }
        ensures stands { self.new ≡ kept_after self.old cause }
    {
        let error = FrameError {
            offset: self.offset,
            cause,
        };
        if cause != FrameCause::Decode(DecodeError::Memory) {
            self.error = Some(error);
        }
        error
    }

    /// What is wrong where the stream ends here: the error that stands, or that the unused bytes are cut.
    pub fn end(&self) -> Result<(), FrameError>
        requires { self.now.error ≡ None → first self.now.unused ≡ Part }
        ensures { result ≡ end_answer self.now self.now.error self.now.unused }
    {
        if let Some(error) = self.error {
            return Err(error);
        }
        let unused = &self.bytes[self.used..];
        if unused.is_empty() {
            return Ok(());
        }
        Err(FrameError {
            offset: self.offset,
            cause: FrameCause::Cut {
                have: unused.len() as u32,
                need: needed(unused),
            },
        })
    }
}

// One lane by itself: each of its messages as a frame, and a frame that is one's as its message.

ghost use Rattle.std.specs.Prelude.{◌≡◌, ℕ, List, Option, Some, IfOk, true, is_some};
ghost use Rattle.nk_wire.specs.declared.error.DecodeError.TheVariants.{Memory as OutOfMemory};
ghost use Rattle.nk_wire.specs.OneFrame.{main_of_frame, back_of_frame, up_of_frame};

use crate::decode::{decode_back, decode_main, decode_up};
use crate::encode::{encode_back, encode_main, encode_up};
use crate::error::DecodeError;
use crate::frame::Frame;
use nk_base::{BackMsg, MainMsg, Memory, Ranged, UpMsg};
use std::alloc::Global;

/// A message of one lane. Each in range has a frame, which is read as no other message of the lane. In the place of what
/// Firefox's IPDL makes for each protocol; the format is this project's own.
pub trait Framed: Ranged {
    /// The message whose frame the bytes are, if they are one's.
    ghost read: { List ℕ → Option Self };

    /// The frame of the message.
    fn encode(&self, alloc: Global) -> Result<Frame, Memory>
        requires { Self.IsInRange self.now }
        ensures { IfOk result (λ f. read f ≡ Some self.now) };

    /// The message of a frame that is one's. Nothing but memory can be wanting.
    fn decode(alloc: Global, frame: &Frame) -> Result<Self, Memory>
        requires { is_some (read frame.now) ≡ true }
        ensures found { IfOk result (λ m. read frame.now ≡ Some m) }
        ensures in_range { IfOk result (λ m. Self.IsInRange m) };
}

/// What is wanting where a decoder refuses the rest of a frame that is a message's: memory, and nothing else.
fn wanting(error: DecodeError) -> Memory
    requires { error ≡ OutOfMemory }
{
    match error {
        DecodeError::Memory => Memory,
        _ => unreachable!(),
    }
}

impl Framed for MainMsg {
    ghost read = { main_of_frame };

    fn encode(&self, alloc: Global) -> Result<Frame, Memory> {
        encode_main(alloc, self)
    }

    fn decode(alloc: Global, frame: &Frame) -> Result<MainMsg, Memory> {
        match decode_main(alloc, frame.rest()) {
            Ok(message) => Ok(message),
            Err(error) => Err(wanting(error)),
        }
    }
}

impl Framed for BackMsg {
    ghost read = { back_of_frame };

    fn encode(&self, alloc: Global) -> Result<Frame, Memory> {
        encode_back(alloc, self)
    }

    fn decode(alloc: Global, frame: &Frame) -> Result<BackMsg, Memory> {
        match decode_back(alloc, frame.rest()) {
            Ok(message) => Ok(message),
            Err(error) => Err(wanting(error)),
        }
    }
}

impl Framed for UpMsg {
    ghost read = { up_of_frame };

    fn encode(&self, alloc: Global) -> Result<Frame, Memory> {
        encode_up(alloc, self)
    }

    fn decode(_alloc: Global, frame: &Frame) -> Result<UpMsg, Memory> {
        match decode_up(frame.rest()) {
            Ok(message) => Ok(message),
            Err(error) => Err(wanting(error)),
        }
    }
}

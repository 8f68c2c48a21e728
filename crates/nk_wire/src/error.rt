// Why bytes are no message, and where a stream of frames goes wrong.

ghost use Rattle.std.specs.Prelude.{◌≡◌};
ghost use Rattle.nk_wire.specs.declared.error.DecodeError.TheVariants.{Memory as OutOfMemory};

use nk_base::Memory;

/// Why the rest of a frame is no message of a lane. The first fault from the left is named. Places and lengths count
/// bytes of the rest, the kind among them. This project's own.
#[derive(Clone, Copy, Debug, Drop, PartialEq, Eq)]
pub enum DecodeError {
    /// A field is cut: the rest has `have` bytes, and the field ends at `need`.
    Short { have: u32, need: u32 },
    /// No message of the lane has this kind.
    Kind(u8),
    /// The field that begins here is out of range.
    BadField(u32),
    /// So many bytes follow the fields.
    Long { extra: u32 },
    /// Want of memory.
    Memory,
}

impl From<Memory> for DecodeError {
    ghost from_gives = { λ _ e. e ≡ OutOfMemory };

    fn from(_memory: Memory) -> DecodeError {
        DecodeError::Memory
    }
}

/// What is wrong with a stream of frames. This project's own.
#[derive(Clone, Copy, Debug, Drop, PartialEq, Eq)]
pub enum FrameCause {
    /// A frame's length is 0, or over 528,653.
    Length(u32),
    /// A frame's rest is no message.
    Decode(DecodeError),
    /// The stream ends within a frame: it has `have` of `need` bytes, of which 4 are the length's.
    Cut { have: u32, need: u32 },
}

/// Where a stream of frames goes wrong. This project's own.
#[derive(Clone, Copy, Debug, Drop, PartialEq, Eq)]
pub struct FrameError {
    /// The number of bytes before the frame.
    pub offset: u64,
    /// What is wrong with it.
    pub cause: FrameCause,
}

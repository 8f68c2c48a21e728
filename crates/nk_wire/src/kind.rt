// The bytes that begin a rest: the kinds of the three lanes, and the byte of the second version. This project's own.

ghost use Rattle.std.specs.Prelude.{◌≡◌};
ghost use Rattle.nk_wire.specs.Kinds.{main_kinds, up_kinds};
ghost use Rattle.nk_wire.specs.Reading.{has_kind};

/// A start on the main lane.
pub const START: u8 = 0x01;

/// An opening that failed.
pub const FAILED_OPEN: u8 = 0x02;

/// The question on a redirect.
pub const REDIRECT1: u8 = 0x03;

/// A redirect that is followed.
pub const REDIRECT3: u8 = 0x04;

/// The main lane carries the start.
pub const START_SENT: u8 = 0x11;

/// A piece.
pub const BYTES: u8 = 0x12;

/// A stop.
pub const STOP: u8 = 0x13;

/// A start on the background lane.
pub const BACK_START: u8 = 0x14;

/// Behind this byte stands a stop with trailers, of kind `STOP`.
pub const SECOND_VERSION: u8 = 0xf2;

/// The page opens the channel.
pub const OPEN: u8 = 0x21;

/// A suspend.
pub const SUSPEND: u8 = 0x22;

/// A resume.
pub const RESUME: u8 = 0x23;

/// A cancel.
pub const CANCEL: u8 = 0x24;

/// The answer to the question on a redirect.
pub const VERIFY: u8 = 0x25;

/// Credit for bytes that were read.
pub const BYTES_READ: u8 = 0x26;

/// The page is done with the channel.
pub const DELETING: u8 = 0x27;

/// Whether the main lane has this kind.
pub fn is_main(kind: u8) -> bool
    ensures { result ≡ has_kind main_kinds kind }
{
    matches!(kind, START | FAILED_OPEN | REDIRECT1 | REDIRECT3)
}

/// Whether the up lane has this kind.
pub fn is_up(kind: u8) -> bool
    ensures { result ≡ has_kind up_kinds kind }
{
    matches!(
        kind,
        OPEN | SUSPEND | RESUME | CANCEL | VERIFY | BYTES_READ | DELETING
    )
}

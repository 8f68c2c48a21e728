// What stands first in the unused bytes of a stream.

ghost use Rattle.std.specs.Prelude.{◌≡◌, ◌≤◌, length};
ghost use Rattle.nk_wire.specs.Streams.{Looks, first};

use crate::decode::decode_any;
use crate::error::FrameCause;
use crate::message::AnyMsg;
use std::alloc::Global;

/// The most bytes of a rest.
const MOST: usize = 528_653;

/// The message of the first frame, where it is whole, and the size of that frame.
pub fn look(alloc: Global, unused: &[u8]) -> Result<Option<(AnyMsg, usize)>, FrameCause>
    ensures { Looks (first unused.now) result }
{
    if unused.len() < 4 {
        return Ok(None);
    }
    let (head, behind) = unused.split_at(4);
    let length = u32::from_le_bytes([head[0], head[1], head[2], head[3]]);
    let size = length as usize;
    if !(1..=MOST).contains(&size) {
        return Err(FrameCause::Length(length));
    }
    if behind.len() < size {
        return Ok(None);
    }
    match decode_any(alloc, &behind[..size]) {
        Ok(message) => Ok(Some((message, 4 + size))),
        Err(error) => Err(FrameCause::Decode(error)),
    }
}

// The messages of any lane, read from the rest of a frame.

ghost use Rattle.std.specs.Prelude.{◌≡◌, ◌≤◌, length};
ghost use Rattle.nk_wire.specs.Reading.{Gives, any_by_kind, any_answer};
ghost use Rattle.nk_wire.specs.Kinds.{longest_rest};

use crate::error::DecodeError;
use crate::message::AnyMsg;
use crate::{kind, read_back, read_main, read_up};
use std::alloc::Global;

/// What the rest says on the lane that has this kind, or its first fault.
fn by_kind(alloc: Global, kind: u8, rest: &[u8]) -> Result<AnyMsg, DecodeError>
    requires { length rest.now ≤ longest_rest }
    ensures { Gives (λ m. m) result (any_by_kind kind rest.now) }
{
    if kind::is_main(kind) {
        return Ok(AnyMsg::Main(read_main::answer(alloc, rest)?));
    }
    if kind::is_up(kind) {
        return Ok(AnyMsg::Up(read_up::answer(rest)?));
    }
    Ok(AnyMsg::Back(read_back::answer(alloc, rest)?))
}

/// What the rest says, or its first fault.
pub fn answer(alloc: Global, rest: &[u8]) -> Result<AnyMsg, DecodeError>
    requires { length rest.now ≤ longest_rest }
    ensures { Gives (λ m. m) result (any_answer rest.now) }
{
    match rest {
        [] => Err(DecodeError::Short { have: 0, need: 1 }),
        [kind, ..] => by_kind(alloc, *kind, rest),
    }
}

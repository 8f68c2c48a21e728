// The four decoders, and what each of their answers means.

ghost use Rattle.std.specs.Prelude.{◌≡◌, ◌≤◌, length, IfOk, Ok};
ghost use Rattle.nk_base.specs.declared.message.MainMsg.{MainMsg as SpecMainMsg};
ghost use Rattle.nk_base.specs.declared.message.BackMsg.{BackMsg as SpecBackMsg};
ghost use Rattle.nk_base.specs.declared.message.UpMsg.{UpMsg as SpecUpMsg};
ghost use Rattle.nk_wire.specs.declared.message.AnyMsg.{AnyMsg as SpecAnyMsg};
ghost use Rattle.nk_wire.specs.Spelling.{SpellsMain, SpellsBack, SpellsUp, SpellsAny};
ghost use Rattle.nk_wire.specs.Reading.{Gives, main_answer, back_answer, up_answer, any_answer};
ghost use Rattle.nk_wire.specs.Kinds.{longest_rest};

use crate::error::DecodeError;
use crate::message::AnyMsg;
use crate::{read_any, read_back, read_main, read_up};
use nk_base::{BackMsg, MainMsg, UpMsg};
use std::alloc::Global;

/// The message of the main lane whose frame has this rest, or the rest's first fault. In the place of the reading that
/// Firefox's IPDL makes for PHttpChannelChild; the format is this project's own.
pub fn decode_main(alloc: Global, rest: &[u8]) -> Result<MainMsg, DecodeError>
    requires { length rest.now ≤ longest_rest }
    // What is read is spelled so.
    ensures found { IfOk result (λ m. SpellsMain m rest.now) }
    // What is spelled so is read, but for want of memory.
    ensures only { (m : SpecMainMsg) → SpellsMain m rest.now → Gives (λ x. x) result (Ok m) }
    // Which fault it is.
    ensures exact { Gives (λ m. m) result (main_answer rest.now) }
{
    read_main::answer(alloc, rest)
}

/// The message of the background lane whose frame has this rest, or the rest's first fault. In the place of the reading
/// that Firefox's IPDL makes for PHttpBackgroundChannelChild; the format is this project's own.
pub fn decode_back(alloc: Global, rest: &[u8]) -> Result<BackMsg, DecodeError>
    requires { length rest.now ≤ longest_rest }
    ensures found { IfOk result (λ m. SpellsBack m rest.now) }
    ensures only { (m : SpecBackMsg) → SpellsBack m rest.now → Gives (λ x. x) result (Ok m) }
    ensures exact { Gives (λ m. m) result (back_answer rest.now) }
{
    read_back::answer(alloc, rest)
}

/// The message of the up lane whose frame has this rest, or the rest's first fault. It takes no memory. In the place of
/// the reading that Firefox's IPDL makes for PHttpChannelParent; the format is this project's own.
pub fn decode_up(rest: &[u8]) -> Result<UpMsg, DecodeError>
    requires { length rest.now ≤ longest_rest }
    ensures found { IfOk result (λ m. SpellsUp m rest.now) }
    ensures only { (m : SpecUpMsg) → SpellsUp m rest.now → Gives (λ x. x) result (Ok m) }
    ensures exact { Gives (λ m. m) result (up_answer rest.now) }
{
    read_up::answer(rest)
}

/// The message of any lane whose frame has this rest, or the rest's first fault. This project's own.
pub fn decode_any(alloc: Global, rest: &[u8]) -> Result<AnyMsg, DecodeError>
    requires { length rest.now ≤ longest_rest }
    ensures found { IfOk result (λ m. SpellsAny m rest.now) }
    ensures only { (m : SpecAnyMsg) → SpellsAny m rest.now → Gives (λ x. x) result (Ok m) }
    ensures exact { Gives (λ m. m) result (any_answer rest.now) }
{
    read_any::answer(alloc, rest)
}

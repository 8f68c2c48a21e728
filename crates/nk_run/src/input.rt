// All of the input, up to the most bytes that a command reads.

ghost use Rattle.std.specs.Prelude.{◌≤◌, IfOk, IfErr, vec_len};
ghost use Rattle.nk_io.specs.Given.{GivesAll};
ghost use Rattle.nk_run.specs.Reading.{IsUnread};
ghost use Rattle.nk_run.specs.Runs.{most_input};

use crate::failure::Failure;
use nk_io::{ReadError, Source, read_all};
use std::alloc::Global;

/// The most bytes of an input.
const MOST_INPUT: u32 = 16_777_216;

/// All of the input.
pub(crate) fn input_text<I: Source>(alloc: Global, input: &mut I) -> Result<Vec<u8>, Failure>
    ensures size { IfOk result (λ text. vec_len text ≤ most_input) }
    ensures read { IfOk result (λ text. GivesAll (I.left input.old) (I.left input.new) text.items) }
    ensures unread { IfErr result (λ e. IsUnread e (I.left input.old) (I.left input.new) (I.faults input.old) (I.faults input.new)) }
{
    match read_all(alloc, input, MOST_INPUT) {
        Ok(text) => Ok(text),
        Err(ReadError::TooLarge) => Err(Failure::TooLarge),
        Err(ReadError::Fault) => Err(Failure::Read),
        Err(ReadError::Memory) => Err(Failure::Memory),
    }
}

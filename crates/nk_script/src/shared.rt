// A script is read line by line, and its pieces are parts of its text.

ghost use Rattle.std.specs.Prelude.{◌≡◌, ◌<◌, ◌^◌, ℕ, length, IfOk, IfErr};
ghost use Rattle.nk_script.specs.declared.script.Cause.{Cause as AnyCause};
ghost use Rattle.nk_script.specs.declared.script.Script.{Script as AnyScript};
ghost use Rattle.nk_script.specs.Grammar.{IsTextOf, IsFirstBadLine};
ghost use Rattle.nk_script.specs.Answers.{Blames, IsScriptOrMemory, IsErrorOrMemory, IsPlayable};

use crate::line::Place;
use crate::placed::PlacedText;
use crate::read::first_line;
use crate::reader::Reader;
use crate::script::{Cause, Script, ScriptError};
use bytes::Bytes;
use nk_base::Memory;
use std::alloc::Global;
use std::sync::Arc;

// A block over the input. It copies no byte.
fn block_over(alloc: Global, input: &Bytes) -> Result<Arc<Bytes, Global>, Memory>
    ensures { IfOk result (λ block. block.value ≡ input.now) }
{
    let Ok(bytes) = input.clone() else {
        return Err(Memory);
    };
    match Arc::new(alloc, bytes) {
        Ok(block) => Ok(block),
        Err(_) => Err(Memory),
    }
}

// The block of a line that stands at this place: another one where a hop must come. So the pieces of a response share one
// block, and those of another channel do not, since its count is raised and lowered by that channel's threads alone.
fn block_at(
    place: Place,
    alloc: Global,
    input: &Bytes,
    block: Arc<Bytes, Global>,
) -> Result<Arc<Bytes, Global>, Memory>
    requires { block.value ≡ input.now }
    ensures { IfOk result (λ block. block.value ≡ input.now) }
{
    match place {
        Place::Hop => block_over(alloc, input),
        _ => Ok(block),
    }
}

/// The script that the text of these bytes stands for, of fewer than 2^31 bytes. The piece of a line `piece TEXT` is a part
/// of the bytes, which are not copied. This project's own.
///
/// The error names the first line, counted from 1, that cannot stand after the lines before it, and why. There is one
/// such line, with one cause, exactly where the text stands for no script.
pub fn read_shared(alloc: Global, input: &Bytes) -> Result<Script, ScriptError>
    requires { length input.now < 2 ^ 31 }
    ensures script { IfOk result (λ script. IsTextOf script input.now) }
    ensures playable { IfOk result IsPlayable }
    ensures every { (script : AnyScript) → IsTextOf script input.now → IsScriptOrMemory result script }
    ensures line { IfErr result (Blames input.now) }
    ensures only { (number : ℕ) (cause : AnyCause) → IsFirstBadLine input.now number cause → IsErrorOrMemory result number cause }
{
    let mut reader = Reader::new(alloc);
    let mut block = block_over(alloc, input)?;
    let mut rest = input.as_slice();
    let mut number: u32 = 1;
    while !rest.is_empty() {
        let (line, more) = first_line(rest);
        block = block_at(reader.place, alloc, input, block)?;
        let from = (input.len() - rest.len()) as u32;
        match reader.read_next(alloc, &PlacedText::new(line, &block, from)) {
            Ok(()) => {}
            Err(refusal) => return Err(refusal.at_line(number)),
        }
        number += 1;
        rest = more;
    }
    if !reader.place.may_end() {
        let cause = Cause::EndsEarly;
        return Err(ScriptError::Line { number, cause });
    }
    match reader.into_script() {
        Ok(script) => Ok(script),
        Err(Memory) => Err(ScriptError::Memory),
    }
}

/// The script that the text stands for, of fewer than 2^31 bytes, as `read_shared` answers it. The text is copied once. This
/// project's own.
pub fn read_script(alloc: Global, text: &[u8]) -> Result<Script, ScriptError>
    requires { length text.now < 2 ^ 31 }
    ensures script { IfOk result (λ script. IsTextOf script text.now) }
    ensures playable { IfOk result IsPlayable }
    ensures every { (script : AnyScript) → IsTextOf script text.now → IsScriptOrMemory result script }
    ensures line { IfErr result (Blames text.now) }
    ensures only { (number : ℕ) (cause : AnyCause) → IsFirstBadLine text.now number cause → IsErrorOrMemory result number cause }
{
    match Bytes::copy_from_slice(alloc, text) {
        Ok(input) => read_shared(alloc, &input),
        Err(_) => Err(ScriptError::Memory),
    }
}

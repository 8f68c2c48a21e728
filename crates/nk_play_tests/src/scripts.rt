//! Texts, and the plans and the schedule that a text is a script of.

ghost use Rattle.std.specs.Prelude.{IfOk};
ghost use Rattle.nk_script.specs.Answers.{IsPlayable};

use nk_script::{Script, read_script};
use std::alloc::Global;
use std::test::Fail;

/// The script of this text.
pub(crate) fn script(alloc: Global, text: &[u8]) -> Result<Script, Fail>
    ensures { IfOk result IsPlayable }
{
    if text.len() >= 1 << 31 {
        Err("the text is too long")?
    }
    Ok(read_script(alloc, text)?)
}

/// These texts, one behind the other.
pub(crate) fn joined(alloc: Global, texts: &[&[u8]]) -> Result<Vec<u8>, Fail> {
    let mut all = Vec::new(alloc);
    for text in texts {
        all.extend_from_slice(text)?;
    }
    Ok(all)
}

/// A text that is another one than it should be.
#[derive(Debug, Drop)]
struct Another {
    text: Vec<u8>,
}

/// Compares a text with what it should be.
pub(crate) fn compare(text: Vec<u8>, want: &[u8]) -> Result<(), Fail> {
    if text.as_slice() != want {
        Err(Another { text })?
    }
    Ok(())
}

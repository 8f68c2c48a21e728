// How a line is taken in, and what was read in the end.

ghost use Rattle.std.specs.Prelude.{◌≡◌, ◌≤◌, length, IfOk};
ghost use Rattle.nk_script.specs.declared.line.Line.{Line as AnyLine};
ghost use Rattle.nk_script.specs.Draft.{plans_of, IsComplete, EndsComplete};
ghost use Rattle.nk_script.specs.Grammar.{Stands, script_of};
ghost use Rattle.nk_script.specs.Answers.{IsLineAnswer, error_at};
ghost use Rattle.nk_script.specs.Texts.{before, behind_line};

use crate::keyword::read_keyword;
use crate::placed::PlacedText;
use crate::read_line::read_line;
use crate::reader::Reader;
use crate::script::{Cause, Script, ScriptError};
use crate::text::cut;
use nk_base::Memory;
use std::alloc::Global;

/// Why a line was not taken. This project's own.
#[derive(Clone, Copy, Debug, Drop, PartialEq, Eq)]
pub enum Refusal {
    /// It cannot stand there.
    Line(Cause),
    /// Want of memory.
    Memory,
}

impl Refusal {
    // The error of the line of this number.
    pub(crate) fn at_line(self, number: u32) -> ScriptError
        ensures { result ≡ error_at number self }
    {
        match self {
            Refusal::Line(cause) => ScriptError::Line { number, cause },
            Refusal::Memory => ScriptError::Memory,
        }
    }
}

// The first line of a text, and the text behind it.
pub(crate) fn first_line(text: &[u8]) -> (&[u8], &[u8])
    ensures line { result.0.now ≡ before 10 text.now }
    ensures rest { result.1.now ≡ behind_line text.now }
{
    match cut(text, b'\n') {
        (line, Some(rest)) => (line, rest),
        (line, None) => (line, &[]),
    }
}

impl Reader {
    // Takes in the next line.
    pub(crate) fn read_next(&mut self, alloc: Global, text: &PlacedText) -> Result<(), Refusal>
        requires few { length (plans_of self.old) ≤ 1024 }
        requires complete { (line : AnyLine) → Stands self.old text.now line → EndsComplete self.old line }
        ensures { IsLineAnswer self.old text.now result self.new }
    {
        let (word, _) = cut(text.as_slice(), b' ');
        let Some(keyword) = read_keyword(word) else {
            return Err(Refusal::Line(Cause::Unexpected));
        };
        if !self.place.allows(keyword) {
            return Err(Refusal::Line(Cause::Unexpected));
        }
        let channels = self.plans.len() as u32;
        let line = match read_line(alloc, keyword, text, channels) {
            Ok(Some(line)) => line,
            Ok(None) => return Err(Refusal::Line(Cause::Malformed)),
            Err(Memory) => return Err(Refusal::Memory),
        };
        if !self.is_within(&line) {
            return Err(Refusal::Line(Cause::Limit));
        }
        match self.take(alloc, line) {
            Ok(()) => Ok(()),
            Err(Memory) => Err(Refusal::Memory),
        }
    }

    // The script that was read.
    pub(crate) fn into_script(mut self) -> Result<Script, Memory>
        requires { IsComplete self }
        ensures { IfOk result (λ script. script ≡ script_of self) }
    {
        self.close_channel()?;
        Ok(Script {
            plans: self.plans,
            schedule: self.schedule,
        })
    }
}

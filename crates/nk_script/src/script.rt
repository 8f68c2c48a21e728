// A script: the plans of its channels and the steps of its schedule, and why a text is none.

ghost use Rattle.std.specs.Prelude.{◌≡◌};
ghost use Rattle.nk_script.specs.declared.script.ScriptError.TheVariants.{Memory as OutOfMemory};

use nk_base::{Items, Memory};
use nk_plan::{Plans, Step};
use thiserror::Error;

/// A step of the schedule. This project's own.
#[derive(Clone, Copy, Debug, Drop, PartialEq, Eq)]
pub struct ScheduleItem {
    /// The channel, counted from 1.
    pub channel: u32,
    /// Its step.
    pub step: Step,
}

/// The steps of a schedule, in their order. This project's own.
pub type Steps = Items<ScheduleItem>;

/// A script of loads. This project's own.
#[derive(Drop)]
pub struct Script {
    /// The plans of its channels, which are numbered from 1.
    pub plans: Plans,
    /// The steps that are tried in order before the drain.
    pub schedule: Steps,
}

/// Why a line cannot stand after the lines before it. The first cause that applies is given. This project's own.
#[derive(Clone, Copy, Debug, Drop, PartialEq, Eq)]
pub enum Cause {
    /// Its first word is not that of a line that may stand there.
    Unexpected,
    /// It has none of the forms that may stand there, or a value that is out of range.
    Malformed,
    /// It would be one too many, or make a body or a listener too large.
    Limit,
    /// There is no such line, and the script needs one.
    EndsEarly,
}

/// Why a text is no script. This project's own.
#[derive(Clone, Copy, Debug, Drop, PartialEq, Eq, Error)]
pub enum ScriptError {
    /// This line, counted from 1, is the first that cannot stand after the lines before it.
    #[error("line {number} of the script cannot stand there")]
    Line { number: u32, cause: Cause },
    /// Want of memory.
    #[error("want of memory")]
    Memory,
}

impl From<Memory> for ScriptError {
    ghost from_gives = { λ _ e. e ≡ OutOfMemory };

    fn from(_memory: Memory) -> ScriptError {
        ScriptError::Memory
    }
}

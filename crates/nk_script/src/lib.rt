// Scripts of loads: the text of a script is read into the plans of its channels and the steps of its schedule.
#![tactic(auto)]

mod draft;
mod field;
mod form;
mod keyword;
mod laws;
mod line;
mod number;
mod piece;
mod placed;
mod read;
mod read_line;
mod reader;
mod rest;
mod script;
mod shared;
mod take;
mod text;
mod worded;

pub use draft::{Draft, Response};
pub use laws::line_law;
pub use line::{HopLine, Keyword, Line, Place};
pub use read::Refusal;
pub use reader::Reader;
pub use script::{Cause, ScheduleItem, Script, ScriptError, Steps};
pub use shared::{read_script, read_shared};

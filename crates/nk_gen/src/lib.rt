// The generator: a number makes a script, and the ends of what was played are summed up. This project's own.
#![tactic(auto)]

mod draws;
mod make;
mod tally;

pub use make::make_script;
pub use tally::summary;

// The words that the program is called with, and the commands that they mean.
#![tactic(auto)]

mod command;
mod decimal;

pub use command::{Command, Usage, read_words, usage_line};
pub use decimal::read_decimal;

// The laws over the generator: what it makes is a text of the script's grammar, and what it sums up can be counted. The
// crate holds nothing that runs; who makes a script and reads it, or sums up what was played, stands on it.
#![tactic(auto)]

mod laws;

pub use laws::{made_script_law, sums_law};

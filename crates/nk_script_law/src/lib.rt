//! The laws of the script: a text is the text of at most one script, and any other has one first bad line with one cause.
//! The crate holds nothing that runs.
#![tactic(auto)]

mod laws;

pub use laws::{bad_line_law, script_law};

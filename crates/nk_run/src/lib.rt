//! The program of necklane, from its words and the bytes of its input to the bytes that it prints.
//!
//! `play` reads a script, moves its channels by the schedule and the drain, and prints the report of their ends; `gen` does
//! so with a script that it makes, and prints the summary. `frames` lists a sequence of frames. A law says that a script has
//! one play.
#![tactic(auto)]

mod ends;
mod failure;
mod frames;
mod input;
mod laws;
mod lines;
mod made;
mod play;
mod run;

pub use laws::play_law;
pub use run::{refuse_words, run_alone};

//! The segments of a pipe: buffers of one size in a chain, each with one count of the readers that stand in it or
//! in front of it. A segment at the front that no reader needs is given back at once. After the segments of
//! Firefox's nsPipe in outline; the counts are this project's own.
#![tactic(auto)]

mod segment;
mod segments;
mod walk;

pub use nk_chain::Place;
pub use segments::Segments;

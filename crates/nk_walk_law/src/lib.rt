// The laws that tie the walk to runs: the entries of a journal are the blocks of its run, cut; the walk over the entries
// places as much as the walk over the blocks; and two journals are a run where it places everything. The crate holds nothing
// that runs; who walks over journals, and speaks of runs, stands on it.
#![tactic(auto)]

mod laws;

pub use laws::{blocks_law, run_law, steps_law};

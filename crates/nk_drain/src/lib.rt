// The drain ends: a channel has a number of steps left, which each of its steps lowers. The crate holds nothing that
// runs; what goes on until no step is enabled stands on it.
#![tactic(auto)]

mod laws;

pub use laws::{falls_law, idle_law};

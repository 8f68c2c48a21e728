// The laws of each half of a channel by itself: the parent, and the child, each for any list of its own steps and any
// messages, strays included. They are for what takes a half and does not know what the other one did: rings that never
// overflow, drains that end, books that keep what their journals say, a channel that is adopted in the middle of its load,
// and one whose page hands the rest back. The laws of whole channels stand on them. The crate holds nothing that runs.
#![tactic(auto)]

pub mod capacity;
pub mod falls;
pub mod growth;
pub mod offsets;
pub mod pieces;
pub mod ranges;
pub mod settled;

// The walk over a parent's journal, the forwards of its background half and a child's journal, which places each item once
// what it takes was sent: how much of the three it places, over blocks and entry by entry, and the laws of what it leaves.
#![tactic(auto)]

mod block;
mod counts;
mod journals;
mod laws;
mod pack;
mod telling;
mod walk;

pub use block::{ChildBlock, ParentBlock};
pub use journals::{place_journals, places_all_journals};
pub use laws::{cut_law, first_law, placed_law};
pub use pack::{child_blocks, parent_blocks};
pub use telling::Telling;
pub use walk::{Placed, place, places_all};

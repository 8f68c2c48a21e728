//! The queue of a channel in the page's process: events wait in it while the channel is suspended or
//! while an earlier one runs, and run in order, each on its target. After Firefox's ChannelEventQueue in
//! outline; the exact rules are this project's own, and stand in nk_base's specs/Queue.antt.
#![tactic(auto)]

mod answer;
pub mod laws;
mod queue;

pub use answer::{Offer, Taken};
pub use queue::EventQueue;

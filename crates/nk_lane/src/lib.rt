//! Lanes between threads: rings of which a contract sees what was sent on them and what was taken from them.
//!
//! A lane carries so many items in all as its capacity says. Each of its two ends belongs to one thread at a time, and may
//! move from one to another: on a down lane the parent's side holds the sending end and the page's side the taking end, on
//! the up lane and on delivery it is the other way round. Nothing but the items passes between the two. So a sending end
//! knows its room by itself: what the other thread does never changes it. And a taking end knows by itself how many items
//! it may still give, whatever the other end does.
//!
//! A look at a ring gives an item that was sent, the oldest that was not given, and one that the lane's protocol allows. It
//! does not promise to see what another thread has sent by then: `None` says that this look saw nothing, and no more. Where
//! both ends are in one thread, `settle` shows that what was taken, and then what is left, is what was sent.
//!
//! In the place of the IPC channels under Firefox's PHttpChannel and PHttpBackgroundChannel; the rings are `rtrb`'s.
#![tactic(auto)]

mod ends;
mod entry_out;
mod frame_out;
mod laws;
mod protocol;
mod ready;
mod rings;

pub use ends::{SendEnd, TakeEnd};
pub use entry_out::EntryOut;
pub use frame_out::FrameOut;
pub use laws::frames_grow;
pub use protocol::{AnyEntry, BackFrames, MainFrames, Protocol, Ruled, Spelled, UpFrames};
pub use rings::{lane, settle};

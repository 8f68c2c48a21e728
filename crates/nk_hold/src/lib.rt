// What the background half of a child holds back. The main lane and the background lane are not ordered against each
// other, so data and stop may come before the start of their hop is in the child's queue: they are kept until the child
// reports that it is, and are then released in the order they came. After the queue of Firefox's
// HttpBackgroundChannelChild, which waits for OnStartRequestSent, in outline.
#![tactic(auto)]

mod hold;
mod hops;
mod kept;

pub use hold::{Held, Hold, Released};
pub use kept::Kept;

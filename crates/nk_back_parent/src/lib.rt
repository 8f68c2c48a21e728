// The parent's background half: it moves the messages that the parent hands it on to the background lane, in order.
// After Firefox's HttpBackgroundChannelParent.
#![tactic(auto)]

mod back_parent;

pub use back_parent::BackParent;

// One channel: its parent, the parent's background half, its child, and the lists that carry messages between them. Whoever
// holds one makes its steps, and lends the end to which the child delivers. This project's own.
#![tactic(auto)]

mod channel;
mod laws;

pub use channel::Channel;
pub use laws::channel_law;

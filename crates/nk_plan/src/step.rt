// The atomic steps of a channel, and the phases of its parent.

use nk_base::{BackMsg, MainMsg, Target, UpMsg};

/// A step of a channel. This project's own.
#[derive(Clone, Copy, Debug, Drop, PartialEq, Eq)]
pub enum Step {
    /// The page opens the channel or makes its next call.
    Act,
    /// The child answers the question on a redirect.
    Verdict,
    /// The parent takes the next step of its load.
    Fetch,
    /// The parent takes the next message of the up lane.
    Up,
    /// The parent's background half moves one message on to the background lane.
    Forward,
    /// The child takes the next message of the main lane.
    Main,
    /// The child's background half takes the next message of the background lane.
    Back,
    /// The child's background half hears that the start is queued, and lets go what it holds.
    Release,
    /// A task or a flush goes on, on this target.
    Begin(Target),
    /// The callback that runs on this target returns.
    Finish(Target),
    /// This reader of the listener takes a turn; readers are counted from 1.
    Read(u8),
}

/// A step of a parent: a row of its table. This project's own.
#[derive(Clone, Copy, Debug, Drop, PartialEq, Eq)]
pub enum ParentStep {
    /// It takes this message.
    Up(UpMsg),
    /// It takes the next step of its load.
    Fetch,
}

/// A step of a child: a row of its table. This project's own.
#[derive(Drop)]
pub enum ChildStep {
    /// The page opens the channel or makes its next call.
    Act,
    /// The question on a redirect is answered.
    Verdict,
    /// This message of the main lane is taken.
    Main(MainMsg),
    /// This message of the background lane is taken.
    Back(BackMsg),
    /// The background half hears that the start is queued.
    Release,
    /// A task or a flush goes on, on this target.
    Begin(Target),
    /// The callback that runs on this target returns.
    Finish(Target),
}

/// Where a parent stands in its load. This project's own, after HttpChannelParent.
#[derive(Clone, Copy, Debug, Drop, PartialEq, Eq)]
pub enum Phase {
    /// The page has not opened the channel.
    Closed,
    /// The next hop is to be met.
    Ready,
    /// The child was asked whether a redirect is followed.
    Asking,
    /// The child has answered.
    Follow,
    /// The start was given, and the body is being sent.
    Body,
    /// The load is over.
    Done,
}

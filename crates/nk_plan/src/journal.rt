// The journals of the two sides: what each step took, did and sent, in order.

use nk_base::{BackMsg, Items, MainMsg, RetargetError, Status, Target, UpMsg};

/// An entry of a parent's journal. This project's own.
#[derive(Drop)]
pub enum ParentEntry {
    /// A message of the up lane was taken.
    Took(UpMsg),
    /// A message was sent on the main lane.
    SentMain(MainMsg),
    /// A message was sent to the parent's background half.
    SentBack(BackMsg),
}

/// An entry of a child's journal. This project's own.
///
/// The status of `RunStart`, `RunDrop` and `RunStop` is the channel's after the event's own was
/// merged; that of `RunCancel` is the event's.
#[derive(Drop)]
pub enum ChildEntry {
    /// The page opened the channel.
    Open,
    /// The page suspended the channel.
    Suspend,
    /// The page resumed the channel.
    Resume,
    /// The page cancelled the channel.
    Cancel(Status),
    /// The parent process is gone.
    Break(Status),
    /// The data is delivered on this worker from now on.
    Retarget(u8),
    /// The data is delivered where it was.
    NoRetarget(RetargetError),
    /// A call of the page did nothing.
    NoEffect,
    /// The question on this hop was answered.
    Verdict {
        hop: u32,
        status: Status,
    },
    /// A message of the main lane was taken.
    TookMain(MainMsg),
    /// A message of the background lane was taken.
    TookBack(BackMsg),
    /// The background half let go this many messages.
    Release(usize),
    /// A start callback began.
    RunStart {
        target: Target,
        code: u16,
        status: Status,
    },
    /// A data callback began.
    RunBytes {
        target: Target,
        offset: u64,
        length: u32,
    },
    /// Data was dropped, since the channel has failed.
    RunDrop {
        target: Target,
        offset: u64,
        status: Status,
    },
    /// A stop callback began.
    RunStop {
        target: Target,
        status: Status,
    },
    /// The question on this hop is open.
    RunRedirect1 {
        target: Target,
        hop: u32,
    },
    /// The redirect of this hop was followed.
    RunRedirect3 {
        target: Target,
        hop: u32,
    },
    /// A cancel that a worker's listener brought about was run.
    RunCancel {
        target: Target,
        status: Status,
    },
    /// A flush went from one target to another.
    HandOver {
        from: Target,
        to: Target,
    },
    /// A flush on this target ended.
    Ended(Target),
    /// A task on this target was done.
    Complete(Target),
    /// The callback on this target returned.
    Finish(Target),
    /// A cancel with this status was put in front of the queue.
    Prepend(Status),
}

/// A parent's journal, in order. This project's own.
pub type ParentJournal = Items<ParentEntry>;

/// A child's journal, in order. This project's own.
pub type ChildJournal = Items<ChildEntry>;

// Calls of a queue as values, so that a law may speak of any list of them.

use crate::answer::{Offer, Taken};
use nk_base::Target;

/// A call of a queue. This project's own.
#[derive(Debug, Drop, PartialEq, Eq)]
pub enum QueueCall<E> {
    /// `reserve`: room for so many events.
    Reserve(usize),
    /// `offer`: an event, from this target.
    Offer(E, Target),
    /// `suspend`.
    Suspend,
    /// `resume`.
    Resume,
    /// `complete`: a task that was posted to this target is done.
    Complete(Target),
    /// `start_forced`.
    StartForced,
    /// `end_forced`, on this target.
    EndForced(Target),
    /// `prepend`: an event in front of all.
    Prepend(E),
    /// `take`: the next event for a flush on this target.
    Take(Target),
    /// `clear`.
    Clear,
    /// `set_data_target`.
    SetDataTarget(Target),
    /// `flushing`: the target of the flush.
    Flushing,
    /// `posted`: the tasks that are posted to this target.
    Posted(Target),
    /// `is_suspended`.
    IsSuspended,
    /// `waiting`: the events that wait.
    Waiting,
}

/// What a call answers. This project's own.
#[derive(Debug, Drop, PartialEq, Eq)]
pub enum QueueAnswer<E> {
    /// The call answers nothing.
    Done,
    /// What became of the event.
    Offered(Offer<E>),
    /// Where a task was posted.
    Resumed(Option<Target>),
    /// Whether a flush began.
    Began(bool),
    /// The next event, or why there is none.
    Took(Taken<E>),
    /// The target of the flush.
    Flushing(Option<Target>),
    /// A count.
    Number(usize),
    /// Whether it is so.
    Flag(bool),
}

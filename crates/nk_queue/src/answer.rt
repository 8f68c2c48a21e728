// What the queue of a channel answers where an event is offered or taken.

use nk_base::Target;

/// What an offer answers. This project's own, after `ChannelEventQueue::RunOrEnqueue`.
#[derive(Debug, Drop, PartialEq, Eq)]
pub enum Offer<E> {
    /// The event runs now, as the first of a flush by the target that offered it.
    RunNow(E),
    /// The event waits behind others, or until the queue is resumed.
    Queued,
    /// The event waits for a task that was posted to this target, its own.
    Posted(Target),
}

/// What a take by the flush under way answers. This project's own, after `ChannelEventQueue::TakeEvent`.
#[derive(Debug, Drop, PartialEq, Eq)]
pub enum Taken<E> {
    /// The first event, which is to run now.
    Event(E),
    /// The flush goes on at this target, where a task was posted.
    HandOver(Target),
    /// The flush is over.
    Ended,
}

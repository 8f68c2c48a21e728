// The events of a channel's queue, as the queue machine sees them. After Firefox's ChannelEvent.

use crate::status::Target;

/// Where an event runs: on a target of its own, or where the channel's data is delivered at the moment it is asked.
#[derive(Clone, Copy, Debug, Drop, PartialEq, Eq)]
pub enum Class {
    /// On this target.
    Fixed(Target),
    /// Where data is delivered when it is asked.
    Delivery,
}

/// An event of a queue. After Firefox's `ChannelEvent::GetEventTarget`.
pub trait Classed {
    ghost use Rattle.nk_base.specs.declared.queue.Class.{Class};
    ghost use Rattle.std.specs.Prelude.{◌≡◌};

    /// Where the event runs.
    ghost class: { Self → Class };

    /// Where the event runs.
    fn class(&self) -> Class
        ensures { result ≡ class self.now };
}

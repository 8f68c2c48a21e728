// An event of a child's queue.

ghost use Rattle.std.specs.Prelude.{◌≡◌};
ghost use Rattle.nk_child.specs.Events.{IsEventInRange};

use nk_base::{Class, Classed};
use nk_plan::ChildEvent;
use std::marker::Model;

/// An event of which all that it may lead to being sent is in range.
#[derive(Drop)]
pub(crate) struct Queued {
    event: ChildEvent,
}

impl Model for Queued {
    ghost use Rattle.nk_plan.specs.declared.event.ChildEvent.{ChildEvent};
    ghost use Rattle.nk_child.specs.Events.{IsEventInRange};

    ghost Value = { ChildEvent };

    ghost view = { λ s. s.event };

    ghost invariant = { λ s. IsEventInRange s.event };
}

impl Classed for Queued {
    ghost use Rattle.nk_plan.specs.Event.{class_of};

    ghost class = { class_of };

    fn class(&self) -> Class {
        self.event.class()
    }
}

impl Queued {
    /// The queue's item for this event.
    pub(crate) fn new(event: ChildEvent) -> Queued
        requires { IsEventInRange event }
        ensures { result ≡ event }
    {
        Queued { event }
    }

    /// The event.
    pub(crate) fn get(&self) -> &ChildEvent
        ensures event { result.now ≡ self.now }
        ensures in_range { IsEventInRange result.now }
    {
        &self.event
    }

    /// The event, taken out.
    pub(crate) fn into_event(self) -> ChildEvent
        ensures event { result ≡ self }
        ensures in_range { IsEventInRange result }
    {
        self.event
    }
}

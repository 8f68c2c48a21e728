// The events of a child's queue.

ghost use Rattle.std.specs.Prelude.{◌≡◌};

use nk_base::{Class, Classed, Piece, Status, Target};

/// An event of a child's queue, after HttpChannelChild's ChannelEvents.
#[derive(Drop)]
pub enum ChildEvent {
    /// The load has started with this code and this status.
    Start {
        code: u16,
        status: Status,
    },
    /// A piece of the body that stands at this offset, and the channel's status with it.
    Bytes {
        offset: u64,
        piece: Piece,
        status: Status,
    },
    /// The load has stopped with this status.
    Stop {
        status: Status,
    },
    /// The parent asks whether the redirect of this hop is followed.
    Redirect1 {
        hop: u32,
    },
    /// The redirect of this hop is followed.
    Redirect3 {
        hop: u32,
    },
    /// The listener failed on a worker: the load is cancelled with this status.
    Cancel {
        status: Status,
    },
}

impl Classed for ChildEvent {
    ghost use Rattle.nk_plan.specs.Event.{class_of};

    ghost class = { class_of };

    fn class(&self) -> Class {
        match self {
            ChildEvent::Bytes { .. } => Class::Delivery,
            _ => Class::Fixed(Target::Main),
        }
    }
}

// Frames with the id of their channel, and which of them a shared lane carries.

ghost use Rattle.std.specs.Prelude.{◌≡◌, refl};
ghost use Rattle.nk_shared.specs.declared.tagged.Tagged.{Tagged};

use nk_lane::Protocol;
use nk_wire::Frame;
use std::marker::PhantomData;

/// A frame, and the id of its channel. After the routing id of the messages of Firefox's IPC.
#[derive(Drop)]
pub struct Tagged {
    /// The id of the channel, as a desk gave it.
    pub id: u32,
    /// The frame, as the channel's own lane carries it.
    pub frame: Frame,
}

/// The protocol of a shared lane: exactly the tagged frames whose frame `P` allows. This project's own.
#[derive(Clone, Copy)]
pub struct Tags<P> {
    of: PhantomData<P>,
}

impl<P: Protocol<Frame>> Protocol<Tagged> for Tags<P> {
    ghost allows = { λ t. P.allows t.frame };
}

/// A protocol of tagged frames that is the protocol `P` of their frames. This project's own.
pub trait TaggedAs<P: Protocol<Frame>>: Protocol<Tagged> {
    ghost same: { (t : Tagged) → Self.allows t ≡ P.allows t.frame };
}

impl<P: Protocol<Frame>> TaggedAs<P> for Tags<P> {
    ghost same = { λ _. refl };
}

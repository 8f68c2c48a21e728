// Which items a lane carries.

ghost use Rattle.std.specs.Prelude.{◌≡◌, Bool, true, is_some};

use nk_base::{BackMsg, Entry, MainMsg, UpMsg};
use nk_wire::{Frame, Framed};
use std::marker::PhantomData;

/// Which items a lane carries. This project's own.
pub trait Protocol<T> {
    /// `allows x` says whether `x` may be sent.
    ghost allows: { T → Bool };
}

/// The rule of a lane's ring: each item is one that `P` allows, whatever came before it. This project's own.
#[derive(Clone, Copy)]
pub struct Ruled<P> {
    of: PhantomData<P>,
}

impl<T, P: Protocol<T>> rtrb::Protocol<T> for Ruled<P> {
    ghost allows = { λ _ x. P.allows x ≡ true };
}

/// The frames of the messages of one lane: exactly those that are read as one. This project's own.
#[derive(Clone, Copy)]
pub struct Spelled<M> {
    of: PhantomData<M>,
}

impl<M: Framed> Protocol<Frame> for Spelled<M> {
    ghost allows = { λ frame. is_some (M.read frame) };
}

/// The frames of the main lane.
pub type MainFrames = Spelled<MainMsg>;

/// The frames of the background lane.
pub type BackFrames = Spelled<BackMsg>;

/// The frames of the up lane.
pub type UpFrames = Spelled<UpMsg>;

/// Every entry, as the delivery lane carries them. This project's own.
#[derive(Clone, Copy)]
pub struct AnyEntry;

impl Protocol<Entry> for AnyEntry {
    ghost allows = { λ _. true };
}

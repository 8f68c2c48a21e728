// The frames of many lanes onto one.

ghost use Rattle.std.specs.Prelude.{◌≡◌, ◌≢◌, ℕ, ◌+◌, ◌<◌, ◌++◌, [], ◌∷◌, length, Some, None, slice_get, option_map, map, sum};
ghost use Rattle.std.specs.List.{sum_by};
ghost use Rattle.nk_lane.specs.Ends.{sent_on, taken_from};
ghost use Rattle.nk_shared.specs.Of.{of};

use crate::moves::move_next;
use crate::tagged::{Tagged, Tags};
use nk_base::{Memory, Moved};
use nk_lane::{Protocol, SendEnd, TakeEnd};
use nk_wire::Frame;
use std::alloc::Global;

/// Moves frames from the lanes of many channels onto one lane, each with the id of its channel. What was sent for an id is what
/// was taken from the end of that id, in order. In the place of the sending side of Firefox's PNecko.
#[derive(Drop)]
pub struct Mux<P: Protocol<Frame>> {
    pub(crate) out: SendEnd<Tagged, Tags<P>>,
    pub(crate) ids: Vec<u32>,
    pub(crate) ends: Vec<TakeEnd<Frame, P>>,
    ghost paired: { length ids.items ≡ length ends.items },
    ghost projected: { (i : ℕ) → option_map taken_from (slice_get ends.items i) ≡ option_map (λ id. of id (sent_on out)) (slice_get ids.items i) },
    ghost apart: { (i j id : ℕ) → slice_get ids.items i ≡ Some id → slice_get ids.items j ≡ Some id → i ≡ j },
    ghost unknown: { (id : ℕ) → ((i : ℕ) → slice_get ids.items i ≢ Some id) → of id (sent_on out) ≡ [] },
    ghost counted: { length (sent_on out) ≡ sum_by (λ e. length (taken_from e)) ends.items },
}

impl<P: Protocol<Frame>> Mux<P> {
    ghost use Rattle.std.specs.Prelude.{◌≡◌, ◌≢◌, ℕ, ◌+◌, ◌<◌, ◌++◌, [], ◌∷◌, length, Some, None, slice_get, option_map, map, sum, OnOk, OnErr};
    ghost use Rattle.nk_lane.specs.Ends.{sent_on, send_capacity, taken_from, take_capacity, SameSendEnd};
    ghost use Rattle.nk_shared.specs.Of.{of};
    ghost use Rattle.nk_shared.specs.Turns.{TurnedBy};

    /// A mux with no ends, which sends on `out`.
    pub fn new(alloc: Global, out: SendEnd<Tagged, Tags<P>>) -> Mux<P>
        requires { sent_on out ≡ [] }
        ensures { (result.out ≡ out) × (result.ids.items ≡ []) × (result.ends.items ≡ []) }
    {
        Mux {
            out,
            ids: Vec::new(alloc),
            ends: Vec::new(alloc),
        }
    }

    /// Adds an end under an id that is new, behind the other ends. On want of memory the end is dropped, and the others stay.
    pub fn add(&mut self, id: u32, end: TakeEnd<Frame, P>) -> Result<(), Memory>
        requires new { (i : ℕ) → slice_get self.old.ids.items i ≢ Some id }
        requires untouched { taken_from end ≡ [] }
        ensures out { self.new.out ≡ self.old.out }
        ensures ids { OnOk result (self.new.ids.items ≡ self.old.ids.items ++ id ∷ []) }
        ensures ends { OnOk result (self.new.ends.items ≡ self.old.ends.items ++ end ∷ []) }
        ensures err { OnErr result ((self.new.ids.items ≡ self.old.ids.items) × (self.new.ends.items ≡ self.old.ends.items)) }
    {
        match self.ids.reserve(1) {
            Ok(()) => {}
            Err(_) => return Err(Memory),
        }
        match self.ends.push(end) {
            Ok(()) => {}
            Err(_) => return Err(Memory),
        }
        self.ids.push_reserved(id);
        Ok(())
    }

    /// Moves the next frame of the i-th end, counted from 0 in the order of `add`. `Idle` where the end, after a look, knew of
    /// none, or has given all that it may. It costs the same for any number of ends, and takes no memory.
    pub fn turn(&mut self, i: u32) -> Moved
        requires below { i < length self.old.ends.items }
        requires room { length (sent_on self.old.out) < send_capacity self.old.out }
        ensures turned { TurnedBy result i self.old.ids.items self.old.ends.items self.new.ends.items self.old.out self.new.out }
        ensures ids { self.new.ids.items ≡ self.old.ids.items }
        ensures out_end { SameSendEnd self.old.out self.new.out }
        ensures count { length self.new.ends.items ≡ length self.old.ends.items }
        ensures capacities { map take_capacity self.new.ends.items ≡ map take_capacity self.old.ends.items }
    {
        let id = self.ids[i as usize];
        move_next(id, &mut self.ends[i as usize], &mut self.out)
    }

    /// Where the capacities of the ends add up to less than that of `out`, `out` has room, whatever was moved. It does nothing,
    /// and is called for this fact.
    pub fn has_room(&self)
        requires { sum (map take_capacity self.now.ends.items) < send_capacity self.now.out }
        ensures { length (sent_on self.now.out) < send_capacity self.now.out }
    {}

    /// The ends as they are, those of `add` in its order.
    pub fn into_parts(self) -> (SendEnd<Tagged, Tags<P>>, Vec<TakeEnd<Frame, P>>)
        ensures parts { (result.0 ≡ self.out) × (result.1.items ≡ self.ends.items) }
        ensures projected { (i : ℕ) → option_map taken_from (slice_get result.1.items i) ≡ option_map (λ id. of id (sent_on result.0)) (slice_get self.ids.items i) }
    {
        let Mux { out, ids, ends } = self;
        (out, ends)
    }
}

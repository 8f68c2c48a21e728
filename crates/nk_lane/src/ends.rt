// The two ends of a lane.

ghost use Rattle.std.specs.Prelude.{◌≡◌, ◌+◌, ◌^◌, ◌≤◌, ◌<◌, ◌++◌, length, true};
ghost use Rattle.rtrb.specs.Ring.{sent, received, known_free, producer_capacity, consumer_capacity};
ghost use Rattle.nk_lane.specs.Held.{given, slot_items};

use crate::protocol::{Protocol, Ruled};
use rtrb::{Consumer, Producer};
use std::alloc::Global;
use std::marker::PhantomData;

/// An item that was popped, and is allowed.
#[derive(Drop)]
struct Slot<T, P: Protocol<T>> {
    item: T,
    of: PhantomData<P>,
    ghost allowed: { P.allows item ≡ true },
}

/// The end that sends. One thread at a time holds it. It knows its room by itself, and no other thread changes it. After
/// the sending side of Firefox's IPC channels.
#[derive(Drop)]
pub struct SendEnd<T, P: Protocol<T>> {
    pub(crate) ring: Producer<T, Global, Ruled<P>>,
    // How many more items can be sent.
    room: u32,
    ghost counts: { room + length (sent ring) ≡ producer_capacity ring },
    ghost free: { producer_capacity ring ≤ known_free ring + length (sent ring) },
}

/// The end that takes. One thread at a time holds it. It gives no more items than the lane's capacity, whatever the other end
/// does. After the receiving side of Firefox's IPC channels.
#[derive(Drop)]
pub struct TakeEnd<T, P: Protocol<T>> {
    pub(crate) ring: Consumer<T, Global, Ruled<P>>,
    // The next item, once it was looked at.
    next: Option<Slot<T, P>>,
    // How many more items can be given.
    left: u32,
    ghost counts: { left + length (given next (received ring)) ≡ consumer_capacity ring },
    ghost small: { consumer_capacity ring < 2 ^ 32 },
    ghost split: { received ring ≡ given next (received ring) ++ slot_items (λ s. s.item) next },
}

impl<T: Drop, P: Protocol<T>> SendEnd<T, P> {
    ghost use Rattle.std.specs.Prelude.{◌≡◌, ◌+◌, ◌<◌, ◌++◌, [], ◌∷◌, length, true};
    ghost use Rattle.nk_lane.specs.Ends.{sent_on, send_capacity, SameSendEnd};

    /// The end of a new ring of this capacity.
    pub(crate) fn new(ring: Producer<T, Global, Ruled<P>>, capacity: u32) -> SendEnd<T, P>
        requires { (sent ring ≡ []) × (known_free ring ≡ capacity) × (producer_capacity ring ≡ capacity) }
        ensures { result.ring ≡ ring }
    {
        SendEnd {
            ring,
            room: capacity,
        }
    }

    /// Sends an item, behind all that were sent. It takes no memory, and does not wait.
    pub fn send(&mut self, item: T)
        requires room { length (sent_on self.old) < send_capacity self.old }
        requires allowed { P.allows item ≡ true }
        ensures same { SameSendEnd self.old self.new }
        ensures sent { sent_on self.new ≡ sent_on self.old ++ item ∷ [] }
    {
        self.ring.push_reserved(item);
        self.room -= 1;
    }

    /// How many more items can be sent: the capacity less the number of items that were sent.
    pub fn room(&self) -> u32
        ensures { result + length (sent_on self.now) ≡ send_capacity self.now }
    {
        self.room
    }
}

impl<T: Drop, P: Protocol<T>> TakeEnd<T, P> {
    ghost use Rattle.std.specs.Prelude.{◌≡◌, ◌<◌, ◌++◌, [], ◌∷◌, ⊤, length, IsTrue, IsFalse, IsSome, MatchOption, true};
    ghost use Rattle.std.specs.Borrow.{sem};
    ghost use mathlib.Core.List.{IsPrefix};
    ghost use mathlib.Core.Option.{none};
    ghost use denote.Follow.{follows_so};
    ghost use Rattle.nk_lane.specs.contracts.ends.TakeEnd.{the_row};
    ghost use Rattle.nk_lane.specs.Ends.{taken_from, take_capacity, left_known, SameTakeEnd, IsBare, IsNext};

    /// The end of a new ring of this capacity.
    pub(crate) fn new(ring: Consumer<T, Global, Ruled<P>>, capacity: u32) -> TakeEnd<T, P>
        requires { (received ring ≡ []) × (consumer_capacity ring ≡ capacity) }
        ensures { (result.ring ≡ ring) × (taken_from result ≡ []) }
    {
        TakeEnd {
            ring,
            next: None,
            left: capacity,
        }
    }

    /// Looks for the next item, and keeps it in the slot.
    fn look(&mut self) -> bool
        ensures same { SameTakeEnd self.old self.new }
        ensures taken { taken_from self.new ≡ taken_from self.old }
        ensures found { IsTrue result → IsSome self.new.next }
        ensures bare { IsFalse result → IsBare self.new }
        ensures left { IsTrue result → length (taken_from self.new) < take_capacity self.new }
        ensures known { IsPrefix (left_known self.old) (left_known self.new) }
    {
        if self.left == 0 {
            return false;
        }
        if self.next.is_some() {
            return true;
        }
        match self.ring.pop() {
            Ok(item) => {
                self.next = Some(Slot {
                    item,
                    of: PhantomData,
                });
                true
            }
            Err(_) => false,
        }
    }

    /// The next item, which stays. `None` where this look knew of none, or all were given that can be sent; another thread
    /// may have sent one by then.
    pub fn peek(&mut self) -> Option<&T>
        ensures* after { sem 𝓛 (follows_so (the_row T.row P.row P.Protocol) (the_row T.row P.row P.Protocol) self.entry.ghost_name none (λ _ _. ⊤) (λ n. SameTakeEnd self.old n × (taken_from n ≡ taken_from self.old) × MatchOption result (IsBare n) (λ r. IsNext n r.now))) }
        ensures allowed { MatchOption result ⊤ (λ r. P.allows r.now ≡ true) }
    {
        if !self.look() {
            return None;
        }
        match &self.next {
            Some(slot) => Some(&slot.item),
            None => None,
        }
    }

    /// Takes the next item. `None` as for `peek`.
    pub fn take(&mut self) -> Option<T>
        ensures same { SameTakeEnd self.old self.new }
        ensures taken { MatchOption result (taken_from self.new ≡ taken_from self.old) (λ x. taken_from self.new ≡ taken_from self.old ++ x ∷ []) }
        ensures bare { MatchOption result (IsBare self.new) (λ x. P.allows x ≡ true) }
        // What was seen is what is taken.
        ensures next { (x : T) → IsNext self.old x → taken_from self.new ≡ taken_from self.old ++ x ∷ [] }
        ensures known { 0 < length (left_known self.old) → length (taken_from self.old) < take_capacity self.old → IsSome result }
    {
        if !self.look() {
            return None;
        }
        match self.next.take() {
            Some(slot) => {
                self.left -= 1;
                Some(slot.item)
            }
            None => None,
        }
    }
}

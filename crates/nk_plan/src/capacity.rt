// How many items the rings of a channel's lanes hold: as many as can be sent on each in all, and room for one step more.

ghost use Rattle.std.specs.Prelude.{◌≡◌, ◌≤◌, length};
ghost use Rattle.nk_plan.specs.Accepted.{body_of};
ghost use Rattle.nk_plan.specs.Capacity.{main_capacity, inner_capacity, back_capacity, delivery_capacity, up_capacity};

use crate::accept::body_pieces;
use crate::plan::ChannelPlan;

impl ChannelPlan {
    /// The capacity of the main lane's ring, in messages. This project's own.
    pub fn main_capacity(&self) -> u32
        ensures { result ≡ main_capacity self.now }
    {
        2 * self.hop_count() + 2
    }

    /// The capacity of the ring from a parent to its background half, in messages. This project's own.
    pub fn inner_capacity(&self) -> u32
        ensures { result ≡ inner_capacity self.now }
    {
        self.piece_count() + 4
    }

    /// The capacity of the background lane's ring, in messages. This project's own.
    pub fn back_capacity(&self) -> u32
        ensures { result ≡ back_capacity self.now }
    {
        self.piece_count() + 5
    }

    /// The capacity of the ring from a child to its listener, in entries. This project's own.
    pub fn delivery_capacity(&self) -> u32
        ensures { result ≡ delivery_capacity self.now }
    {
        4 * self.hop_count() + self.piece_count() + 16
    }

    /// The capacity of the up lane's ring, in messages. This project's own.
    pub fn up_capacity(&self) -> u32
        ensures { result ≡ up_capacity self.now }
    {
        4 * self.hop_count() + self.piece_count() + 2 * self.control_count() + 24
    }

    /// The number of hops.
    fn hop_count(&self) -> u32
        ensures count { result ≡ length self.now.hops }
        ensures few { result ≤ 32 }
    {
        self.hops.len() as u32
    }

    /// The number of pieces of the body.
    fn piece_count(&self) -> u32
        ensures count { result ≡ length (body_of self.now) }
        ensures few { result ≤ 65536 }
    {
        body_pieces(self.hops.as_slice()).len() as u32
    }

    /// The number of calls of the page.
    fn control_count(&self) -> u32
        ensures count { result ≡ length self.now.controls }
        ensures few { result ≤ 64 }
    {
        self.controls.len() as u32
    }
}

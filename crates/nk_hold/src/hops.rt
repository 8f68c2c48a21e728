// The hops that a hold has released.

ghost use Rattle.std.specs.Prelude.{◌≡◌, ◌≤◌, [], ◌∷◌};
ghost use Rattle.nk_base.specs.Hold.{is_among, with_hop};

use std::marker::Model;

/// Hops from 0 to 32, each once, in the order they were added. They take no memory.
#[derive(Drop)]
pub(crate) struct Hops {
    places: [u32; 33],
    count: usize,
}

impl Model for Hops {
    ghost use Rattle.std.specs.Prelude.{List, ℕ, take};
    ghost use Rattle.nk_hold.specs.Hops.{AreHops};

    ghost Value = { List ℕ };

    ghost view = { λ s. take s.count s.places };

    ghost invariant = { λ s. AreHops s.count (take s.count s.places) };
}

impl Hops {
    /// No hop.
    pub(crate) fn new() -> Hops
        ensures { result ≡ [] }
    {
        Hops {
            places: [0; 33],
            count: 0,
        }
    }

    /// Hop 0.
    pub(crate) fn first() -> Hops
        ensures { result ≡ 0 ∷ [] }
    {
        Hops {
            places: [0; 33],
            count: 1,
        }
    }

    /// Whether the hop is one of them.
    pub(crate) fn contains(&self, hop: u32) -> bool
        ensures { result ≡ is_among self.now hop }
    {
        self.places[..self.count].contains(&hop)
    }

    /// Adds the hop, where it is not one of them.
    pub(crate) fn insert(&mut self, hop: u32)
        requires { hop ≤ 32 }
        ensures { self.new ≡ with_hop hop self.old }
    {
        if self.contains(hop) {
            return;
        }
        self.places[self.count] = hop;
        self.count += 1;
    }
}

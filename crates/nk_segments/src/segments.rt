// The chain of segments.

ghost use Rattle.std.specs.Prelude.{◌≡◌, ◌+◌, ◌<◌, ◌≤◌, ◌++◌, [], ◌∷◌, IfOk, IfSome, OnErr, Some, None, length, replicate};
ghost use Rattle.nk_chain.specs.Chain.{item_at, place_after, IsLive};
ghost use Rattle.nk_segments.specs.Segments.{raised, lowered, with_bytes, changed_at, changed_from, since, needed, AreBelowEight, AreHeld, AreSegments};

use crate::segment::Segment;
use crate::walk::{give_back, lower_from, raise_from};
use nk_base::Memory;
use nk_chain::{Chain, Place};
use std::alloc::Global;
use std::marker::Model;

/// Segments of one size in order, each with its place, its bytes and its count of readers. After the segments of
/// Firefox's nsPipe in outline; the counts are this project's own.
#[derive(Drop)]
pub struct Segments {
    chain: Chain<Segment>,
    size: u32,
    alloc: Global,
}

impl Model for Segments {
    ghost use Rattle.nk_segments.specs.Segments.{Segments as Counted};

    ghost Value = { Counted };

    ghost use Rattle.nk_segments.specs.Segments.{AreSegments};

    ghost view = { λ s. record { size = s.size; segments = s.chain.items } };

    ghost invariant = { λ s. AreSegments s.size s.chain.items };
}

impl Segments {
    /// No segment yet; each will have `size` bytes.
    pub fn new(alloc: Global, size: u32) -> Self
        ensures { result ≡ record { size = size; segments = [] } }
    {
        Segments {
            chain: Chain::new(alloc),
            size,
            alloc,
        }
    }

    /// Adds a segment of zeros behind the last one, with this count, and gives its place. `Memory` changes nothing.
    pub fn add_back(&mut self, readers: u32) -> Result<Place, Memory>
        requires { readers ≤ 8 }
        ensures fresh { IfOk result (λ p. item_at self.old.segments p ≡ None) }
        ensures added { IfOk result (λ p. self.new ≡ record self.old {
          segments = self.old.segments ++ (p, record { bytes = replicate self.old.size 0; readers = readers }) ∷ [];
        }) }
        ensures told { AreSegments self.new.size self.new.segments }
        ensures err { OnErr result (self.new ≡ self.old) }
    {
        let segment = Segment::new(self.alloc, self.size, readers)?;
        match self.chain.reserve(1) {
            Ok(()) => Ok(self.chain.push_back(segment)),
            Err(_) => Err(Memory),
        }
    }

    /// Puts bytes into this segment from `at` on.
    pub fn put(&mut self, place: Place, at: u32, bytes: &[u8])
        requires live { IsLive self.old.segments place }
        requires fits { at + length bytes.now ≤ self.old.size }
        ensures put { self.new ≡ record self.old {
          segments = changed_at (with_bytes at bytes.now) self.old.segments place;
        } }
        ensures told { AreSegments self.new.size self.new.segments }
    {
        self.chain.get_mut(place).put(at, bytes);
    }

    /// The bytes of this segment.
    pub fn bytes(&self, place: Place) -> &[u8]
        requires { IsLive self.now.segments place }
        ensures bytes { IfSome (item_at self.now.segments place) (λ s. result.now ≡ s.bytes) }
        ensures size { length result.now ≡ self.now.size }
        ensures told { AreSegments self.now.size self.now.segments }
    {
        self.chain.get(place).bytes()
    }

    /// The place of the segment behind this one, `None` exactly where this is the last.
    pub fn next(&self, place: Place) -> Option<Place>
        requires { IsLive self.now.segments place }
        ensures { result ≡ place_after self.now.segments place }
    {
        self.chain.next(place)
    }

    /// One more reader stands in this segment: raises the counts from it on.
    pub fn hold(&mut self, place: Place)
        requires live { IsLive self.old.segments place }
        requires below { AreBelowEight (since self.old.segments place) }
        ensures raised { self.new ≡ record self.old { segments = changed_from raised self.old.segments place } }
        ensures told { AreSegments self.new.size self.new.segments }
    {
        raise_from(&mut self.chain, place);
    }

    /// A reader has left this segment for the next: lowers its count, and gives the segments at the front back while
    /// the first has count 0.
    pub fn leave(&mut self, place: Place)
        requires live { IsLive self.old.segments place }
        requires held { IfSome (item_at self.old.segments place) (λ s. 0 < s.readers) }
        ensures kept { self.new ≡ record self.old { segments = needed (changed_at lowered self.old.segments place) } }
        ensures told { AreSegments self.new.size self.new.segments }
    {
        self.chain.get_mut(place).lower();
        give_back(&mut self.chain);
    }

    /// A reader that stands in this segment is closed: lowers the counts from it on, and gives the segments at the
    /// front back while the first has count 0.
    pub fn release(&mut self, place: Place)
        requires live { IsLive self.old.segments place }
        requires held { AreHeld (since self.old.segments place) }
        ensures kept { self.new ≡ record self.old {
          segments = needed (changed_from lowered self.old.segments place);
        } }
        ensures told { AreSegments self.new.size self.new.segments }
    {
        lower_from(&mut self.chain, place);
        give_back(&mut self.chain);
    }
}

//! A list whose nodes stand in a slab and are linked by index in both directions, so that an item
//! keeps its place while others come and go. The waiting list of the event queue and the segments
//! of the pipe are chains. This project's own, after the deque of slab indices that h2 keeps the
//! frames of its streams in.
#![tactic(auto)]

ghost use Rattle.std.specs.Prelude.{◌≡◌, ◌+◌, ◌-◌, ◌<◌, ◌≤◌, [], ◌∷◌, ◌++◌, ◌↔◌, length, IsTrue, Some, None, OnOk, OnErr};
ghost use Rattle.std.specs.Borrow.{sem};
ghost use Rattle.nk_chain.specs.Chain.{first_place, item_at, place_after, IsLive, PlacesDiffer, PopsFront};

use slab::Slab;
use std::alloc::{AllocError, Global};
use std::marker::Model;

/// Where an item stands, as its key in the slab. An item keeps its place until it is popped, and only then
/// may the place be given again. This project's own.
#[derive(Clone, Copy, Debug, PartialEq, Eq)]
pub struct Place(usize);

/// An item with its links.
#[derive(Drop)]
struct Node<T> {
    before: Option<Place>,
    after: Option<Place>,
    item: T,
}

/// A list with stable places, seen as the list of pairs of a place and an item, and the number of pushes that
/// need no memory. This project's own.
#[derive(Drop)]
pub struct Chain<T> {
    nodes: Slab<Node<T>>,
    first: Option<Place>,
    last: Option<Place>,
    spare: usize,
}

impl<T> Model for Chain<T> {
    ghost use Rattle.nk_chain.specs.Chain.{Chain as Placed};

    ghost Value = { Placed T };

    ghost use Rattle.nk_chain.specs.Links.{listed, IsChain};

    ghost view = { λ c. record { items = listed c.nodes c.first; spare = c.spare } };

    ghost invariant = { λ c. IsChain c.nodes c.first c.last c.spare (listed c.nodes c.first) };
}

impl<T> Chain<T> {
    ghost use Rattle.nk_chain.specs.Lends.{lends_item};

    /// An empty list with room for none.
    pub fn new(alloc: Global) -> Self
        ensures { result ≡ record { items = []; spare = 0 } }
    {
        Chain {
            nodes: Slab::new(alloc),
            first: None,
            last: None,
            spare: 0,
        }
    }

    /// Makes room for `n` items, and is the only call that takes memory.
    pub fn reserve(&mut self, n: usize) -> Result<(), AllocError>
        ensures items { self.new.items ≡ self.old.items }
        ensures room { OnOk result (n ≤ self.new.spare) }
        ensures grows { self.old.spare ≤ self.new.spare }
        ensures err { OnErr result (self.new ≡ self.old) }
    {
        self.nodes.reserve(n)?;
        self.spare = self.nodes.capacity() - self.nodes.len();
        Ok(())
    }

    /// The number of items.
    pub fn len(&self) -> usize
        ensures { result ≡ length self.now.items }
    {
        self.nodes.len()
    }

    /// Whether there is no item.
    pub fn is_empty(&self) -> bool
        ensures { IsTrue result ↔ (self.now.items ≡ []) }
    {
        self.first.is_none()
    }

    /// Puts an item behind the last one.
    pub fn push_back(&mut self, item: T) -> Place
        requires { 0 < self.old.spare }
        ensures fresh { item_at self.old.items result ≡ None }
        ensures items { self.new.items ≡ self.old.items ++ (result, item) ∷ [] }
        ensures distinct { PlacesDiffer self.new.items }
        ensures spare { self.new.spare ≡ self.old.spare - 1 }
    {
        let place = Place(
            self.nodes.insert_reserved(Node {
                before: self.last,
                after: None,
                item,
            }),
        );
        match self.last {
            Some(last) => self.nodes[last.0].after = Some(place),
            None => self.first = Some(place),
        }
        self.last = Some(place);
        self.spare -= 1;
        place
    }

    /// Puts an item before the first one.
    pub fn push_front(&mut self, item: T) -> Place
        requires { 0 < self.old.spare }
        ensures fresh { item_at self.old.items result ≡ None }
        ensures items { self.new.items ≡ (result, item) ∷ self.old.items }
        ensures distinct { PlacesDiffer self.new.items }
        ensures spare { self.new.spare ≡ self.old.spare - 1 }
    {
        let place = Place(
            self.nodes.insert_reserved(Node {
                before: None,
                after: self.first,
                item,
            }),
        );
        match self.first {
            Some(first) => self.nodes[first.0].before = Some(place),
            None => self.last = Some(place),
        }
        self.first = Some(place);
        self.spare -= 1;
        place
    }

    /// Takes the first item out, `None` exactly where there is none.
    pub fn pop_front(&mut self) -> Option<T>
        ensures { PopsFront self.old result self.new }
    {
        let Place(key) = self.first?;
        let Node {
            before: _,
            after,
            item,
        } = self.nodes.remove(key);
        match after {
            Some(next) => self.nodes[next.0].before = None,
            None => self.last = None,
        }
        self.first = after;
        self.spare += 1;
        Some(item)
    }

    /// Drops all items, and keeps their room.
    pub fn clear(&mut self)
    where
        T: Drop,
        ensures items { self.new.items ≡ [] }
        ensures spare { self.new.spare ≡ self.old.spare + length self.old.items }
    {
        self.spare += self.nodes.len();
        self.nodes.clear();
        self.first = None;
        self.last = None;
    }

    /// The place of the first item, `None` exactly where there is none.
    pub fn first(&self) -> Option<Place>
        ensures place { result ≡ first_place self.now.items }
        ensures distinct { PlacesDiffer self.now.items }
    {
        self.first
    }

    /// The place of the item behind the one at `place`, `None` exactly where that is the last.
    pub fn next(&self, place: Place) -> Option<Place>
        requires { IsLive self.now.items place }
        ensures { result ≡ place_after self.now.items place }
    {
        self.nodes[place.0].after
    }

    /// The item at `place`.
    pub fn get(&self, place: Place) -> &T
        requires { IsLive self.now.items place }
        ensures { item_at self.now.items place ≡ Some result.now }
    {
        &self.nodes[place.0].item
    }

    /// The item at `place` for writing.
    pub fn get_mut(&mut self, place: Place) -> &mut T
        requires { IsLive self.old.items place }
        ensures* writes_back { sem 𝓛 (lends_item T.row self.entry place result) }
        ensures value { item_at self.old.items place ≡ Some result.now }
    {
        &mut self.nodes[place.0].item
    }
}

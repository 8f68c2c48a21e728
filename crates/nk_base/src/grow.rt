// A list whose room is told, for those that take all their memory before they change anything.

ghost use Rattle.std.specs.Prelude.{◌≡◌, ◌++◌, ◌∷◌, ◌<◌, ◌≤◌, ◌-◌, [], length, slice_get, vec_len, vec_capacity, OnOk, OnErr, Some};

use crate::status::Memory;
use std::alloc::Global;
use std::marker::Model;

/// A list, and the number of items for which there is room behind it. This project's own.
#[derive(Drop)]
pub struct Grow<T> {
    items: Vec<T>,
}

impl<T> Model for Grow<T> {
    ghost use Rattle.std.specs.Prelude.{◌-◌, vec_len, vec_capacity};
    ghost use Rattle.nk_base.specs.Growing.{Growing};

    ghost Value = { Growing T };

    ghost view = { λ s. record { items = s.items.items; room = vec_capacity s.items - vec_len s.items } };
}

impl<T> Grow<T> {
    /// The empty list.
    pub fn new(alloc: Global) -> Self
        ensures { result.items ≡ [] }
    {
        Grow {
            items: Vec::new(alloc),
        }
    }

    /// The list of a vector, with the room that it has.
    pub fn from_vec(items: Vec<T>) -> Self
        ensures items { result.items ≡ items.items }
        ensures room { result.room ≡ vec_capacity items - vec_len items }
    {
        Grow { items }
    }

    /// The same list, as a vector, with the room that it has.
    pub fn into_vec(self) -> Vec<T>
        ensures items { result.items ≡ self.items }
        ensures room { self.room ≡ vec_capacity result - vec_len result }
    {
        self.items
    }

    /// Makes room for n items. On want of memory the list is as before, with the room that it had.
    pub fn reserve(&mut self, n: usize) -> Result<(), Memory>
        ensures items { self.new.items ≡ self.old.items }
        ensures room { OnOk result (n ≤ self.new.room) }
        ensures err { OnErr result (self.new ≡ self.old) }
    {
        match self.items.reserve(n) {
            Ok(()) => Ok(()),
            Err(_) => Err(Memory),
        }
    }

    /// Adds an item in the room behind the list.
    pub fn push(&mut self, item: T)
        requires { 0 < self.old.room }
        ensures { self.new ≡ record { items = self.old.items ++ item ∷ []; room = self.old.room - 1 } }
    {
        self.items.push_reserved(item);
    }

    /// Adds items in the room behind the list, all at once.
    pub fn extend(&mut self, items: &[T])
    where
        T: Copy,
        requires { length items.now ≤ self.old.room }
        ensures { self.new ≡ record { items = self.old.items ++ items.now; room = self.old.room - length items.now } }
    {
        for &item in items {
            self.push(item);
        }
    }

    /// The number of items.
    pub fn len(&self) -> usize
        ensures { result ≡ length self.now.items }
    {
        self.items.len()
    }

    /// The item at i, counted from 0.
    pub fn get(&self, i: usize) -> &T
        requires { i < length self.now.items }
        ensures { slice_get self.now.items i ≡ Some result.now }
    {
        &self.items[i]
    }

    /// The items.
    pub fn as_slice(&self) -> &[T]
        ensures { result.now ≡ self.now.items }
    {
        self.items.as_slice()
    }
}

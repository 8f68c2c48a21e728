// Lists: one that grows at its end, and one that is shared by all that hold it.

ghost use Rattle.std.specs.Prelude.{◌≡◌, ◌++◌, ◌∷◌, ◌<◌, ◌↔◌, [], length, slice_get, IsTrue, IfOk, OnOk, OnErr, Some};
ghost use Rattle.std.specs.Arc.{arc_value};
ghost use Rattle.nk_base.specs.Lists.{IsAdded};

use crate::grow::Grow;
use crate::status::Memory;
use std::alloc::Global;
use std::marker::Model;
use std::sync::Arc;

/// A list that grows at its end. This project's own.
#[derive(Drop)]
pub struct Items<T> {
    items: Vec<T>,
}

impl<T> Model for Items<T> {
    ghost use Rattle.std.specs.Prelude.{List};

    ghost Value = { List T };

    ghost view = { λ s. s.items.items };
}

impl<T: Drop> Items<T> {
    /// The empty list.
    pub fn new(alloc: Global) -> Items<T>
        ensures { result ≡ [] }
    {
        Items {
            items: Vec::new(alloc),
        }
    }

    /// Adds an item behind the others. On want of memory the list is as before.
    pub fn push(&mut self, item: T) -> Result<(), Memory>
        ensures ok { OnOk result (self.new ≡ self.old ++ item ∷ []) }
        ensures err { OnErr result (self.new ≡ self.old) }
    {
        match self.items.push(item) {
            Ok(()) => Ok(()),
            Err(_) => Err(Memory),
        }
    }

    /// The number of items.
    pub fn len(&self) -> usize
        ensures { result ≡ length self.now }
    {
        self.items.len()
    }

    /// Item i, counted from 0.
    pub fn get(&self, i: usize) -> &T
        requires { i < length self.now }
        ensures { slice_get self.now i ≡ Some result.now }
    {
        &self.items[i]
    }

    /// All items, in order.
    pub fn as_slice(&self) -> &[T]
        ensures { result.now ≡ self.now }
    {
        self.items.as_slice()
    }

    /// The same list, as one whose room can be told.
    pub fn into_grow(self) -> Grow<T>
        ensures { result.items ≡ self }
    {
        Grow::from_vec(self.items)
    }

    /// The same list, whatever room it has.
    pub fn from_grow(items: Grow<T>) -> Items<T>
        ensures { result ≡ items.items }
    {
        Items {
            items: items.into_vec(),
        }
    }
}

/// A list of bytes that grows. This project's own.
pub type ByteList = Items<u8>;

impl Items<u8> {
    /// Adds bytes behind the list. On want of memory the list is as before.
    pub fn extend(&mut self, bytes: &[u8]) -> Result<(), Memory>
        ensures ok { OnOk result (self.new ≡ self.old ++ bytes.now) }
        ensures err { OnErr result (self.new ≡ self.old) }
    {
        match self.items.extend_from_slice(bytes) {
            Ok(()) => Ok(()),
            Err(_) => Err(Memory),
        }
    }
}

/// What may stand in a list that is shared. This project's own.
pub trait Share: Drop {
    /// An equal value, over the same bytes.
    fn shared(&self) -> Result<Self, Memory>
        ensures { IfOk result (λ r. r ≡ self.now) };

    /// Whether the two are equal.
    fn is(&self, other: &Self) -> bool
        ensures { IsTrue result ↔ (self.now ≡ other.now) };
}

/// A list that is shared by all that hold it: an equal one costs no copy. Its only holder adds to it in place; where
/// others hold it too, what is added goes to a copy, and theirs stay as they are. This project's own.
#[derive(Drop)]
pub struct Shared<T> {
    alloc: Global,
    // None where the list is empty, so that no memory is taken for it.
    list: Option<Arc<Items<T>, Global>>,
}

impl<T> Model for Shared<T> {
    ghost use Rattle.std.specs.Prelude.{List, option_map};
    ghost use Rattle.std.specs.Arc.{arc_value};
    ghost use Rattle.nk_base.specs.Lists.{items_of};

    ghost Value = { List T };

    ghost view = { λ s. items_of (option_map arc_value s.list) };
}

impl<T: Share> Shared<T> {
    /// The empty list.
    pub fn new(alloc: Global) -> Shared<T>
        ensures { result ≡ [] }
    {
        Shared { alloc, list: None }
    }

    /// Adds an item behind the others. On want of memory the list is as before.
    pub fn push(&mut self, item: T) -> Result<(), Memory>
        ensures ok { OnOk result (self.new ≡ self.old ++ item ∷ []) }
        ensures err { OnErr result (self.new ≡ self.old) }
    {
        match self.list.take() {
            Some(mut list) => {
                let added = add(self.alloc, &mut list, item);
                self.list = Some(list);
                added
            }
            None => {
                let mut items = Items::new(self.alloc);
                items.push(item)?;
                self.list = Some(one_holder(self.alloc, items)?);
                Ok(())
            }
        }
    }

    /// The number of items.
    pub fn len(&self) -> usize
        ensures { result ≡ length self.now }
    {
        match &self.list {
            Some(list) => list.len(),
            None => 0,
        }
    }

    /// Item i, counted from 0.
    pub fn get(&self, i: usize) -> &T
        requires { i < length self.now }
        ensures { slice_get self.now i ≡ Some result.now }
    {
        &self.as_slice()[i]
    }

    /// All items, in order.
    pub fn as_slice(&self) -> &[T]
        ensures { result.now ≡ self.now }
    {
        match &self.list {
            Some(list) => list.as_slice(),
            None => &[],
        }
    }

    /// The same list, with one holder more.
    pub fn share(&self) -> Result<Shared<T>, Memory>
        ensures { IfOk result (λ r. r ≡ self.now) }
    {
        let alloc = self.alloc;
        match &self.list {
            Some(list) => match Arc::try_clone(list) {
                Ok(list) => Ok(Shared {
                    alloc,
                    list: Some(list),
                }),
                Err(_) => Err(Memory),
            },
            None => Ok(Shared { alloc, list: None }),
        }
    }

    /// Whether the two have equal items, in the same order.
    pub fn same(&self, other: &Shared<T>) -> bool
        ensures { IsTrue result ↔ (self.now ≡ other.now) }
    {
        are_same(self.as_slice(), other.as_slice())
    }
}

/// The list, with one holder.
fn one_holder<T: Drop>(alloc: Global, items: Items<T>) -> Result<Arc<Items<T>, Global>, Memory>
    ensures { IfOk result (λ r. arc_value r ≡ items) }
{
    match Arc::new(alloc, items) {
        Ok(list) => Ok(list),
        Err(_) => Err(Memory),
    }
}

/// Adds an item behind the others, to a copy of them where others hold the list too.
fn add<T: Share>(alloc: Global, list: &mut Arc<Items<T>, Global>, item: T) -> Result<(), Memory>
    ensures ok { OnOk result (arc_value list.new ≡ arc_value list.old ++ item ∷ []) }
    ensures err { OnErr result (arc_value list.new ≡ arc_value list.old) }
{
    match add_alone(list, item) {
        Ok(None) => Ok(()),
        Ok(Some(item)) => {
            let mut copy = copied(alloc, list.as_slice())?;
            copy.push(item)?;
            *list = one_holder(alloc, copy)?;
            Ok(())
        }
        Err(memory) => Err(memory),
    }
}

/// Adds an item behind the others, and gives it back where others hold the list too.
fn add_alone<T: Drop>(list: &mut Arc<Items<T>, Global>, item: T) -> Result<Option<T>, Memory>
    ensures { IsAdded (arc_value list.old) item result (arc_value list.new) }
{
    match Arc::get_mut(list) {
        Some(items) => match items.push(item) {
            Ok(()) => Ok(None),
            Err(memory) => Err(memory),
        },
        None => Ok(Some(item)),
    }
}

/// A list of shares of these items.
fn copied<T: Share>(alloc: Global, items: &[T]) -> Result<Items<T>, Memory>
    ensures { IfOk result (λ r. r ≡ items.now) }
{
    let mut all = Items::new(alloc);
    for item in items {
        all.push(item.shared()?)?;
    }
    Ok(all)
}

/// Whether the two have equal items, in the same order.
fn are_same<T: Share>(one: &[T], other: &[T]) -> bool
    ensures { IsTrue result ↔ (one.now ≡ other.now) }
{
    let length = one.len();
    if length != other.len() {
        return false;
    }
    for i in 0..length {
        if !one[i].is(&other[i]) {
            return false;
        }
    }
    true
}

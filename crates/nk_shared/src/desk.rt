// Items under ids.

ghost use Rattle.std.specs.Prelude.{◌≡◌, ℕ, ◌≤◌, Some, None, is_some, true};
ghost use Rattle.std.specs.Ordering.{nat_cmp};
ghost use Rattle.std.specs.BTreeMap as tree;
ghost use Rattle.slab.specs.Slab as slab;

use nk_base::Memory;
use slab::Slab;
use std::alloc::Global;
use std::collections::BTreeMap;

/// No live item has this id: it was never given, or has left. This project's own.
#[derive(Clone, Copy, Debug, Drop, PartialEq, Eq)]
pub struct Stray {
    /// The id that was asked for.
    pub id: u32,
}

/// Items under ids that are never given twice: an id is the number of items that were entered before it. An ordered map
/// keeps where in the slab the item of each live id lies, so a look-up costs what one in such a map does. After the map of
/// actors of Firefox's IToplevelProtocol.
#[derive(Drop)]
pub struct Desk<T> {
    items: Slab<T>,
    // The key in the slab of each live id.
    keys: BTreeMap<u32, usize>,
    // How many ids were given, which is the next one.
    given: u32,
    ghost fresh: { (id : ℕ) → given ≤ id → tree.get nat_cmp keys id ≡ None },
    ghost apart: { (a b key : ℕ) → tree.get nat_cmp keys a ≡ Some key → tree.get nat_cmp keys b ≡ Some key → a ≡ b },
    ghost seated: { (id key : ℕ) → tree.get nat_cmp keys id ≡ Some key → is_some (slab.get items key) ≡ true },
}

impl<T: Drop> Desk<T> {
    ghost use Rattle.std.specs.Prelude.{◌≡◌, ◌≢◌, ℕ, ◌+◌, ◌<◌, ◌≤◌, Some, None, is_some, IfOk, OnOk, OnErr, IfErr, IsOk};
    ghost use Rattle.std.specs.Borrow.{sem};
    ghost use Rattle.nk_shared.specs.Live.{item_at, given_ids, Updates, SameDesk};
    ghost use Rattle.nk_shared.specs.Lending.{LendsItem};

    /// A desk with no items, of which no id was given.
    pub fn new(alloc: Global) -> Desk<T>
        ensures given { given_ids result ≡ 0 }
        ensures empty { (id : ℕ) → item_at result id ≡ None }
    {
        Desk {
            items: Slab::new(alloc),
            keys: BTreeMap::new(alloc),
            given: 0,
        }
    }

    /// Gives the item a new id, which is the number of ids that were given before. On want of memory the item is dropped, and
    /// the desk has the same items.
    pub fn enter(&mut self, item: T) -> Result<u32, Memory>
        requires { given_ids self.old < 4294967295 }
        ensures id { IfOk result (λ id. id ≡ given_ids self.old) }
        ensures given { OnOk result (given_ids self.new ≡ given_ids self.old + 1) }
        ensures updates { IfOk result (λ id. Updates self.old self.new id (Some item)) }
        ensures err { OnErr result (SameDesk self.old self.new) }
        ensures never_given { (id : ℕ) → given_ids self.old ≤ id → item_at self.old id ≡ None }
    {
        match self.items.reserve(1) {
            Ok(()) => {}
            Err(_) => return Err(Memory),
        }
        let id = self.given;
        let key = self.items.vacant_key();
        match self.keys.insert(id, key) {
            Ok(_) => {}
            Err(_) => return Err(Memory),
        }
        self.items.insert_reserved(item);
        self.given += 1;
        Ok(id)
    }

    /// The item of a live id, for writing. `Stray` exactly where the id is not live. It takes no memory.
    pub fn slot(&mut self, id: u32) -> Result<&mut T, Stray>
        ensures* writes_back { sem 𝓛 (LendsItem T.row self.entry id result) }
        ensures ok { IfOk result (λ item. item_at self.old id ≡ Some item.now) }
        ensures err { IfErr result (λ stray. (stray.id ≡ id) × (item_at self.old id ≡ None)) }
    {
        match self.keys.get(&id) {
            Some(key) => {
                let key = *key;
                Ok(&mut self.items[key])
            }
            None => Err(Stray { id }),
        }
    }

    /// Takes the item of a live id out. The id is never given again. `Stray`, with nothing changed, exactly where the id is not
    /// live. It takes no memory.
    pub fn leave(&mut self, id: u32) -> Result<T, Stray>
        ensures given { given_ids self.new ≡ given_ids self.old }
        ensures ok { IfOk result (λ item. item_at self.old id ≡ Some item) }
        ensures updates { OnOk result (Updates self.old self.new id None) }
        ensures err { IfErr result (λ stray. (stray.id ≡ id) × (item_at self.old id ≡ None)) }
        ensures stays { OnErr result (SameDesk self.old self.new) }
    {
        match self.keys.remove(&id) {
            Some(key) => Ok(self.items.remove(key)),
            None => Err(Stray { id }),
        }
    }
}

// Where a part sends its messages, and the list in memory that takes them.

ghost use Rattle.std.specs.Prelude.{◌≡◌, ◌++◌, ◌∷◌, ◌<◌, ◌-◌, ◌+◌, [], List, ℕ, length, drop, slice_get, IfSome, OnOk, OnErr};
ghost use Rattle.std.specs.Option.{option_copied};
ghost use Rattle.nk_base.specs.Outs.{OutParts};

use crate::status::Memory;
use std::alloc::Global;
use std::collections::VecDeque;
use std::marker::Model;

/// A message whose fields have ranges. This project's own.
pub trait Ranged {
    /// The message is in range.
    ghost IsInRange: { Self → Type 0 };
}

/// Where a part sends messages: first it makes them ready, which may want memory, and then it sends or drops all that
/// is ready, which cannot fail. So a step that finds no memory has sent nothing. This project's own.
pub trait Out<M: Ranged> {
    /// What was sent: of a list in memory, what was not taken yet; of a lane's sending end, all of it.
    ghost held: { Self → List M };

    /// What is ready to be sent.
    ghost staged: { Self → List M };

    /// For how many more messages there is room.
    ghost room: { Self → ℕ };

    /// Makes a message ready. On `Memory` nothing changed, and the message is dropped.
    fn stage(&mut self, m: M) -> Result<(), Memory>
        requires room { 0 < room self.old }
        requires in_range { M.IsInRange m }
        ensures held { held self.new ≡ held self.old }
        ensures staged { OnOk result (staged self.new ≡ staged self.old ++ m ∷ []) }
        ensures room { OnOk result (room self.new + 1 ≡ room self.old) }
        ensures err_staged { OnErr result (staged self.new ≡ staged self.old) }
        ensures err_room { OnErr result (room self.new ≡ room self.old) };

    /// Sends all that is ready, in order.
    fn send_staged(&mut self)
        ensures held { held self.new ≡ held self.old ++ staged self.old }
        ensures staged { staged self.new ≡ [] }
        ensures room { room self.new ≡ room self.old };

    /// Drops all that is ready.
    fn drop_staged(&mut self)
        ensures held { held self.new ≡ held self.old }
        ensures staged { staged self.new ≡ [] }
        ensures room { room self.new ≡ room self.old + length (staged self.old) };
}

/// A list in memory, whose messages are all in range. This project's own.
#[derive(Drop)]
pub struct OutList<M: Ranged> {
    // What was sent and not taken, and behind it what is ready.
    items: VecDeque<M>,
    // How many of the items were sent.
    sent: usize,
}

impl<M: Ranged> Model for OutList<M> {
    ghost use Rattle.std.specs.Prelude.{take, drop};
    ghost use Rattle.nk_base.specs.Outs.{OutParts, IsOutList};

    ghost Value = { OutParts M };

    ghost view = { λ s. record { held = take s.sent s.items.items; staged = drop s.sent s.items.items } };

    ghost invariant = { λ s. IsOutList M.IsInRange s.sent s.items.items };
}

impl<M: Ranged> OutList<M> {
    /// The empty list.
    pub fn new(alloc: Global) -> Self
        ensures { result ≡ record { held = []; staged = [] } }
    {
        OutList {
            items: VecDeque::new(alloc),
            sent: 0,
        }
    }

    /// The first message that was sent and not taken.
    pub fn first(&self) -> Option<&M>
        ensures first { option_copied result ≡ slice_get self.now.held 0 }
        ensures in_range { IfSome (option_copied result) (λ m. M.IsInRange m) }
    {
        if self.sent == 0 {
            return None;
        }
        self.items.front()
    }

    /// Takes the first message that was sent.
    pub fn take(&mut self) -> Option<M>
        ensures first { result ≡ slice_get self.old.held 0 }
        ensures rest { self.new ≡ record self.old { held = drop 1 self.old.held } }
        ensures in_range { IfSome result (λ m. M.IsInRange m) }
    {
        if self.sent == 0 {
            return None;
        }
        self.sent -= 1;
        self.items.pop_front()
    }
}

impl<M: Ranged + Drop> Out<M> for OutList<M> {
    ghost held = { λ s. s.held };

    ghost staged = { λ s. s.staged };

    ghost use Rattle.std.below.core.specs.declared.int.usize.TheConstants.{MAX};
    ghost use Rattle.std.specs.Prelude.{◌-◌, ◌+◌, length};

    ghost room = { λ s. MAX - (length s.held + length s.staged) };

    fn stage(&mut self, m: M) -> Result<(), Memory> {
        match self.items.push_back(m) {
            Ok(()) => Ok(()),
            Err(_) => Err(Memory),
        }
    }

    fn send_staged(&mut self) {
        self.sent = self.items.len();
    }

    fn drop_staged(&mut self) {
        self.items.truncate(self.sent);
    }
}

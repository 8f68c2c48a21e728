// The messages that a release gives.

ghost use Rattle.std.specs.Prelude.{◌≡◌, length, drop, slice_get};
ghost use Rattle.std.specs.Option.{option_copied};

use nk_base::BackMsg;
use std::collections::VecDeque;
use std::marker::Model;

/// The messages of a released hop, in the order they came. This project's own.
#[derive(Drop)]
pub struct Kept {
    messages: VecDeque<BackMsg>,
}

impl Model for Kept {
    ghost use Rattle.std.specs.Prelude.{List};
    ghost use Rattle.nk_base.specs.declared.message.BackMsg.{BackMsg};

    ghost Value = { List BackMsg };

    ghost view = { λ s. s.messages.items };
}

impl Kept {
    /// The list of these messages.
    pub(crate) fn of(messages: VecDeque<BackMsg>) -> Kept
        ensures { result ≡ messages.items }
    {
        Kept { messages }
    }

    /// The number of messages.
    pub fn len(&self) -> usize
        ensures { result ≡ length self.now }
    {
        self.messages.len()
    }

    /// The first message.
    pub fn first(&self) -> Option<&BackMsg>
        ensures { option_copied result ≡ slice_get self.now 0 }
    {
        self.messages.front()
    }

    /// Takes the first message; none where there is none.
    pub fn take(&mut self) -> Option<BackMsg>
        ensures first { result ≡ slice_get self.old 0 }
        ensures rest { self.new ≡ drop 1 self.old }
    {
        self.messages.pop_front()
    }
}

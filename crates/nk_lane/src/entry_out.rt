// Where a part shows its entries on a delivery lane.

ghost use Rattle.std.specs.Prelude.{◌≡◌, ◌+◌, ◌≤◌, ◌++◌, [], length};
ghost use Rattle.nk_lane.specs.Ends.{sent_on, send_capacity, SameSendEnd};

use crate::ends::SendEnd;
use crate::protocol::AnyEntry;
use nk_base::{Entry, Memory, Out};
use std::alloc::Global;
use std::collections::VecDeque;

/// The sending end of a lane of entries, with the entries that are made ready and not sent. Its room is the capacity less
/// what was sent and what is staged. An entry on the lane shares its piece with all that hold it. This project's own.
#[derive(Drop)]
pub struct EntryOut {
    end: SendEnd<Entry, AnyEntry>,
    staged: VecDeque<Entry>,
    ghost fits: { length (sent_on end) + length staged.items ≤ send_capacity end },
}

impl EntryOut {
    ghost use Rattle.std.specs.Prelude.{◌≡◌, []};
    ghost use Rattle.nk_lane.specs.Outs.{entries_staged};

    /// The place to send on this end, with nothing staged.
    pub fn new(alloc: Global, end: SendEnd<Entry, AnyEntry>) -> EntryOut
        ensures end { result.end ≡ end }
        ensures staged { result.staged.items ≡ [] }
    {
        EntryOut {
            end,
            staged: VecDeque::new(alloc),
        }
    }

    /// Gives the end back, where nothing is staged.
    pub fn into_end(self) -> SendEnd<Entry, AnyEntry>
        requires { entries_staged self ≡ [] }
        ensures { result ≡ self.end }
    {
        self.end
    }
}

impl Out<Entry> for EntryOut {
    ghost use Rattle.std.specs.Prelude.{◌≡◌, ◌+◌, ◌-◌, ◌≤◌, ◌++◌, [], ◌∷◌, length, OnOk, OnErr};
    ghost use Rattle.nk_lane.specs.Ends.{sent_on, send_capacity};

    ghost held = { λ o. sent_on o.end };

    ghost staged = { λ o. o.staged.items };

    ghost room = { λ o. send_capacity o.end - (length (sent_on o.end) + length o.staged.items) };

    fn stage(&mut self, m: Entry) -> Result<(), Memory> {
        match self.staged.push_back(m) {
            Ok(()) => Ok(()),
            Err(_) => Err(Memory),
        }
    }

    fn send_staged(&mut self) {
        send_all(&mut self.end, &mut self.staged);
    }

    fn drop_staged(&mut self) {
        self.staged.clear();
    }
}

/// Sends all entries that are ready, in order.
fn send_all(end: &mut SendEnd<Entry, AnyEntry>, staged: &mut VecDeque<Entry>)
    requires { length (sent_on end.old) + length staged.old.items ≤ send_capacity end.old }
    ensures same { SameSendEnd end.old end.new }
    ensures sent { sent_on end.new ≡ sent_on end.old ++ staged.old.items }
    ensures staged { staged.new.items ≡ [] }
{
    while let Some(entry) = staged.pop_front() {
        end.send(entry);
    }
}

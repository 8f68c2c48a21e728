// Where a part sends its messages on a lane of frames.

ghost use Rattle.std.specs.Prelude.{◌≡◌, ◌+◌, ◌≤◌, ◌++◌, [], length, map};
ghost use Rattle.nk_lane.specs.Ends.{sent_on, send_capacity, SameSendEnd};

use crate::ends::SendEnd;
use crate::protocol::Spelled;
use crate::ready::Ready;
use nk_base::{Memory, Out};
use nk_wire::{Frame, Framed};
use std::alloc::Global;
use std::collections::VecDeque;

/// The sending end of a lane of frames, with the frames that are made ready and not sent. Its room is the capacity less what
/// was sent and what is staged. In the place of the actors that Firefox's IPDL makes for each protocol.
#[derive(Drop)]
pub struct FrameOut<M: Framed> {
    end: SendEnd<Frame, Spelled<M>>,
    staged: VecDeque<Ready<M>>,
    ghost fits: { length (sent_on end) + length staged.items ≤ send_capacity end },
}

impl<M: Framed + Drop> FrameOut<M> {
    ghost use Rattle.std.specs.Prelude.{◌≡◌, []};
    ghost use Rattle.nk_lane.specs.Outs.{frames_staged};

    /// The place to send on this end, with nothing staged.
    pub fn new(alloc: Global, end: SendEnd<Frame, Spelled<M>>) -> FrameOut<M>
        ensures end { result.end ≡ end }
        ensures staged { result.staged.items ≡ [] }
    {
        FrameOut {
            end,
            staged: VecDeque::new(alloc),
        }
    }

    /// Gives the end back, where nothing is staged.
    pub fn into_end(self) -> SendEnd<Frame, Spelled<M>>
        requires { frames_staged M.read self ≡ [] }
        ensures { result ≡ self.end }
    {
        self.end
    }
}

impl<M: Framed + Drop> Out<M> for FrameOut<M> {
    ghost use Rattle.std.specs.Prelude.{◌≡◌, ◌+◌, ◌-◌, ◌≤◌, ◌++◌, [], ◌∷◌, length, map, OnOk, OnErr};
    ghost use Rattle.nk_lane.specs.Ends.{sent_on, send_capacity};
    ghost use Rattle.nk_lane.specs.Spelling.{messages};

    ghost held = { λ o. messages M.read (sent_on o.end) };

    ghost staged = { λ o. messages M.read (map (λ r. r.frame) o.staged.items) };

    ghost room = { λ o. send_capacity o.end - (length (sent_on o.end) + length o.staged.items) };

    fn stage(&mut self, m: M) -> Result<(), Memory> {
        let frame = m.encode(*self.staged.allocator())?;
        match self.staged.push_back(Ready::new(frame)) {
            Ok(()) => Ok(()),
            Err(_) => Err(Memory),
        }
    }

    fn send_staged(&mut self) {
        send_all(&mut self.end, &mut self.staged);
    }

    fn drop_staged(&mut self) {
        self.staged.clear();
    }
}

/// Sends all frames that are ready, in order.
fn send_all<M: Framed + Drop>(end: &mut SendEnd<Frame, Spelled<M>>, staged: &mut VecDeque<Ready<M>>)
    requires { length (sent_on end.old) + length staged.old.items ≤ send_capacity end.old }
    ensures same { SameSendEnd end.old end.new }
    ensures sent { sent_on end.new ≡ sent_on end.old ++ map (λ r. r.frame) staged.old.items }
    ensures staged { staged.new.items ≡ [] }
{
    while let Some(ready) = staged.pop_front() {
        end.send(ready.frame);
    }
}

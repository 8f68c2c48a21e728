// What a body of the queue machine owes: one call at a time, it answers and changes as the machine does.

ghost use Rattle.std.specs.Prelude.{◌≡◌, ◌≤◌, IfOk, OnOk, OnErr, true};
ghost use Rattle.nk_queue.specs.Calls.{MayCall, call_answer, call_leaves, call_spare, is_reserve};

use crate::laws::call::{QueueAnswer, QueueCall};
use crate::queue::EventQueue;
use nk_base::{Classed, Memory};

/// A body of the queue machine: its content is the machine's state, and room. This project's own.
pub trait QueueBody<E: Classed> {
    ghost use Rattle.std.specs.Prelude.{ℕ};
    ghost use Rattle.nk_base.specs.Queue.{Queue};

    /// The state of the machine.
    ghost state: { Self → Queue E };

    /// For how many events there is room.
    ghost spare: { Self → ℕ };

    /// Makes one call. Only a `Reserve` may want memory, and then the state is as before.
    fn call(&mut self, call: QueueCall<E>) -> Result<QueueAnswer<E>, Memory>
        requires { MayCall E.class (state self.old) (spare self.old) call }
        ensures answer { IfOk result (λ answer. answer ≡ call_answer E.class (state self.old) call) }
        ensures state { OnOk result (state self.new ≡ call_leaves E.class (state self.old) call) }
        ensures spare { OnOk result (call_spare E.class (state self.old) (spare self.old) call ≤ spare self.new) }
        ensures err { OnErr result (state self.new ≡ state self.old) }
        ensures only_reserve { OnErr result (is_reserve call ≡ true) };
}

impl<E: Classed + Drop> QueueBody<E> for EventQueue<E> {
    ghost state = { λ q. q.state };

    ghost spare = { λ q. q.spare };

    fn call(&mut self, call: QueueCall<E>) -> Result<QueueAnswer<E>, Memory>
        requires { MayCall E.class self.old.state self.old.spare call }
        ensures answer { IfOk result (λ answer. answer ≡ call_answer E.class self.old.state call) }
        ensures state { OnOk result (self.new.state ≡ call_leaves E.class self.old.state call) }
        ensures spare { OnOk result (call_spare E.class self.old.state self.old.spare call ≤ self.new.spare) }
        ensures err { OnErr result (self.new.state ≡ self.old.state) }
        ensures only_reserve { OnErr result (is_reserve call ≡ true) }
    {
        match call {
            QueueCall::Reserve(n) => self.reserve(n)?,
            QueueCall::Offer(e, here) => return Ok(QueueAnswer::Offered(self.offer(e, here))),
            QueueCall::Suspend => self.suspend(),
            QueueCall::Resume => return Ok(QueueAnswer::Resumed(self.resume())),
            QueueCall::Complete(here) => return Ok(QueueAnswer::Began(self.complete(here))),
            QueueCall::StartForced => self.start_forced(),
            QueueCall::EndForced(here) => return Ok(QueueAnswer::Began(self.end_forced(here))),
            QueueCall::Prepend(e) => self.prepend(e),
            QueueCall::Take(here) => return Ok(QueueAnswer::Took(self.take(here))),
            QueueCall::Clear => self.clear(),
            QueueCall::SetDataTarget(t) => self.set_data_target(t),
            QueueCall::Flushing => return Ok(QueueAnswer::Flushing(self.flushing())),
            QueueCall::Posted(t) => return Ok(QueueAnswer::Number(self.posted(t))),
            QueueCall::IsSuspended => return Ok(QueueAnswer::Flag(self.is_suspended())),
            QueueCall::Waiting => return Ok(QueueAnswer::Number(self.waiting())),
        }
        Ok(QueueAnswer::Done)
    }
}

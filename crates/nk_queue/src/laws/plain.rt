// The second body of the queue machine. It is written as plainly as the rules are told, over a deque and
// fields with no invariant, and serves to show that the rules alone decide the answers.

ghost use Rattle.std.specs.Prelude.{◌≡◌, ◌+◌, ◌-◌, ◌<◌, ◌≤◌, ◌||◌, IfOk, OnOk, OnErr, IsTrue, true, slice_index, nat_lt, if◌then◌else◌};
ghost use Rattle.nk_base.specs.Queue.{MayPost, empty_queue, target_number, target_in, is_busy, is_posted, runs_now, has_some, first_target, may_flush, offer_leaves, posted_to, raised, suspended_once, resume_posts, resumed_once, resume_answer, completed, complete_answer, unforced, unforced_answer, take_leaves, take_spare};
ghost use Rattle.nk_queue.specs.Answers.{offer_answer, take_answer, taken_by, hands_over};
ghost use Rattle.nk_queue.specs.Calls.{MayCall, call_answer, call_leaves, call_spare, is_reserve};
ghost use Rattle.nk_queue.specs.Plain.{state_of, room_of};

use crate::answer::{Offer, Taken};
use crate::laws::body::QueueBody;
use crate::laws::call::{QueueAnswer, QueueCall};
use crate::queue::{number, target_of};
use nk_base::{Classed, Memory, Target};
use std::alloc::Global;
use std::collections::VecDeque;

/// The queue machine over a deque. This project's own.
#[derive(Drop)]
pub struct PlainQueue<E> {
    waiting: VecDeque<E>,
    count: usize,
    suspended: bool,
    forced: usize,
    flushing: Option<Target>,
    posted: [usize; 18],
    data_target: Target,
}

// One more task is posted to a target.
fn raise(posted: &mut [usize; 18], t: Target)
    requires { slice_index posted.old (target_number t) < usize.MAX }
    ensures { posted.new ≡ raised posted.old t }
{
    let n = number(t);
    if n < 18 {
        posted[n] += 1;
    }
}

impl<E: Classed> PlainQueue<E> {
    /// An empty queue that is not suspended.
    pub fn new(alloc: Global) -> Self
        ensures { state_of result ≡ empty_queue }
    {
        PlainQueue {
            waiting: VecDeque::new(alloc),
            count: 0,
            suspended: false,
            forced: 0,
            flushing: None,
            posted: [0; 18],
            data_target: Target::Main,
        }
    }

    fn first_target(&self) -> Option<Target>
        ensures { result ≡ first_target E.class (state_of self.now) self.now.waiting.items }
    {
        match self.waiting.front() {
            None => None,
            Some(e) => Some(target_of(self.data_target, e.class())),
        }
    }

    fn offer(&mut self, e: E, here: Target) -> Offer<E>
        requires room { 0 < room_of self.old }
        requires posts { IsTrue (is_posted E.class (state_of self.old) e here)
            → posted_to (state_of self.old) (target_in self.old.data_target (E.class e)) < usize.MAX }
        ensures answer { result ≡ offer_answer E.class (state_of self.old) e here }
        ensures state { state_of self.new ≡ offer_leaves E.class (state_of self.old) e here }
        ensures spare { room_of self.new
            ≡ (if runs_now E.class (state_of self.old) e here then room_of self.old else room_of self.old - 1) }
    {
        let target = target_of(self.data_target, e.class());
        let waits = self.forced > 0
            || self.suspended
            || self.flushing.is_some()
            || !self.waiting.is_empty();
        if !waits && target.is(here) {
            self.flushing = Some(here);
            return Offer::RunNow(e);
        }
        self.waiting.push_back_reserved(e);
        if waits {
            return Offer::Queued;
        }
        self.suspended = true;
        raise(&mut self.posted, target);
        Offer::Posted(target)
    }

    fn resume(&mut self) -> Option<Target>
        requires counted { 0 < self.old.count }
        requires posts { IsTrue (resume_posts (state_of self.old)) → MayPost E.class (state_of self.old) self.old.waiting.items usize.MAX }
        ensures answer { result ≡ resume_answer E.class (state_of self.old) }
        ensures state { state_of self.new ≡ resumed_once E.class (state_of self.old) }
        ensures spare { room_of self.new ≡ room_of self.old }
    {
        self.count -= 1;
        if self.count > 0 {
            return None;
        }
        match self.first_target() {
            Some(target) if self.forced == 0 => {
                raise(&mut self.posted, target);
                Some(target)
            }
            _ => {
                self.suspended = false;
                None
            }
        }
    }

    fn try_flush(&mut self, here: Target) -> bool
        ensures answer { result ≡ may_flush (state_of self.old) self.old.suspended self.old.forced }
        ensures state { self.new
            ≡ (if may_flush (state_of self.old) self.old.suspended self.old.forced
            then record self.old { flushing = Some here } else self.old) }
    {
        let begins = self.forced == 0
            && self.flushing.is_none()
            && !self.suspended
            && !self.waiting.is_empty();
        if begins {
            self.flushing = Some(here);
        }
        begins
    }

    fn complete(&mut self, here: Target) -> bool
        requires { 0 < posted_to (state_of self.old) here }
        ensures answer { result ≡ complete_answer (state_of self.old) }
        ensures state { state_of self.new ≡ completed (state_of self.old) here }
        ensures spare { room_of self.new ≡ room_of self.old }
    {
        self.posted[number(here)] -= 1;
        if self.count > 0 {
            return false;
        }
        self.suspended = false;
        self.try_flush(here)
    }

    fn end_forced(&mut self, here: Target) -> bool
        requires { 0 < self.old.forced }
        ensures answer { result ≡ unforced_answer (state_of self.old) }
        ensures state { state_of self.new ≡ unforced (state_of self.old) here }
        ensures spare { room_of self.new ≡ room_of self.old }
    {
        self.forced -= 1;
        self.try_flush(here)
    }

    fn take(&mut self, here: Target) -> Taken<E>
        requires { IsTrue (hands_over (taken_by E.class (state_of self.old) here)) → MayPost E.class (state_of self.old) self.old.waiting.items usize.MAX }
        ensures answer { result ≡ take_answer (taken_by E.class (state_of self.old) here) }
        ensures state { state_of self.new ≡ take_leaves (state_of self.old) (taken_by E.class (state_of self.old) here) }
        ensures spare { room_of self.new ≡ take_spare (taken_by E.class (state_of self.old) here) (room_of self.old) }
    {
        match self.first_target() {
            Some(target) if !self.suspended && self.forced == 0 => {
                if target.is(here) {
                    return Taken::Event(self.waiting.pop_front().unwrap());
                }
                self.flushing = None;
                self.suspended = true;
                raise(&mut self.posted, target);
                Taken::HandOver(target)
            }
            _ => {
                self.flushing = None;
                Taken::Ended
            }
        }
    }
}

impl<E: Classed + Drop> QueueBody<E> for PlainQueue<E> {
    ghost state = { state_of };

    ghost spare = { room_of };

    fn call(&mut self, call: QueueCall<E>) -> Result<QueueAnswer<E>, Memory>
        requires { MayCall E.class (state_of self.old) (room_of self.old) call }
        ensures answer { IfOk result (λ answer. answer ≡ call_answer E.class (state_of self.old) call) }
        ensures state { OnOk result (state_of self.new ≡ call_leaves E.class (state_of self.old) call) }
        ensures spare { OnOk result (call_spare E.class (state_of self.old) (room_of self.old) call ≤ room_of self.new) }
        ensures err { OnErr result (state_of self.new ≡ state_of self.old) }
        ensures only_reserve { OnErr result (is_reserve call ≡ true) }
    {
        match call {
            QueueCall::Reserve(n) => {
                if self.waiting.reserve(n).is_err() {
                    return Err(Memory);
                }
            }
            QueueCall::Offer(e, here) => return Ok(QueueAnswer::Offered(self.offer(e, here))),
            QueueCall::Suspend => {
                self.count += 1;
                self.suspended = true;
            }
            QueueCall::Resume => return Ok(QueueAnswer::Resumed(self.resume())),
            QueueCall::Complete(here) => return Ok(QueueAnswer::Began(self.complete(here))),
            QueueCall::StartForced => self.forced += 1,
            QueueCall::EndForced(here) => return Ok(QueueAnswer::Began(self.end_forced(here))),
            QueueCall::Prepend(e) => self.waiting.push_front_reserved(e),
            QueueCall::Take(here) => return Ok(QueueAnswer::Took(self.take(here))),
            QueueCall::Clear => self.waiting.clear(),
            QueueCall::SetDataTarget(t) => self.data_target = t,
            QueueCall::Flushing => return Ok(QueueAnswer::Flushing(self.flushing)),
            QueueCall::Posted(t) => return Ok(QueueAnswer::Number(self.posted[number(t)])),
            QueueCall::IsSuspended => return Ok(QueueAnswer::Flag(self.suspended)),
            QueueCall::Waiting => return Ok(QueueAnswer::Number(self.waiting.len())),
        }
        Ok(QueueAnswer::Done)
    }
}

// The queue machine over a chain. Its state is the definition's, and each call is one of its rules.

ghost use Rattle.std.specs.Prelude.{◌≡◌, ◌+◌, ◌-◌, ◌<◌, ◌≤◌, ◌||◌, length, IsTrue, IfSome, OnOk, OnErr, nat_lt, slice_index, if◌then◌else◌};
ghost use Rattle.std.specs.Option.{option_copied};
ghost use Rattle.nk_base.specs.Queue.{LegalQueue, IsTarget, HasTarget, MayPost, empty_queue, target_number, target_in, is_target, has_some, is_busy, is_posted, runs_now, offer_leaves, posted_to, raised, suspended_once, resume_posts, resumed_once, resume_answer, completed, complete_answer, forced_once, unforced, unforced_answer, prepended, cleared, retargeted, take_leaves, take_spare};
ghost use Rattle.nk_chain.specs.Chain.{items_of};
ghost use Rattle.nk_queue.specs.Answers.{offer_answer, take_answer, OfferCases, TakeCases, taken_by, hands_over, event_of, first_event};

use crate::answer::{Offer, Taken};
use nk_base::{Class, Classed, Memory, Target};
use nk_chain::Chain;
use std::alloc::Global;
use std::marker::Model;

/// The events of one channel that wait, and on which target they run next, seen as the state of the queue machine
/// and the number of events that there is room for. After Firefox's ChannelEventQueue in outline.
#[derive(Drop)]
pub struct EventQueue<E: Classed> {
    waiting: Chain<E>,
    count: usize,
    suspended: bool,
    forced: usize,
    flushing: Option<Target>,
    // The tasks posted to main, to the workers 1 to 16 and to back.
    posted: [usize; 18],
    data_target: Target,
}

impl<E: Classed> Model for EventQueue<E> {
    ghost use Rattle.nk_base.specs.Queue.{Queue, Roomy, LegalQueue};
    ghost use Rattle.nk_chain.specs.Chain.{items_of};

    ghost Value = { Roomy E };

    ghost view = { λ s. record {
      state = record {
        waiting = items_of s.waiting.items;
        count = s.count;
        suspended = s.suspended;
        forced = s.forced;
        flushing = s.flushing;
        posted = s.posted;
        data_target = s.data_target;
      };
      spare = s.waiting.spare;
    } };

    ghost invariant = { λ s. LegalQueue E.class (record {
      waiting = items_of s.waiting.items;
      count = s.count;
      suspended = s.suspended;
      forced = s.forced;
      flushing = s.flushing;
      posted = s.posted;
      data_target = s.data_target;
    }) };
}

// Where the posted number of a target stands: behind the last one for a worker that is none.
pub(crate) fn number(t: Target) -> usize
    ensures number { result ≡ target_number t }
    ensures small { IsTarget t → result < 18 }
    ensures target { result < 18 → IsTarget t }
{
    match t {
        Target::Main => 0,
        Target::Worker(w) if 1 <= w && w <= 16 => w as usize,
        Target::Worker(_) => 18,
        Target::Back => 17,
    }
}

// One more task is posted to a target.
fn post(posted: &mut [usize; 18], t: Target)
    requires target { IsTarget t }
    requires fits { slice_index posted.old (target_number t) < usize.MAX }
    ensures posted { posted.new ≡ raised posted.old t }
    ensures within { target_number t < 18 }
{
    posted[number(t)] += 1;
}

// The target of an event of this class.
pub(crate) fn target_of(data_target: Target, class: Class) -> Target
    ensures { result ≡ target_in data_target class }
{
    match class {
        Class::Fixed(t) => t,
        Class::Delivery => data_target,
    }
}

// Whether events wait.
fn waits<E>(waiting: &Chain<E>) -> bool
    ensures { result ≡ has_some (items_of waiting.now.items) }
{
    waiting.first().is_some()
}

// The event that waits first.
fn front<E>(waiting: &Chain<E>) -> Option<&E>
    ensures { option_copied result ≡ first_event (items_of waiting.now.items) }
{
    match waiting.first() {
        Some(place) => Some(waiting.get(place)),
        None => None,
    }
}

impl<E: Classed> EventQueue<E> {
    /// An empty queue that is not suspended, with room for no event.
    pub fn new(alloc: Global) -> Self
        ensures { result ≡ record { state = empty_queue; spare = 0 } }
    {
        EventQueue {
            waiting: Chain::new(alloc),
            count: 0,
            suspended: false,
            forced: 0,
            flushing: None,
            posted: [0; 18],
            data_target: Target::Main,
        }
    }
    /// Makes room for `n` events, and is the only call that takes memory. `Memory` changes nothing.
    pub fn reserve(&mut self, n: usize) -> Result<(), Memory>
        ensures state { self.new.state ≡ self.old.state }
        ensures room { OnOk result (n ≤ self.new.spare) }
        ensures grows { self.old.spare ≤ self.new.spare }
        ensures err { OnErr result (self.new ≡ self.old) }
    {
        match self.waiting.reserve(n) {
            Ok(()) => Ok(()),
            Err(_) => Err(Memory),
        }
    }

    /// The target whose flush is under way.
    pub fn flushing(&self) -> Option<Target>
        ensures flushing { result ≡ self.now.state.flushing }
        ensures target { IfSome result IsTarget }
    {
        self.flushing
    }

    /// How many tasks are posted to `t`: none to a worker outside 1 to 16.
    pub fn posted(&self, t: Target) -> usize
        ensures posted { result ≡ posted_to self.now.state t }
        ensures target { 0 < result → IsTarget t }
    {
        match self.posted.get(number(t)) {
            Some(n) => *n,
            None => 0,
        }
    }

    /// How many suspends were not resumed.
    pub fn count(&self) -> usize
        ensures { result ≡ self.now.state.count }
    {
        self.count
    }

    /// Whether the flag is on.
    pub fn is_suspended(&self) -> bool
        ensures flag { result ≡ self.now.state.suspended }
        ensures legal { LegalQueue E.class self.now.state }
    {
        self.suspended
    }

    /// The number of events that wait.
    pub fn waiting(&self) -> usize
        ensures { result ≡ length self.now.state.waiting }
    {
        self.waiting.len()
    }

    // Whether an event that is offered now has to wait.
    fn is_busy(&self) -> bool
        ensures { result ≡ is_busy self.now.state }
    {
        self.forced > 0 || self.suspended || self.flushing.is_some() || waits(&self.waiting)
    }

    /// Whether `e` runs at once if it is offered from `here`.
    pub fn runs_now(&self, e: &E, here: Target) -> bool
        ensures { result ≡ runs_now E.class self.now.state e.now here }
    {
        !self.is_busy() && target_of(self.data_target, e.class()).is(here)
    }

    /// Whether `e` runs at once if the queue is cleared and it is offered from `here`.
    pub fn runs_cleared(&self, e: &E, here: Target) -> bool
        ensures { result ≡ runs_now E.class (cleared self.now.state) e.now here }
    {
        self.forced == 0
            && !self.suspended
            && self.flushing.is_none()
            && target_of(self.data_target, e.class()).is(here)
    }

    /// The event that a take by `here` gives.
    pub fn next(&self, here: Target) -> Option<&E>
        ensures { option_copied result ≡ event_of (taken_by E.class self.now.state here) }
    {
        if self.forced > 0 || self.suspended {
            return None;
        }
        match front(&self.waiting) {
            None => None,
            Some(e) => {
                if target_of(self.data_target, e.class()).is(here) {
                    Some(e)
                } else {
                    None
                }
            }
        }
    }

    /// Offers an event from `here`, and gives it back where it runs at once.
    pub fn offer(&mut self, e: E, here: Target) -> Offer<E>
        requires room { 0 < self.old.spare }
        requires here { IsTarget here }
        requires class { HasTarget (E.class e) }
        requires posts { IsTrue (is_posted E.class self.old.state e here)
            → posted_to self.old.state (target_in self.old.state.data_target (E.class e)) < usize.MAX }
        ensures answer { result ≡ offer_answer E.class self.old.state e here }
        ensures state { self.new.state ≡ offer_leaves E.class self.old.state e here }
        ensures cases { OfferCases E.class self.old.state e here result self.new.state }
        ensures spare { self.new.spare
            ≡ (if runs_now E.class self.old.state e here then self.old.spare else self.old.spare - 1) }
    {
        let target = target_of(self.data_target, e.class());
        if self.is_busy() {
            self.waiting.push_back(e);
            Offer::Queued
        } else if target.is(here) {
            self.flushing = Some(here);
            Offer::RunNow(e)
        } else {
            self.waiting.push_back(e);
            self.suspended = true;
            post(&mut self.posted, target);
            Offer::Posted(target)
        }
    }

    /// Suspends the queue once more.
    pub fn suspend(&mut self)
        requires { self.old.state.count < usize.MAX - 1 }
        ensures { self.new ≡ record self.old { state = suspended_once self.old.state } }
    {
        self.count += 1;
        self.suspended = true;
    }

    /// Resumes the queue once, and answers where a task was posted.
    pub fn resume(&mut self) -> Option<Target>
        requires counted { 0 < self.old.state.count }
        requires posts { IsTrue (resume_posts self.old.state) → MayPost E.class self.old.state self.old.state.waiting usize.MAX }
        ensures answer { result ≡ resume_answer E.class self.old.state }
        ensures state { self.new ≡ record self.old { state = resumed_once E.class self.old.state } }
    {
        self.count -= 1;
        if self.count > 0 {
            return None;
        }
        if self.forced > 0 {
            self.suspended = false;
            return None;
        }
        match front(&self.waiting) {
            None => {
                self.suspended = false;
                None
            }
            Some(e) => {
                let target = target_of(self.data_target, e.class());
                post(&mut self.posted, target);
                Some(target)
            }
        }
    }

    /// A task that was posted to `here` runs there. Answers whether a flush began.
    pub fn complete(&mut self, here: Target) -> bool
        requires here { IsTarget here }
        requires posted { 0 < posted_to self.old.state here }
        ensures answer { result ≡ complete_answer self.old.state }
        ensures state { self.new ≡ record self.old { state = completed self.old.state here } }
    {
        self.posted[number(here)] -= 1;
        if self.count > 0 {
            return false;
        }
        self.suspended = false;
        if self.forced == 0 && self.flushing.is_none() && waits(&self.waiting) {
            self.flushing = Some(here);
            true
        } else {
            false
        }
    }

    /// From now on events are queued by force, once more.
    pub fn start_forced(&mut self)
        requires { self.old.state.forced < usize.MAX }
        ensures { self.new ≡ record self.old { state = forced_once self.old.state } }
    {
        self.forced += 1;
    }

    /// Events are queued by force once less. Answers whether a flush by `here` began.
    pub fn end_forced(&mut self, here: Target) -> bool
        requires here { IsTarget here }
        requires forced { 0 < self.old.state.forced }
        ensures answer { result ≡ unforced_answer self.old.state }
        ensures state { self.new ≡ record self.old { state = unforced self.old.state here } }
    {
        self.forced -= 1;
        if self.forced == 0 && self.flushing.is_none() && !self.suspended && waits(&self.waiting) {
            self.flushing = Some(here);
            true
        } else {
            false
        }
    }

    /// Puts an event before all others that wait.
    pub fn prepend(&mut self, e: E)
        requires held { IsTrue (self.old.state.suspended || nat_lt 0 self.old.state.forced) }
        requires room { 0 < self.old.spare }
        requires class { HasTarget (E.class e) }
        ensures state { self.new.state ≡ prepended self.old.state e }
        ensures spare { self.new.spare ≡ self.old.spare - 1 }
    {
        self.waiting.push_front(e);
    }

    /// Takes the next event of the flush by `here`, which goes on at another target, or ends, where there is none.
    pub fn take(&mut self, here: Target) -> Taken<E>
        requires here { IsTarget here }
        requires flushing { IsTrue (is_target self.old.state.flushing here) }
        requires posts { IsTrue (hands_over (taken_by E.class self.old.state here)) → MayPost E.class self.old.state self.old.state.waiting usize.MAX }
        ensures answer { result ≡ take_answer (taken_by E.class self.old.state here) }
        ensures state { self.new.state ≡ take_leaves self.old.state (taken_by E.class self.old.state here) }
        ensures cases { TakeCases E.class self.old.state here result self.new.state }
        ensures spare { self.new.spare ≡ take_spare (taken_by E.class self.old.state here) self.old.spare }
    {
        if self.suspended || self.forced > 0 {
            self.flushing = None;
            return Taken::Ended;
        }
        let target = match front(&self.waiting) {
            None => {
                self.flushing = None;
                return Taken::Ended;
            }
            Some(e) => target_of(self.data_target, e.class()),
        };
        if !target.is(here) {
            self.flushing = None;
            self.suspended = true;
            post(&mut self.posted, target);
            return Taken::HandOver(target);
        }
        Taken::Event(self.waiting.pop_front().unwrap())
    }

    /// Data events go to `t` from now on, those that wait too.
    pub fn set_data_target(&mut self, t: Target)
        requires { IsTarget t }
        ensures { self.new ≡ record self.old { state = retargeted self.old.state t } }
    {
        self.data_target = t;
    }
}

impl<E: Classed + Drop> EventQueue<E> {
    /// Drops all events that wait. It takes no memory.
    pub fn clear(&mut self)
        ensures state { self.new.state ≡ cleared self.old.state }
        ensures spare { self.new.spare ≡ self.old.spare + length self.old.state.waiting }
    {
        self.waiting.clear();
    }
}

// The parts of a child, and what each row of its table needs of them.

ghost use Rattle.std.specs.Prelude.{◌≡◌, ◌<◌, ◌-◌, ◌^◌, [], length, OnOk, is_some};
ghost use Rattle.std.specs.Bool.{OnTrue};
ghost use Rattle.nk_base.specs.Queue.{IsTarget};
ghost use Rattle.nk_base.specs.Status.{is_failure, merged, kept_status};
ghost use Rattle.nk_plan.specs.Accepted.{Accepted};
ghost use Rattle.nk_plan.specs.Child.{new_child, with_entry, runs_on};
ghost use Rattle.nk_child.specs.Running.{running_target};
ghost use Rattle.nk_child.specs.Shown.{with_shown};
ghost use Rattle.nk_child.specs.Views.{HasRoom, Leaves};

use crate::queued::Queued;
use nk_base::{Entry, Grow, Memory, Status, Target, UpMsg};
use nk_cancel::First;
use nk_hold::Hold;
use nk_plan::{ChannelPlan, ChildEntry, ChildEvent, ChildJournal, StartLane, Trace};
use nk_queue::EventQueue;
use nk_redirect::ChildHalf;
use nk_retarget::Delivery;
use std::alloc::Global;
use std::marker::Model;
use std::mem::replace;

/// A child at work: its parts, and its lists with their room. After Firefox's `HttpChannelChild` and
/// `HttpBackgroundChannelChild`.
#[derive(Drop)]
pub(crate) struct Work {
    /// The allocator of its lists.
    pub(crate) alloc: Global,
    /// What the page does, and what it is asked.
    pub(crate) plan: ChannelPlan,
    /// The page has opened the channel.
    pub(crate) opened: bool,
    /// The stop callback has begun.
    pub(crate) stopped: bool,
    /// The parent process is gone: no message is taken any more.
    pub(crate) broken: bool,
    /// The number of the page's next call.
    pub(crate) next: usize,
    /// How many callbacks have returned.
    pub(crate) finished: usize,
    /// How many data callbacks have begun.
    pub(crate) data_begun: usize,
    /// How many redirects are complete.
    pub(crate) hop: usize,
    /// The first failure.
    pub(crate) first: First,
    /// The redirect that the page is asked about.
    pub(crate) question: ChildHalf,
    /// What waits for its start.
    pub(crate) hold: Hold,
    /// Where data is delivered.
    pub(crate) delivery: Delivery,
    /// What waits for its callback.
    pub(crate) queue: EventQueue<Queued>,
    /// The callback that runs, and its target.
    pub(crate) running: Option<(Target, ChildEvent)>,
    /// What it did.
    pub(crate) journal: Grow<ChildEntry>,
    /// What the listener was shown.
    pub(crate) trace: Grow<Entry>,
    /// What this step sends on the up lane.
    pub(crate) sent: Grow<UpMsg>,
}

impl Model for Work {
    ghost use Rattle.std.specs.Prelude.{◌≡◌};
    ghost use Rattle.nk_plan.specs.Accepted.{Accepted};
    ghost use Rattle.nk_plan.specs.Child.{ChildState};
    ghost use Rattle.nk_retarget.specs.Delivery.{target_of};
    ghost use Rattle.nk_child.specs.Views.{WorkView};
    ghost use Rattle.nk_child.specs.Events.{IsQuestion};
    ghost use Rattle.nk_child.specs.Running.{IsRunning};

    ghost Value = { WorkView };

    ghost view = { λ s. record {
      plan = s.plan;
      state = record {
        opened = s.opened;
        stopped = s.stopped;
        broken = s.broken;
        next = s.next;
        finished = s.finished;
        suspends = s.queue.state.count;
        data_begun = s.data_begun;
        hop = s.hop;
        kept = s.first;
        question = s.question;
        hold = s.hold.state;
        delivery = s.delivery.worker;
        queue = s.queue.state;
        running = s.running;
        journal = s.journal.items;
        trace = s.trace.items;
        sent = s.sent.items;
      };
      rooms = record {
        journal = s.journal.room;
        sent = s.sent.room;
        trace = s.trace.room;
        queue = s.queue.spare;
        hold = s.hold.spare;
      };
    } };

    ghost invariant = { λ s. Accepted s.plan
        × IsQuestion s.question
        × (s.delivery.retargetable ≡ s.plan.retargetable)
        × (s.queue.state.data_target ≡ target_of s.delivery.worker)
        × IsRunning s.running s.queue.state.forced };
}

impl Work {
    /// A new child.
    pub(crate) fn new(alloc: Global, plan: ChannelPlan) -> Work
        ensures plan { result.plan ≡ plan }
        ensures state { result.state ≡ new_child plan }
    {
        let hold = match plan.start {
            StartLane::Main => Hold::new(alloc),
            StartLane::Back => Hold::with_first(alloc),
        };
        let delivery = Delivery::new(plan.retargetable);
        Work {
            alloc,
            plan,
            opened: false,
            stopped: false,
            broken: false,
            next: 0,
            finished: 0,
            data_begun: 0,
            hop: 0,
            first: First::new(),
            question: ChildHalf::new(),
            hold,
            delivery,
            queue: EventQueue::new(alloc),
            running: None,
            journal: Grow::new(alloc),
            trace: Grow::new(alloc),
            sent: Grow::new(alloc),
        }
    }

    /// Makes room for so many entries and messages to be sent, and for so many items in the other parts.
    pub(crate) fn reserve(&mut self, entries: usize, items: usize) -> Result<(), Memory>
        ensures plan { self.new.plan ≡ self.old.plan }
        ensures state { self.new.state ≡ self.old.state }
        ensures room { OnOk result (HasRoom entries items self.new.rooms) }
    {
        self.journal.reserve(entries)?;
        self.sent.reserve(entries)?;
        self.trace.reserve(items)?;
        self.queue.reserve(items)?;
        self.hold.reserve(items)
    }

    /// Enters in the journal.
    pub(crate) fn note(&mut self, e: ChildEntry)
        requires { 0 < self.old.rooms.journal }
        ensures { self.new ≡ record self.old {
          state = with_entry e self.old.state;
          rooms = record self.old.rooms { journal = self.old.rooms.journal - 1 };
        } }
    {
        self.journal.push(e);
    }

    /// Adds an entry to the trace, where there is one.
    pub(crate) fn show(&mut self, entry: Option<Entry>)
        requires { HasRoom 0 1 self.old.rooms }
        ensures { Leaves 0 1 self.old self.new
            (record self.old.state { trace = with_shown self.old.state.trace entry }) }
    {
        if let Some(entry) = entry {
            self.trace.push(entry);
        }
    }

    /// Keeps a failure, where none is kept.
    pub(crate) fn merge(&mut self, status: Status)
        ensures { Leaves 0 0 self.old self.new
            (record self.old.state { kept = merged self.old.state.kept status }) }
    {
        let _ = self.first.merge(status);
    }

    /// The failure that is kept, or 0.
    pub(crate) fn status(&self) -> Status
        ensures status { result ≡ kept_status self.now.state.kept }
        ensures failure { is_failure result ≡ is_some self.now.state.kept }
    {
        self.first.kept().unwrap_or(Status::OK)
    }

    /// Whether a failure is kept.
    pub(crate) fn has_failed(&self) -> bool
        ensures { result ≡ is_some self.now.state.kept }
    {
        self.first.kept().is_some()
    }

    /// The target on which a callback runs.
    pub(crate) fn running(&self) -> Option<Target>
        ensures { result ≡ running_target self.now.state.running }
    {
        match &self.running {
            None => None,
            Some((own, _)) => Some(*own),
        }
    }

    /// Whether a callback runs on this target.
    #[tactic(auto, using(crate::proofs::Ranges::same_is_target))]
    pub(crate) fn runs_on(&self, t: Target) -> bool
        ensures answer { result ≡ runs_on self.now.state.running t }
        ensures target { OnTrue result (IsTarget t) }
    {
        match &self.running {
            None => false,
            Some((own, _)) => own.is(t),
        }
    }

    /// The allocator of its lists.
    pub(crate) fn alloc(&self) -> Global {
        self.alloc
    }

    /// Takes the lists that grow, with nothing sent. A list in memory is far from as long as numbers go.
    pub(crate) fn put_lists(&mut self, journal: ChildJournal, trace: Trace)
        ensures plan { self.new.plan ≡ self.old.plan }
        ensures few { length self.new.state.journal < 2 ^ 62 }
        ensures accepted { Accepted self.new.plan }
        ensures state { self.new.state ≡ record self.old.state { journal = journal; trace = trace; sent = [] } }
        ensures sent { self.new.state.sent ≡ [] }
    {
        self.journal = journal.into_grow();
        self.trace = trace.into_grow();
        self.forget_sent();
        prove!(self.journal.as_slice().len() < 1 << 62);
    }

    /// Forgets what was sent, and keeps the list's memory.
    fn forget_sent(&mut self)
        ensures plan { self.new.plan ≡ self.old.plan }
        ensures state { self.new.state ≡ record self.old.state { sent = [] } }
    {
        let mut sent = replace(&mut self.sent, Grow::new(self.alloc)).into_vec();
        sent.clear();
        self.sent = Grow::from_vec(sent);
    }

    /// Gives the journal away.
    pub(crate) fn take_journal(&mut self) -> ChildJournal
        ensures plan { self.new.plan ≡ self.old.plan }
        ensures journal { result ≡ self.old.state.journal }
        ensures state { self.new.state ≡ record self.old.state { journal = [] } }
    {
        ChildJournal::from_grow(replace(&mut self.journal, Grow::new(self.alloc)))
    }

    /// Gives the trace away.
    pub(crate) fn take_trace(&mut self) -> Trace
        ensures plan { self.new.plan ≡ self.old.plan }
        ensures trace { result ≡ self.old.state.trace }
        ensures state { self.new.state ≡ record self.old.state { trace = [] } }
    {
        Trace::from_grow(replace(&mut self.trace, Grow::new(self.alloc)))
    }
}

// The child of a channel.

ghost use Rattle.std.specs.Prelude.{◌≡◌, ◌++◌, ◌≤◌, ◌+◌, [], IfOk, OnOk, OnErr, length, drop};
ghost use Rattle.std.specs.Option.{option_copied};
ghost use Rattle.nk_base.specs.declared.status.Moved.TheVariants as moved;
ghost use Rattle.nk_plan.specs.declared.step.ChildStep.TheVariants as child;
ghost use Rattle.nk_plan.specs.Accepted.{Accepted};
ghost use Rattle.nk_plan.specs.Child.{child_step, new_child};
ghost use Rattle.nk_plan.specs.Enabled.{child_enabled};
ghost use Rattle.nk_plan.specs.Ending.{ending_of, ends_in_stop};
ghost use Rattle.nk_plan.specs.Run.{IsChildState, IsChildRun, trace_of, sends_of};
ghost use Rattle.nk_child.specs.Endings.{standing, is_stop};
ghost use Rattle.nk_base.specs.Status.{moved_if};
ghost use Rattle.nk_child.specs.Running.{running_target};
ghost use Rattle.nk_child.specs.Steps.{IsStepInRange};

use crate::work::Work;
use nk_base::{Entry, Memory, Moved, Out, Target, UpMsg};
use nk_laws::{journal_law, state_law};
use nk_plan::{ChannelPlan, ChildJournal, ChildStep, Ending, Trace};
use std::alloc::Global;
use std::marker::Model;
use std::mem::replace;

/// The half of a channel that the page sees. What it has come to be is what the child's table makes of some steps. It keeps
/// no list of what it sent: its plan and its journal tell that. After Firefox's `HttpChannelChild` and
/// `HttpBackgroundChannelChild` in outline.
#[derive(Drop)]
pub struct Child {
    work: Work,
    journal: ChildJournal,
    trace: Trace,
}

impl Model for Child {
    ghost use Rattle.nk_plan.specs.Run.{IsChildState};
    ghost use Rattle.nk_child.specs.Views.{ChildView, with_sent};

    ghost Value = { ChildView };

    ghost view = { λ s. record {
      plan = s.work.plan;
      state = with_sent s.work.plan (record s.work.state { journal = s.journal; trace = s.trace });
    } };

    ghost invariant = { λ s. IsChildState s.work.plan (with_sent s.work.plan (record s.work.state { journal = s.journal; trace = s.trace })) };
}

impl Child {
    /// The child of a plan, before its first step.
    pub fn new(alloc: Global, plan: &ChannelPlan) -> Result<Child, Memory>
        ensures { IfOk result (λ r. r ≡ record { plan = plan.now; state = new_child plan.now }) }
    {
        let plan = plan.share()?;
        Ok(Child {
            work: Work::new(alloc, plan),
            journal: ChildJournal::new(alloc),
            trace: Trace::new(alloc),
        })
    }

    /// What the child took and did, in order. With the plan it tells what was sent.
    pub fn journal(&self) -> &ChildJournal
        ensures journal { result.now ≡ self.now.state.journal }
        ensures state { IsChildState self.now.plan self.now.state }
        ensures run { IsChildRun self.now.plan result.now }
        ensures sent { self.now.state.sent ≡ sends_of self.now.plan result.now }
    {
        &self.journal
    }

    /// What the listener was shown, in order.
    pub fn trace(&self) -> &Trace
        ensures trace { result.now ≡ self.now.state.trace }
        ensures told { result.now ≡ trace_of self.now.plan self.now.state.journal }
    {
        state_law();
        &self.trace
    }

    /// The plan.
    pub fn plan(&self) -> &ChannelPlan
        ensures plan { result.now ≡ self.now.plan }
        ensures accepted { Accepted result.now }
    {
        &self.work.plan
    }

    /// How many suspends are not resumed.
    pub fn suspend_count(&self) -> usize
        ensures { result ≡ self.now.state.suspends }
    {
        self.work.queue.count()
    }

    /// The target on which a callback runs.
    pub fn running(&self) -> Option<Target>
        ensures { result ≡ running_target self.now.state.running }
    {
        self.work.running()
    }

    /// Whether the parent process is gone.
    pub fn is_broken(&self) -> bool
        ensures { result ≡ self.now.state.broken }
    {
        self.work.broken
    }

    /// Whether `Act` is enabled: the page opens the channel, or its next call is due.
    pub fn can_act(&self) -> bool
        ensures { result ≡ child_enabled self.now.plan child.Act self.now.state }
    {
        self.work.can_act()
    }

    /// Whether `Verdict` is enabled: a question is open.
    pub fn can_verdict(&self) -> bool
        ensures { result ≡ child_enabled self.now.plan child.Verdict self.now.state }
    {
        self.work.can_verdict()
    }

    /// Whether `Release` is enabled: a start is queued whose hop the hold has not let go.
    pub fn can_release(&self) -> bool
        ensures { result ≡ child_enabled self.now.plan child.Release self.now.state }
    {
        self.work.can_release()
    }

    /// Whether `Begin` is enabled on this target: nothing runs there, and a flush is under way or a task is posted.
    pub fn can_begin(&self, target: Target) -> bool
        ensures { result ≡ child_enabled self.now.plan (child.Begin target) self.now.state }
    {
        self.work.can_begin(target)
    }

    /// Whether `Finish` is enabled on this target: a callback runs there.
    pub fn can_finish(&self, target: Target) -> bool
        ensures { result ≡ child_enabled self.now.plan (child.Finish target) self.now.state }
    {
        self.work.runs_on(target)
    }

    /// What the listener was shown, and what the child took and did, given away.
    pub fn into_parts(self) -> (Trace, ChildJournal)
        ensures trace { result.0 ≡ self.state.trace }
        ensures journal { result.1 ≡ self.state.journal }
        ensures told { result.0 ≡ trace_of self.plan self.state.journal }
        ensures run { IsChildRun self.plan self.state.journal }
    {
        state_law();
        (self.trace, self.journal)
    }

    /// How the load stands: it is never opened, has stopped, is left suspended, or goes on.
    pub fn ending(&self) -> Ending
        ensures { result ≡ ending_of self.now.plan self.now.state.journal }
    {
        journal_law();
        state_law();
        self.standing()
    }

    /// How the load stands, by what the child keeps.
    fn standing(&self) -> Ending
        ensures standing { result ≡ standing self.now.plan self.now.state }
        ensures child { IsChildState self.now.plan self.now.state }
    {
        if self.work.plan.closed {
            Ending::Unopened
        } else if ends_in_stop(&self.trace) {
            Ending::Stopped
        } else if self.work.is_left_suspended() {
            Ending::Suspended
        } else {
            Ending::Going
        }
    }

    /// Makes a step, where its row of the table is enabled; else it is `Idle` and changes nothing. All memory is taken
    /// first: after `Memory` the child and both lists are as before.
    pub fn step<U: Out<UpMsg>, D: Out<Entry>>(
        &mut self,
        step: ChildStep,
        up: &mut U,
        delivery: &mut D,
    ) -> Result<Moved, Memory>
        requires up { 4 ≤ U.room up.old }
        requires delivery { 1 ≤ D.room delivery.old }
        requires in_range { IsStepInRange step }
        requires up_staged { U.staged up.old ≡ [] }
        requires delivery_staged { D.staged delivery.old ≡ [] }
        ensures state { OnOk result (self.new ≡ record self.old { state = child_step self.old.plan step self.old.state }) }
        ensures answer { IfOk result (λ r. r ≡ moved_if (child_enabled self.old.plan step self.old.state)) }
        ensures idle { IfOk result (λ r. r ≡ moved.Idle → self.new ≡ self.old) }
        ensures sent { OnOk result (U.held up.new ≡ U.held up.old ++ drop (length self.old.state.sent) self.new.state.sent) }
        ensures delivered { OnOk result (D.held delivery.new ≡ D.held delivery.old ++ drop (length self.old.state.trace) self.new.state.trace) }
        ensures up_staged { U.staged up.new ≡ [] }
        ensures delivery_staged { D.staged delivery.new ≡ [] }
        ensures up_room { OnOk result (U.room up.new + length (drop (length self.old.state.sent) self.new.state.sent) ≡ U.room up.old) }
        ensures delivery_room { OnOk result (D.room delivery.new + length (drop (length self.old.state.trace) self.new.state.trace) ≡ D.room delivery.old) }
        ensures err { OnErr result (self.new ≡ self.old) }
        ensures err_up { OnErr result (U.held up.new ≡ U.held up.old) }
        ensures err_delivery { OnErr result (D.held delivery.new ≡ D.held delivery.old) }
        ensures err_up_room { OnErr result (U.room up.new ≡ U.room up.old) }
        ensures err_delivery_room { OnErr result (D.room delivery.new ≡ D.room delivery.old) }
    {
        journal_law();
        state_law();
        let alloc = self.work.alloc();
        let journal = replace(&mut self.journal, ChildJournal::new(alloc));
        let trace = replace(&mut self.trace, Trace::new(alloc));
        self.work.put_lists(journal, trace);
        let moved = self.work.step(step, up, delivery);
        self.journal = self.work.take_journal();
        self.trace = self.work.take_trace();
        moved
    }
}

/// Whether the last entry is a stop.
#[tactic(auto, using(crate::proofs::Ends::last_tells))]
fn ends_in_stop(trace: &Trace) -> bool
    ensures { result ≡ ends_in_stop trace.now }
{
    is_stop(trace.as_slice().last())
}

/// Whether there is an entry, and it is a stop.
fn is_stop(last: Option<&Entry>) -> bool
    ensures { result ≡ is_stop (option_copied last.entry) }
{
    match last {
        None => false,
        Some(Entry::Stop { .. }) => true,
        Some(Entry::Start { .. }) => false,
        Some(Entry::Bytes { .. }) => false,
    }
}

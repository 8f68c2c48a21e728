// What a target does when its turn comes: it goes on with its flush, or does a task that was posted to it.

ghost use Rattle.std.specs.Prelude.{◌≡◌, ◌<◌, ◌++◌, ◌∷◌, ◌≤◌, ◌+◌, [], IfOk, OnOk, OnErr, length, true};
ghost use Rattle.std.specs.Bool.{OnTrue};
ghost use Rattle.nk_base.specs.Queue.{IsTarget, is_target, posted_to, completed};
ghost use Rattle.nk_queue.specs.Answers.{event_of, taken_by};
ghost use Rattle.nk_plan.specs.Event.{class_of};
ghost use Rattle.nk_plan.specs.Child.{flush_with, child_step};
ghost use Rattle.nk_plan.specs.Enabled.{child_enabled};
ghost use Rattle.nk_plan.specs.declared.step.ChildStep.TheVariants as step;
ghost use Rattle.nk_plan.specs.declared.journal.ChildEntry.TheVariants as entry;
ghost use Rattle.nk_base.specs.Status.{moved_if};
ghost use Rattle.nk_child.specs.Shown.{with_shown, event_sends, next_shown, next_sends};
ghost use Rattle.nk_child.specs.Views.{HasRoom, Leaves, Counted, Gains};

use crate::queued::Queued;
use crate::work::Work;
use nk_base::{Entry, Memory, Moved, Out, Target, UpMsg};
use nk_plan::{ChildEntry, ChildEvent};
use nk_queue::Taken;

impl Work {
    /// Stages what an event sends that runs next.
    fn stage_event<U: Out<UpMsg>>(&self, e: &Queued, up: &mut U) -> Result<(), Memory>
        requires up { 0 < U.room up.old }
        ensures staged { OnOk result (U.staged up.new ≡ U.staged up.old ++ event_sends self.now.state.kept e.now) }
        ensures held { U.held up.new ≡ U.held up.old }
        ensures room { U.room up.new + length (U.staged up.new) ≡ U.room up.old + length (U.staged up.old) }
    {
        match e.get() {
            ChildEvent::Cancel { status } => {
                if self.has_failed() {
                    return Ok(());
                }
                up.stage(UpMsg::Cancel { status: *status })
            }
            _ => Ok(()),
        }
    }

    /// Gets the event ready that a flush takes next, if it takes one.
    fn ready_next<U: Out<UpMsg>, D: Out<Entry>>(
        &self,
        t: Target,
        up: &mut U,
        delivery: &mut D,
    ) -> Result<Option<Entry>, Memory>
        requires up { 0 < U.room up.old }
        requires delivery { 0 < D.room delivery.old }
        ensures shown { IfOk result (λ r. r ≡ next_shown self.now.plan self.now.state.hop self.now.state.kept (event_of (taken_by class_of self.now.state.queue t))) }
        ensures staged { IfOk result (λ r. D.staged delivery.new ≡ with_shown (D.staged delivery.old) r) }
        ensures sends { OnOk result (U.staged up.new ≡ U.staged up.old ++ next_sends self.now.state.kept (event_of (taken_by class_of self.now.state.queue t))) }
        ensures up_held { U.held up.new ≡ U.held up.old }
        ensures up_room { U.room up.new + length (U.staged up.new) ≡ U.room up.old + length (U.staged up.old) }
        ensures delivery_held { D.held delivery.new ≡ D.held delivery.old }
        ensures delivery_room { D.room delivery.new + length (D.staged delivery.new) ≡ D.room delivery.old + length (D.staged delivery.old) }
    {
        match self.queue.next(t) {
            None => Ok(None),
            Some(e) => {
                self.stage_event(e, up)?;
                self.stage_shown(e, delivery)
            }
        }
    }

    /// The flush by this target takes what comes next, once what that shows and sends is ready.
    fn take_next(&mut self, t: Target, shown: Option<Entry>)
        requires here { IsTarget t }
        requires flushing { is_target self.old.state.queue.flushing t ≡ true }
        requires rooms { HasRoom 2 2 self.old.rooms }
        requires counts { Counted self.old.state }
        requires forced { self.old.state.queue.forced ≤ 1 }
        requires shown { shown ≡ next_shown self.old.plan self.old.state.hop self.old.state.kept (event_of (taken_by class_of self.old.state.queue t)) }
        ensures plan { self.new.plan ≡ self.old.plan }
        ensures state { self.new.state ≡ flush_with self.old.plan t (taken_by class_of self.old.state.queue t) self.old.state }
        ensures sent { self.new.state.sent ≡ self.old.state.sent ++ next_sends self.old.state.kept (event_of (taken_by class_of self.old.state.queue t)) }
        ensures trace { self.new.state.trace ≡ with_shown self.old.state.trace shown }
    {
        match self.queue.take(t) {
            Taken::Event(e) => self.run(t, e.into_event(), shown),
            Taken::HandOver(to) => self.note(ChildEntry::HandOver { from: t, to }),
            Taken::Ended => self.note(ChildEntry::Ended(t)),
        }
    }

    /// A flush by this target goes on.
    #[tactic(auto, using(crate::proofs::Gains::gains, crate::proofs::Gains::gains_shown))]
    fn flush<U: Out<UpMsg>, D: Out<Entry>>(
        &mut self,
        t: Target,
        up: &mut U,
        delivery: &mut D,
    ) -> Result<(), Memory>
        requires here { IsTarget t }
        requires flushing { is_target self.old.state.queue.flushing t ≡ true }
        requires rooms { HasRoom 2 2 self.old.rooms }
        requires counts { Counted self.old.state }
        requires forced { self.old.state.queue.forced ≤ 1 }
        requires up { 0 < U.room up.old }
        requires delivery { 0 < D.room delivery.old }
        ensures plan { self.new.plan ≡ self.old.plan }
        ensures state { OnOk result (self.new.state ≡ flush_with self.old.plan t (taken_by class_of self.old.state.queue t) self.old.state) }
        ensures sent { OnOk result (Gains self.old.state.sent self.new.state.sent (U.staged up.old) (U.staged up.new)) }
        ensures trace { OnOk result (Gains self.old.state.trace self.new.state.trace (D.staged delivery.old) (D.staged delivery.new)) }
        ensures err { OnErr result (self.new ≡ self.old) }
        ensures up_held { U.held up.new ≡ U.held up.old }
        ensures up_room { U.room up.new + length (U.staged up.new) ≡ U.room up.old + length (U.staged up.old) }
        ensures delivery_held { D.held delivery.new ≡ D.held delivery.old }
        ensures delivery_room { D.room delivery.new + length (D.staged delivery.new) ≡ D.room delivery.old + length (D.staged delivery.old) }
    {
        let shown = self.ready_next(t, up, delivery)?;
        self.take_next(t, shown);
        Ok(())
    }

    /// A task that was posted to this target is done.
    fn complete(&mut self, t: Target)
        requires here { IsTarget t }
        requires posted { 0 < posted_to self.old.state.queue t }
        requires rooms { HasRoom 1 0 self.old.rooms }
        ensures { Leaves 1 0 self.old self.new (record self.old.state {
          queue = completed self.old.state.queue t;
          journal = self.old.state.journal ++ entry.Complete t ∷ [];
        }) }
    {
        let _ = self.queue.complete(t);
        self.note(ChildEntry::Complete(t));
    }

    /// Whether a flush by this target is under way.
    #[tactic(auto, using(crate::proofs::Ranges::same_is_target))]
    fn flushes(&self, t: Target) -> bool
        ensures answer { result ≡ is_target self.now.state.queue.flushing t }
        ensures target { OnTrue result (IsTarget t) }
    {
        match self.queue.flushing() {
            None => false,
            Some(own) => own.is(t),
        }
    }

    /// Whether this target has a turn: nothing runs there, and a flush is under way or a task is posted.
    pub(crate) fn can_begin(&self, t: Target) -> bool
        ensures { result ≡ child_enabled self.now.plan (step.Begin t) self.now.state }
    {
        !self.runs_on(t) && (self.flushes(t) || self.queue.posted(t) > 0)
    }

    /// The turn of this target comes.
    #[tactic(auto, using(crate::proofs::Gains::gains_none))]
    pub(crate) fn begin<U: Out<UpMsg>, D: Out<Entry>>(
        &mut self,
        t: Target,
        up: &mut U,
        delivery: &mut D,
    ) -> Result<Moved, Memory>
        requires rooms { HasRoom 2 2 self.old.rooms }
        requires counts { Counted self.old.state }
        requires forced { self.old.state.queue.forced ≤ 1 }
        requires up { 0 < U.room up.old }
        requires delivery { 0 < D.room delivery.old }
        ensures plan { self.new.plan ≡ self.old.plan }
        ensures state { OnOk result (self.new.state ≡ child_step self.old.plan (step.Begin t) self.old.state) }
        ensures answer { IfOk result (λ r. r ≡ moved_if (child_enabled self.old.plan (step.Begin t) self.old.state)) }
        ensures sent { OnOk result (Gains self.old.state.sent self.new.state.sent (U.staged up.old) (U.staged up.new)) }
        ensures trace { OnOk result (Gains self.old.state.trace self.new.state.trace (D.staged delivery.old) (D.staged delivery.new)) }
        ensures err { OnErr result (self.new ≡ self.old) }
        ensures up_held { U.held up.new ≡ U.held up.old }
        ensures up_room { U.room up.new + length (U.staged up.new) ≡ U.room up.old + length (U.staged up.old) }
        ensures delivery_held { D.held delivery.new ≡ D.held delivery.old }
        ensures delivery_room { D.room delivery.new + length (D.staged delivery.new) ≡ D.room delivery.old + length (D.staged delivery.old) }
    {
        if self.runs_on(t) {
            return Ok(Moved::Idle);
        }
        if self.flushes(t) {
            self.flush(t, up, delivery)?;
            return Ok(Moved::Did);
        }
        if self.queue.posted(t) == 0 {
            return Ok(Moved::Idle);
        }
        self.complete(t);
        Ok(Moved::Did)
    }
}

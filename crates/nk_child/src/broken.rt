// The parent process is gone: the load ends with the failure that this is, whatever was still to come.

ghost use Rattle.std.specs.Prelude.{◌≡◌, ◌<◌, ◌++◌, ◌∷◌, ◌+◌, [], Option, IfOk, OnOk, OnErr, length, true};
ghost use Rattle.nk_base.specs.declared.status.Status.{Status};
ghost use Rattle.nk_base.specs.declared.status.Target.TheVariants as target;
ghost use Rattle.nk_base.specs.Queue.{cleared, is_busy};
ghost use Rattle.nk_plan.specs.declared.plan.Act.TheVariants as act;
ghost use Rattle.nk_plan.specs.Child.{perform_call, is_empty, offer_event};
ghost use Rattle.nk_plan.specs.declared.journal.ChildEntry.TheVariants as entry;
ghost use Rattle.nk_base.specs.Status.{merged};
ghost use Rattle.nk_child.specs.Shown.{with_shown, event_shown, event_sends, offer_shown};
ghost use Rattle.nk_child.specs.Views.{HasRoom, Leaves, Counted, Gains};

use crate::queued::Queued;
use crate::work::Work;
use nk_base::{Entry, Memory, Out, Status, Target};
use nk_plan::{ChildEntry, ChildEvent};

impl Work {
    /// Whether the listener was shown nothing yet.
    fn is_unstarted(&self) -> bool
        ensures { result ≡ is_empty self.now.state.trace }
    {
        self.trace.as_slice().is_empty()
    }

    /// Gets ready what the listener is shown of the first event of a break.
    fn ready_broken<D: Out<Entry>>(
        &self,
        status: Status,
        e: &Queued,
        delivery: &mut D,
    ) -> Result<Option<Entry>, Memory>
        requires room { 0 < D.room delivery.old }
        requires same { event_shown self.now.plan self.now.state.hop (merged self.now.state.kept status) e.now
            ≡ event_shown self.now.plan self.now.state.hop self.now.state.kept e.now }
        ensures shown { IfOk result (λ r. r ≡ offer_shown self.now.plan self.now.state.hop (merged self.now.state.kept status) (cleared self.now.state.queue) target.Main e.now) }
        ensures staged { IfOk result (λ r. D.staged delivery.new ≡ with_shown (D.staged delivery.old) r) }
        ensures held { D.held delivery.new ≡ D.held delivery.old }
        ensures room { D.room delivery.new + length (D.staged delivery.new) ≡ D.room delivery.old + length (D.staged delivery.old) }
    {
        if !self.queue.runs_cleared(e, Target::Main) {
            return Ok(None);
        }
        self.stage_shown(e, delivery)
    }

    /// The child is broken, and the first event of that is offered, once what it shows is ready.
    fn break_now(&mut self, status: Status, e: Queued, shown: Option<Entry>)
        requires rooms { HasRoom 2 2 self.old.rooms }
        requires counts { Counted self.old.state }
        requires quiet { (kept : Option Status) → event_sends kept e ≡ [] }
        requires shown { shown ≡ offer_shown self.old.plan self.old.state.hop (merged self.old.state.kept status) (cleared self.old.state.queue) target.Main e }
        ensures ok { Leaves 2 1 self.old self.new (offer_event self.old.plan target.Main e
            (record self.old.state {
              broken = true;
              kept = merged self.old.state.kept status;
              queue = cleared self.old.state.queue;
              journal = self.old.state.journal ++ entry.Break status ∷ [];
            })) }
        ensures trace { self.new.state.trace ≡ with_shown self.old.state.trace shown }
        ensures sent { self.new.state.sent ≡ self.old.state.sent }
        ensures busy { is_busy self.new.state.queue ≡ true }
    {
        self.drop_waiting(status);
        self.offer(Target::Main, e, shown);
    }

    /// The child is broken, and the first event of that is offered.
    #[tactic(auto, using(crate::proofs::Gains::gains_shown))]
    fn break_with<D: Out<Entry>>(
        &mut self,
        status: Status,
        e: Queued,
        delivery: &mut D,
    ) -> Result<(), Memory>
        requires rooms { HasRoom 2 2 self.old.rooms }
        requires counts { Counted self.old.state }
        requires quiet { (kept : Option Status) → event_sends kept e ≡ [] }
        requires room { 0 < D.room delivery.old }
        requires same { event_shown self.old.plan self.old.state.hop (merged self.old.state.kept status) e
            ≡ event_shown self.old.plan self.old.state.hop self.old.state.kept e }
        ensures ok { OnOk result (Leaves 2 1 self.old self.new (offer_event self.old.plan target.Main e
            (record self.old.state {
              broken = true;
              kept = merged self.old.state.kept status;
              queue = cleared self.old.state.queue;
              journal = self.old.state.journal ++ entry.Break status ∷ [];
            }))) }
        ensures trace { OnOk result (Gains self.old.state.trace self.new.state.trace (D.staged delivery.old) (D.staged delivery.new)) }
        ensures sent { self.new.state.sent ≡ self.old.state.sent }
        ensures busy { OnOk result (is_busy self.new.state.queue ≡ true) }
        ensures err { OnErr result (self.new ≡ self.old) }
        ensures held { D.held delivery.new ≡ D.held delivery.old }
        ensures room { D.room delivery.new + length (D.staged delivery.new) ≡ D.room delivery.old + length (D.staged delivery.old) }
    {
        let shown = self.ready_broken(status, &e, delivery)?;
        self.break_now(status, e, shown);
        Ok(())
    }

    /// The child is broken: it keeps this failure, and drops what waits.
    fn drop_waiting(&mut self, status: Status)
        requires rooms { HasRoom 1 0 self.old.rooms }
        ensures { Leaves 1 0 self.old self.new
            (record self.old.state {
              broken = true;
              kept = merged self.old.state.kept status;
              queue = cleared self.old.state.queue;
              journal = self.old.state.journal ++ entry.Break status ∷ [];
            }) }
    {
        self.merge(status);
        self.queue.clear();
        self.broken = true;
        self.note(ChildEntry::Break(status));
    }

    /// The parent process is gone: what waits is dropped, and the load ends with this failure.
    #[tactic(auto, using(crate::proofs::Same::start_twice, crate::proofs::Same::stop_twice, crate::proofs::Gains::gains_none))]
    pub(crate) fn break_off<D: Out<Entry>>(
        &mut self,
        status: Status,
        delivery: &mut D,
    ) -> Result<(), Memory>
        requires rooms { HasRoom 2 2 self.old.rooms }
        requires counts { Counted self.old.state }
        requires room { 0 < D.room delivery.old }
        ensures ok { OnOk result (Leaves 2 2 self.old self.new (perform_call self.old.plan (act.Break status) self.old.state)) }
        ensures trace { OnOk result (Gains self.old.state.trace self.new.state.trace (D.staged delivery.old) (D.staged delivery.new)) }
        ensures sent { self.new.state.sent ≡ self.old.state.sent }
        ensures err { OnErr result (self.new ≡ self.old) }
        ensures held { D.held delivery.new ≡ D.held delivery.old }
        ensures room { D.room delivery.new + length (D.staged delivery.new) ≡ D.room delivery.old + length (D.staged delivery.old) }
    {
        if self.stopped || self.broken {
            self.note(ChildEntry::NoEffect);
            return Ok(());
        }
        let stop = Queued::new(ChildEvent::Stop { status });
        if !self.is_unstarted() {
            return self.break_with(status, stop, delivery);
        }
        let start = Queued::new(ChildEvent::Start { code: 0, status });
        self.break_with(status, start, delivery)?;
        self.offer_next(Target::Main, stop);
        Ok(())
    }
}

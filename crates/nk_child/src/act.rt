// The page opens the channel, and makes its calls when they are due.

ghost use Rattle.std.specs.Prelude.{◌≡◌, ◌<◌, ◌++◌, ◌∷◌, ◌+◌, [], IfOk, IfSome, slice_get, OnOk, OnErr, length, is_some, true, nat_lt};
ghost use Rattle.nk_plan.specs.Accepted.{IsGoodAct};
ghost use Rattle.nk_plan.specs.Child.{perform_call, is_due, child_step};
ghost use Rattle.nk_plan.specs.Enabled.{child_enabled};
ghost use Rattle.nk_plan.specs.Ending.{is_left_suspended};
ghost use Rattle.nk_plan.specs.declared.step.ChildStep.TheVariants as step;
ghost use Rattle.nk_base.specs.declared.message.UpMsg.TheVariants as up_message;
ghost use Rattle.nk_base.specs.Status.{moved_if};
ghost use Rattle.nk_child.specs.Reactions.{due_act};
ghost use Rattle.nk_plan.specs.declared.journal.ChildEntry.TheVariants as entry;
ghost use Rattle.nk_child.specs.Views.{HasRoom, Leaves, Counted, Gains};

use crate::work::Work;
use nk_base::{Entry, Memory, Moved, Out, UpMsg};
use nk_plan::{Act, ChildEntry};

impl Work {
    /// Performs a call of the page.
    #[tactic(auto, using(crate::proofs::Gains::gains, crate::proofs::Gains::gains_none))]
    fn perform<U: Out<UpMsg>, D: Out<Entry>>(
        &mut self,
        act: Act,
        up: &mut U,
        delivery: &mut D,
    ) -> Result<(), Memory>
        requires rooms { HasRoom 2 2 self.old.rooms }
        requires counts { Counted self.old.state }
        requires good { IsGoodAct act }
        requires up { 0 < U.room up.old }
        requires delivery { 0 < D.room delivery.old }
        ensures ok { OnOk result (Leaves 2 2 self.old self.new (perform_call self.old.plan act self.old.state)) }
        ensures sent { OnOk result (Gains self.old.state.sent self.new.state.sent (U.staged up.old) (U.staged up.new)) }
        ensures trace { OnOk result (Gains self.old.state.trace self.new.state.trace (D.staged delivery.old) (D.staged delivery.new)) }
        ensures err { OnErr result (self.new ≡ self.old) }
        ensures up_held { U.held up.new ≡ U.held up.old }
        ensures up_room { U.room up.new + length (U.staged up.new) ≡ U.room up.old + length (U.staged up.old) }
        ensures delivery_held { D.held delivery.new ≡ D.held delivery.old }
        ensures delivery_room { D.room delivery.new + length (D.staged delivery.new) ≡ D.room delivery.old + length (D.staged delivery.old) }
    {
        match act {
            Act::Suspend => {
                self.stage_suspend(up)?;
                self.suspend();
                Ok(())
            }
            Act::Resume => {
                self.stage_resume(up)?;
                self.resume();
                Ok(())
            }
            Act::Cancel(status) => {
                self.stage_cancel(status, up)?;
                self.cancel(status);
                Ok(())
            }
            Act::Retarget(worker) => {
                self.retarget(worker);
                Ok(())
            }
            Act::Break(status) => self.break_off(status, delivery),
        }
    }

    /// The page's next call, if it is due.
    #[tactic(auto, using(crate::proofs::Ranges::all_at))]
    fn due(&self) -> Option<Act>
        ensures due { result ≡ due_act self.now.state (slice_get self.now.plan.controls self.now.state.next) }
        ensures good { IfSome result IsGoodAct }
        ensures next { IfSome result (λ _. self.now.state.next < 64) }
    {
        if self.next >= self.plan.controls.len() {
            return None;
        }
        let control = *self.plan.controls.get(self.next);
        if control.after as usize > self.finished {
            return None;
        }
        Some(control.act)
    }

    /// Whether the page has left the channel suspended: it is opened, nothing runs, and no call is due.
    #[tactic(auto, using(crate::proofs::Acts::due_told))]
    pub(crate) fn is_left_suspended(&self) -> bool
        ensures { result ≡ is_left_suspended self.now.state.opened (nat_lt 0 self.now.state.suspends) (is_some self.now.state.running)
            (is_due self.now.state (slice_get self.now.plan.controls self.now.state.next)) }
    {
        self.opened && self.queue.count() > 0 && self.running.is_none() && self.due().is_none()
    }

    /// The page opens the channel.
    #[tactic(auto, using(crate::proofs::Gains::gains))]
    fn open<U: Out<UpMsg>>(&mut self, up: &mut U) -> Result<(), Memory>
        requires rooms { HasRoom 1 0 self.old.rooms }
        requires up { 0 < U.room up.old }
        ensures plan { self.new.plan ≡ self.old.plan }
        ensures state { OnOk result (self.new.state ≡ record self.old.state {
          opened = true;
          sent = self.old.state.sent ++ up_message.Open ∷ [];
          journal = self.old.state.journal ++ entry.Open ∷ [];
        }) }
        ensures sent { OnOk result (Gains self.old.state.sent self.new.state.sent (U.staged up.old) (U.staged up.new)) }
        ensures err { OnErr result (self.new ≡ self.old) }
        ensures held { U.held up.new ≡ U.held up.old }
        ensures room { U.room up.new + length (U.staged up.new) ≡ U.room up.old + length (U.staged up.old) }
    {
        up.stage(UpMsg::Open)?;
        self.opened = true;
        self.sent.push(UpMsg::Open);
        self.note(ChildEntry::Open);
        Ok(())
    }

    /// Whether the page opens the channel, or its next call is due.
    #[tactic(auto, using(crate::proofs::Acts::due_told))]
    pub(crate) fn can_act(&self) -> bool
        ensures { result ≡ child_enabled self.now.plan step.Act self.now.state }
    {
        !self.plan.closed && (!self.opened || self.due().is_some())
    }

    /// The page opens the channel, or makes its next call.
    #[tactic(auto, using(crate::proofs::Acts::none_due, crate::proofs::Acts::one_due, crate::proofs::Gains::gains_none))]
    pub(crate) fn act<U: Out<UpMsg>, D: Out<Entry>>(
        &mut self,
        up: &mut U,
        delivery: &mut D,
    ) -> Result<Moved, Memory>
        requires rooms { HasRoom 2 2 self.old.rooms }
        requires counts { Counted self.old.state }
        requires up { 0 < U.room up.old }
        requires delivery { 0 < D.room delivery.old }
        ensures plan { self.new.plan ≡ self.old.plan }
        ensures state { OnOk result (self.new.state ≡ child_step self.old.plan step.Act self.old.state) }
        ensures answer { IfOk result (λ r. r ≡ moved_if (child_enabled self.old.plan step.Act self.old.state)) }
        ensures sent { OnOk result (Gains self.old.state.sent self.new.state.sent (U.staged up.old) (U.staged up.new)) }
        ensures trace { OnOk result (Gains self.old.state.trace self.new.state.trace (D.staged delivery.old) (D.staged delivery.new)) }
        ensures err { OnErr result (self.new ≡ self.old) }
        ensures up_held { U.held up.new ≡ U.held up.old }
        ensures up_room { U.room up.new + length (U.staged up.new) ≡ U.room up.old + length (U.staged up.old) }
        ensures delivery_held { D.held delivery.new ≡ D.held delivery.old }
        ensures delivery_room { D.room delivery.new + length (D.staged delivery.new) ≡ D.room delivery.old + length (D.staged delivery.old) }
    {
        if self.plan.closed {
            return Ok(Moved::Idle);
        }
        if !self.opened {
            self.open(up)?;
            return Ok(Moved::Did);
        }
        match self.due() {
            None => Ok(Moved::Idle),
            Some(act) => {
                self.next += 1;
                match self.perform(act, up, delivery) {
                    Ok(()) => Ok(Moved::Did),
                    Err(e) => {
                        self.next -= 1;
                        Err(e)
                    }
                }
            }
        }
    }
}

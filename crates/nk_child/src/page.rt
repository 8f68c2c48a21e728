// The calls of the page. What a call sends is staged first, which may want memory.

ghost use Rattle.std.specs.Prelude.{◌≡◌, ◌<◌, ◌++◌, ◌≤◌, ◌+◌, ◌^◌, IfErr, OnOk, None, Some, length, true};
ghost use Rattle.nk_base.specs.declared.status.Target.{Target};
ghost use Rattle.nk_base.specs.declared.status.Target.TheVariants as target;
ghost use Rattle.nk_base.specs.Queue.{IsTarget, posted_to, retargeted};
ghost use Rattle.nk_base.specs.Status.{is_failure};
ghost use Rattle.nk_plan.specs.declared.plan.Act.TheVariants as act;
ghost use Rattle.nk_plan.specs.Child.{perform_call, refusal};
ghost use Rattle.nk_child.specs.Reactions.{suspend_sends, resume_sends, cancel_sends};
ghost use Rattle.nk_child.specs.Views.{HasRoom, Leaves};

use crate::work::Work;
use nk_base::{Memory, Out, RetargetError, Status, Target, UpMsg};
use nk_plan::ChildEntry;
use nk_retarget::ChannelView;

impl Work {
    /// The channel is suspended once more, once its message is staged.
    pub(crate) fn suspend(&mut self)
        requires room { HasRoom 1 0 self.old.rooms }
        requires count { self.old.state.queue.count < 2 ^ 63 }
        ensures ok { Leaves 1 0 self.old self.new (perform_call self.old.plan act.Suspend self.old.state) }
        ensures trace { self.new.state.trace ≡ self.old.state.trace }
        ensures sent { self.new.state.sent ≡ self.old.state.sent ++ suspend_sends self.old.state }
        ensures count { self.new.state.queue.count ≤ self.old.state.queue.count + 1 }
        ensures forced { self.new.state.queue.forced ≡ self.old.state.queue.forced }
        ensures running { self.new.state.running ≡ self.old.state.running }
    {
        if self.stopped {
            self.note(ChildEntry::NoEffect);
            return;
        }
        if self.queue.count() == 0 {
            self.sent.push(UpMsg::Suspend);
        }
        self.queue.suspend();
        self.note(ChildEntry::Suspend);
    }

    /// The channel is resumed once, once its message is staged.
    pub(crate) fn resume(&mut self)
        requires room { HasRoom 1 0 self.old.rooms }
        requires posted { (t : Target) → posted_to self.old.state.queue t < 2 ^ 62 }
        ensures ok { Leaves 1 0 self.old self.new (perform_call self.old.plan act.Resume self.old.state) }
        ensures trace { self.new.state.trace ≡ self.old.state.trace }
        ensures sent { self.new.state.sent ≡ self.old.state.sent ++ resume_sends self.old.state }
    {
        if self.stopped || self.queue.count() == 0 {
            self.note(ChildEntry::NoEffect);
            return;
        }
        if self.queue.count() == 1 {
            self.sent.push(UpMsg::Resume);
        }
        let _ = self.queue.resume();
        self.note(ChildEntry::Resume);
    }

    /// The channel is cancelled, once its message is staged.
    pub(crate) fn cancel(&mut self, status: Status)
        requires room { HasRoom 1 0 self.old.rooms }
        ensures ok { Leaves 1 0 self.old self.new (perform_call self.old.plan (act.Cancel status) self.old.state) }
        ensures trace { self.new.state.trace ≡ self.old.state.trace }
        ensures sent { self.new.state.sent ≡ self.old.state.sent ++ cancel_sends status self.old.state }
        ensures count { self.new.state.queue.count ≡ self.old.state.queue.count }
        ensures forced { self.new.state.queue.forced ≡ self.old.state.queue.forced }
        ensures running { self.new.state.running ≡ self.old.state.running }
    {
        if self.stopped || self.has_failed() {
            self.note(ChildEntry::NoEffect);
            return;
        }
        self.merge(status);
        self.sent.push(UpMsg::Cancel { status });
        self.note(ChildEntry::Cancel(status));
    }

    /// The page asks for its data on this worker.
    pub(crate) fn retarget(&mut self, worker: u8)
        requires worker { IsTarget (target.Worker worker) }
        requires room { HasRoom 1 0 self.old.rooms }
        ensures ok { Leaves 1 0 self.old self.new (perform_call self.old.plan (act.Retarget worker) self.old.state) }
        ensures trace { self.new.state.trace ≡ self.old.state.trace }
        ensures sent { self.new.state.sent ≡ self.old.state.sent }
        ensures count { self.new.state.queue.count ≡ self.old.state.queue.count }
        ensures forced { self.new.state.queue.forced ≡ self.old.state.queue.forced }
        ensures running { self.new.state.running ≡ self.old.state.running }
    {
        match self.move_data(worker) {
            Ok(()) => self.note(ChildEntry::Retarget(worker)),
            Err(why) => self.note(ChildEntry::NoRetarget(why)),
        }
    }

    /// Moves the data to this worker, that of the events that wait too, or tells why it is not moved.
    #[tactic(auto, using(crate::proofs::Same::refused))]
    fn move_data(&mut self, worker: u8) -> Result<(), RetargetError>
        requires worker { IsTarget (target.Worker worker) }
        ensures none { OnOk result (refusal self.old.plan self.old.state ≡ None) }
        ensures moved { OnOk result (self.new ≡ record self.old {
          state = record self.old.state {
            delivery = Some worker;
            queue = retargeted self.old.state.queue (target.Worker worker);
          };
        }) }
        ensures err { IfErr result (λ e. (refusal self.old.plan self.old.state ≡ Some e) × (self.new ≡ self.old)) }
    {
        let view = ChannelView {
            opened: self.opened,
            stopped: self.stopped,
            status: self.status(),
        };
        self.delivery.retarget(view, worker)?;
        self.queue.set_data_target(Target::Worker(worker));
        Ok(())
    }

    /// Stages what a suspend sends.
    pub(crate) fn stage_suspend<U: Out<UpMsg>>(&self, up: &mut U) -> Result<(), Memory>
        requires up { 0 < U.room up.old }
        ensures staged { OnOk result (U.staged up.new ≡ U.staged up.old ++ suspend_sends self.now.state) }
        ensures held { U.held up.new ≡ U.held up.old }
        ensures room { U.room up.new + length (U.staged up.new) ≡ U.room up.old + length (U.staged up.old) }
    {
        if self.stopped || self.queue.count() > 0 {
            return Ok(());
        }
        up.stage(UpMsg::Suspend)
    }

    /// Stages what a resume sends.
    pub(crate) fn stage_resume<U: Out<UpMsg>>(&self, up: &mut U) -> Result<(), Memory>
        requires up { 0 < U.room up.old }
        ensures staged { OnOk result (U.staged up.new ≡ U.staged up.old ++ resume_sends self.now.state) }
        ensures held { U.held up.new ≡ U.held up.old }
        ensures room { U.room up.new + length (U.staged up.new) ≡ U.room up.old + length (U.staged up.old) }
    {
        if self.stopped || self.queue.count() != 1 {
            return Ok(());
        }
        up.stage(UpMsg::Resume)
    }

    /// Stages what a cancel sends.
    pub(crate) fn stage_cancel<U: Out<UpMsg>>(
        &self,
        status: Status,
        up: &mut U,
    ) -> Result<(), Memory>
        requires up { 0 < U.room up.old }
        requires failure { is_failure status ≡ true }
        ensures staged { OnOk result (U.staged up.new ≡ U.staged up.old ++ cancel_sends status self.now.state) }
        ensures held { U.held up.new ≡ U.held up.old }
        ensures room { U.room up.new + length (U.staged up.new) ≡ U.room up.old + length (U.staged up.old) }
    {
        if self.stopped || self.has_failed() {
            return Ok(());
        }
        up.stage(UpMsg::Cancel { status })
    }
}

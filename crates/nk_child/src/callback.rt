// A callback of the listener returns: its reactions are performed, and what was read is sent up.

ghost use Rattle.std.specs.Prelude.{◌≡◌, ◌<◌, ◌++◌, ◌∷◌, ◌≤◌, ◌+◌, ◌-◌, ◌^◌, [], suc, IfOk, IfSome, OnOk, OnErr, length, slice_get, true, None, Some};
ghost use Rattle.nk_base.specs.declared.message.UpMsg.TheVariants as up_message;
ghost use Rattle.nk_base.specs.Queue.{IsTarget, posted_to, unforced};
ghost use Rattle.nk_base.specs.Ranges.{IsReadCount};
ghost use Rattle.nk_base.specs.Status.{is_failure, ok, moved_if};
ghost use Rattle.nk_plan.specs.Accepted.{IsGoodReaction};
ghost use Rattle.nk_plan.specs.Child.{react, react_all, bytes_failure, prepend_cancel, fail_data, finish_event, perform_call, runs_on, step_finish, child_step};
ghost use Rattle.nk_plan.specs.Enabled.{child_enabled};
ghost use Rattle.nk_plan.specs.declared.step.ChildStep.TheVariants as step;
ghost use Rattle.nk_plan.specs.declared.event.ChildEvent.TheVariants as event;
ghost use Rattle.nk_plan.specs.declared.journal.ChildEntry.TheVariants as entry;
ghost use Rattle.nk_child.specs.Reactions.{start_sends, failure_of};
ghost use Rattle.nk_plan.specs.declared.plan.Act.TheVariants as act;
ghost use Rattle.nk_base.specs.declared.status.Target.{Target};
ghost use Rattle.nk_base.specs.declared.status.Target.TheVariants as target;
ghost use Rattle.nk_child.specs.Views.{HasRoom, Leaves, Counted, Gains};

use crate::queued::Queued;
use crate::standing::Standing;
use crate::work::Work;
use nk_base::{Memory, Moved, Out, Status, Target, UpMsg};
use nk_plan::{ChannelPlan, ChildEntry, ChildEvent, Reaction};

// Reaction i of a plan, counted from 0.
fn reaction_of(plan: &ChannelPlan, i: usize) -> Reaction
    requires { i < length plan.now.reactions }
    ensures { slice_get plan.now.reactions i ≡ Some result }
{
    *plan.reactions.get(i)
}

impl Work {
    /// Nothing runs any more on this target.
    fn end_callback(&mut self, t: Target)
        requires room { 0 < self.old.rooms.journal }
        requires finished { self.old.state.finished < 2 ^ 62 }
        ensures { self.new ≡ record self.old {
          state = record self.old.state {
            running = None;
            finished = suc self.old.state.finished;
            journal = self.old.state.journal ++ entry.Finish t ∷ [];
          };
          rooms = record self.old.rooms { journal = self.old.rooms.journal - 1 };
        } }
    {
        self.running = None;
        self.finished += 1;
        self.note(ChildEntry::Finish(t));
    }

    /// One reaction of the start callback is performed, once its message is staged.
    fn react(&mut self, r: Reaction)
        requires rooms { HasRoom 1 0 self.old.rooms }
        requires count { self.old.state.queue.count < 2 ^ 63 }
        requires good { IsGoodReaction r }
        ensures ok { Leaves 1 0 self.old self.new (react self.old.plan r self.old.state) }
        ensures trace { self.new.state.trace ≡ self.old.state.trace }
        ensures count { self.new.state.queue.count ≤ self.old.state.queue.count + 1 }
        ensures forced { self.new.state.queue.forced ≡ self.old.state.queue.forced }
        ensures running { self.new.state.running ≡ self.old.state.running }
    {
        match r {
            Reaction::StartRetarget(worker) => self.retarget(worker),
            Reaction::StartSuspend => self.suspend(),
            Reaction::StartCancel(status) => self.cancel(status),
            Reaction::StartFail(status) => self.cancel(status),
            Reaction::BytesFail { .. } => {}
        }
    }

    /// The stop callback returns.
    #[tactic(auto, using(crate::proofs::Gains::gains))]
    fn finish_stop<U: Out<UpMsg>>(&mut self, t: Target, up: &mut U) -> Result<(), Memory>
        requires here { IsTarget t }
        requires rooms { HasRoom 2 2 self.old.rooms }
        requires counts { Counted self.old.state }
        requires forced { 0 < self.old.state.queue.forced }
        requires up { 0 < U.room up.old }
        ensures plan { self.new.plan ≡ self.old.plan }
        ensures state { OnOk result (self.new.state ≡ record self.old.state {
          running = None;
          finished = suc self.old.state.finished;
          queue = unforced self.old.state.queue t;
          journal = self.old.state.journal ++ entry.Finish t ∷ [];
          sent = self.old.state.sent ++ up_message.Deleting ∷ [];
        }) }
        ensures sent { OnOk result (Gains self.old.state.sent self.new.state.sent (U.staged up.old) (U.staged up.new)) }
        ensures err { OnErr result (self.new ≡ self.old) }
        ensures held { U.held up.new ≡ U.held up.old }
        ensures room { U.room up.new + length (U.staged up.new) ≡ U.room up.old + length (U.staged up.old) }
    {
        up.stage(UpMsg::Deleting)?;
        self.end_callback(t);
        self.sent.push(UpMsg::Deleting);
        let _ = self.queue.end_forced(t);
        Ok(())
    }

    /// Stages what the reactions of the start callback send.
    #[tactic(auto, using(crate::proofs::Reacting::staged_next, crate::proofs::Reacting::drop_at, crate::proofs::Reacting::none_left, crate::proofs::Gains::nothing_behind))]
    fn stage_reactions<U: Out<UpMsg>>(&self, up: &mut U) -> Result<(), Memory>
        requires up { 2 ≤ U.room up.old }
        ensures staged { OnOk result (U.staged up.new ≡ U.staged up.old ++ start_sends self.now.state self.now.plan.reactions) }
        ensures held { U.held up.new ≡ U.held up.old }
        ensures room { U.room up.new + length (U.staged up.new) ≡ U.room up.old + length (U.staged up.old) }
    {
        if self.stopped {
            return Ok(());
        }
        let mut standing = Standing {
            suspended: self.queue.count() > 0,
            failed: self.has_failed(),
        };
        let most = self.plan.reactions.len();
        for i in 0..most {
            standing.stage(reaction_of(&self.plan, i), up)?;
        }
        Ok(())
    }

    /// The reactions of the start callback are performed in order, once their messages are staged.
    #[tactic(auto, using(crate::proofs::Reacting::reacted_next, crate::proofs::Reacting::drop_at, crate::proofs::Reacting::none_left))]
    fn react_all(&mut self)
        requires room { 64 ≤ self.old.rooms.journal }
        requires sent { 64 ≤ self.old.rooms.sent }
        requires count { self.old.state.queue.count < 2 ^ 62 }
        ensures plan { self.new.plan ≡ self.old.plan }
        ensures state { self.new.state ≡ react_all self.old.plan self.old.plan.reactions self.old.state }
        ensures trace { self.new.state.trace ≡ self.old.state.trace }
        ensures forced { self.new.state.queue.forced ≡ self.old.state.queue.forced }
        ensures running { self.new.state.running ≡ self.old.state.running }
    {
        let most = self.plan.reactions.len();
        for i in 0..most {
            let reaction = reaction_of(&self.plan, i);
            self.react(reaction);
        }
    }

    /// The start callback returns.
    #[tactic(auto, using(crate::proofs::Gains::gains, crate::proofs::Reacting::reactions_sent))]
    fn finish_start<U: Out<UpMsg>>(&mut self, t: Target, up: &mut U) -> Result<(), Memory>
        requires here { IsTarget t }
        requires rooms { HasRoom 66 2 self.old.rooms }
        requires counts { Counted self.old.state }
        requires forced { 0 < self.old.state.queue.forced }
        requires up { 2 ≤ U.room up.old }
        ensures plan { self.new.plan ≡ self.old.plan }
        ensures state { OnOk result (self.new.state ≡ finish_event self.old.plan t (event.Start 0 ok) (record self.old.state {
          running = None;
          finished = suc self.old.state.finished;
          journal = self.old.state.journal ++ entry.Finish t ∷ [];
        })) }
        ensures sent { OnOk result (Gains self.old.state.sent self.new.state.sent (U.staged up.old) (U.staged up.new)) }
        ensures trace { self.new.state.trace ≡ self.old.state.trace }
        ensures err { OnErr result (self.new ≡ self.old) }
        ensures held { U.held up.new ≡ U.held up.old }
        ensures room { U.room up.new + length (U.staged up.new) ≡ U.room up.old + length (U.staged up.old) }
    {
        self.stage_reactions(up)?;
        self.end_callback(t);
        self.react_all();
        let _ = self.queue.end_forced(t);
        Ok(())
    }

    /// The failure of the data callback that runs, if a reaction names it.
    #[tactic(auto, using(crate::proofs::Reacting::named_at, crate::proofs::Reacting::not_named_at, crate::proofs::Reacting::none_left))]
    fn bytes_failure(&self) -> Option<Status>
        ensures status { result ≡ bytes_failure self.now.plan.reactions self.now.state.data_begun }
        ensures failure { IfSome result (λ s. is_failure s ≡ true) }
    {
        let most = self.plan.reactions.len();
        for i in 0..most {
            if let Some(status) = failure_of(*self.plan.reactions.get(i), self.data_begun) {
                return Some(status);
            }
        }
        None
    }

    /// A data callback returns, and its bytes are entered as read.
    fn read_on(&mut self, t: Target, count: u32)
        requires rooms { HasRoom 1 0 self.old.rooms }
        requires finished { self.old.state.finished < 2 ^ 62 }
        ensures { Leaves 1 0 self.old self.new (record self.old.state {
          running = None;
          finished = suc self.old.state.finished;
          journal = self.old.state.journal ++ entry.Finish t ∷ [];
          sent = self.old.state.sent ++ up_message.BytesRead count ∷ [];
        }) }
    {
        self.end_callback(t);
        self.sent.push(UpMsg::BytesRead { count });
    }

    /// A worker may not cancel: it puts a cancel in front of what waits.
    fn prepend_cancel(&mut self, status: Status)
        requires failure { is_failure status ≡ true }
        requires rooms { HasRoom 1 1 self.old.rooms }
        requires count { self.old.state.queue.count < 2 ^ 62 }
        requires posted { (t : Target) → posted_to self.old.state.queue t < 2 ^ 62 }
        ensures ok { Leaves 1 1 self.old self.new (prepend_cancel status self.old.state) }
        ensures sent { self.new.state.sent ≡ self.old.state.sent }
    {
        let cancel = Queued::new(ChildEvent::Cancel { status });
        self.queue.suspend();
        self.queue.prepend(cancel);
        let _ = self.queue.resume();
        self.note(ChildEntry::Prepend(status));
    }

    /// A data callback fails on the main target: the channel is cancelled.
    fn fail_on_main<U: Out<UpMsg>>(
        &mut self,
        count: u32,
        status: Status,
        up: &mut U,
    ) -> Result<(), Memory>
        requires failure { is_failure status ≡ true }
        requires read { IsReadCount count }
        requires rooms { HasRoom 2 1 self.old.rooms }
        requires counts { Counted self.old.state }
        requires up { 2 ≤ U.room up.old }
        ensures plan { self.new.plan ≡ self.old.plan }
        ensures state { OnOk result (self.new.state ≡ perform_call self.old.plan (act.Cancel status) (record self.old.state {
          running = None;
          finished = suc self.old.state.finished;
          journal = self.old.state.journal ++ entry.Finish target.Main ∷ [];
          sent = self.old.state.sent ++ up_message.BytesRead count ∷ [];
        })) }
        ensures sent { OnOk result (Gains self.old.state.sent self.new.state.sent (U.staged up.old) (U.staged up.new)) }
        ensures trace { self.new.state.trace ≡ self.old.state.trace }
        ensures err { OnErr result (self.new ≡ self.old) }
        ensures held { U.held up.new ≡ U.held up.old }
        ensures room { U.room up.new + length (U.staged up.new) ≡ U.room up.old + length (U.staged up.old) }
    {
        up.stage(UpMsg::BytesRead { count })?;
        self.stage_cancel(status, up)?;
        self.read_on(Target::Main, count);
        self.cancel(status);
        Ok(())
    }

    /// The data callback returns. Where it fails, the channel is cancelled, from a worker by an event.
    #[tactic(auto, using(crate::proofs::Gains::gains))]
    fn finish_bytes<U: Out<UpMsg>>(
        &mut self,
        t: Target,
        count: u32,
        up: &mut U,
    ) -> Result<(), Memory>
        requires here { IsTarget t }
        requires read { IsReadCount count }
        requires rooms { HasRoom 2 1 self.old.rooms }
        requires counts { Counted self.old.state }
        requires up { 2 ≤ U.room up.old }
        ensures plan { self.new.plan ≡ self.old.plan }
        ensures state { OnOk result (self.new.state ≡ fail_data self.old.plan t (bytes_failure self.old.plan.reactions self.old.state.data_begun) (record self.old.state {
          running = None;
          finished = suc self.old.state.finished;
          journal = self.old.state.journal ++ entry.Finish t ∷ [];
          sent = self.old.state.sent ++ up_message.BytesRead count ∷ [];
        })) }
        ensures sent { OnOk result (Gains self.old.state.sent self.new.state.sent (U.staged up.old) (U.staged up.new)) }
        ensures trace { self.new.state.trace ≡ self.old.state.trace }
        ensures err { OnErr result (self.new ≡ self.old) }
        ensures held { U.held up.new ≡ U.held up.old }
        ensures room { U.room up.new + length (U.staged up.new) ≡ U.room up.old + length (U.staged up.old) }
    {
        match self.bytes_failure() {
            None => {
                up.stage(UpMsg::BytesRead { count })?;
                self.read_on(t, count);
                Ok(())
            }
            Some(status) => match t {
                Target::Main => self.fail_on_main(count, status, up),
                Target::Worker(_) => self.fail_elsewhere(t, count, status, up),
                Target::Back => self.fail_elsewhere(t, count, status, up),
            },
        }
    }

    /// A data callback fails on a worker: a cancel is put in front of what waits.
    #[tactic(auto, using(crate::proofs::Gains::gains))]
    fn fail_elsewhere<U: Out<UpMsg>>(
        &mut self,
        t: Target,
        count: u32,
        status: Status,
        up: &mut U,
    ) -> Result<(), Memory>
        requires failure { is_failure status ≡ true }
        requires read { IsReadCount count }
        requires rooms { HasRoom 2 1 self.old.rooms }
        requires counts { Counted self.old.state }
        requires up { 2 ≤ U.room up.old }
        ensures plan { self.new.plan ≡ self.old.plan }
        ensures state { OnOk result (self.new.state ≡ prepend_cancel status (record self.old.state {
          running = None;
          finished = suc self.old.state.finished;
          journal = self.old.state.journal ++ entry.Finish t ∷ [];
          sent = self.old.state.sent ++ up_message.BytesRead count ∷ [];
        })) }
        ensures sent { OnOk result (Gains self.old.state.sent self.new.state.sent (U.staged up.old) (U.staged up.new)) }
        ensures trace { self.new.state.trace ≡ self.old.state.trace }
        ensures err { OnErr result (self.new ≡ self.old) }
        ensures held { U.held up.new ≡ U.held up.old }
        ensures room { U.room up.new + length (U.staged up.new) ≡ U.room up.old + length (U.staged up.old) }
    {
        up.stage(UpMsg::BytesRead { count })?;
        self.read_on(t, count);
        self.prepend_cancel(status);
        Ok(())
    }

    /// The callback that runs on this target returns, and what it read or reacts with is sent.
    #[tactic(auto, using(crate::proofs::Gains::gains_none))]
    fn finish_running<U: Out<UpMsg>>(&mut self, t: Target, up: &mut U) -> Result<(), Memory>
        requires here { IsTarget t }
        requires runs { runs_on self.old.state.running t ≡ true }
        requires rooms { HasRoom 66 2 self.old.rooms }
        requires counts { Counted self.old.state }
        requires up { 2 ≤ U.room up.old }
        ensures plan { self.new.plan ≡ self.old.plan }
        ensures state { OnOk result (self.new.state ≡ step_finish self.old.plan t self.old.state.running self.old.state) }
        ensures sent { OnOk result (Gains self.old.state.sent self.new.state.sent (U.staged up.old) (U.staged up.new)) }
        ensures trace { self.new.state.trace ≡ self.old.state.trace }
        ensures err { OnErr result (self.new ≡ self.old) }
        ensures held { U.held up.new ≡ U.held up.old }
        ensures room { U.room up.new + length (U.staged up.new) ≡ U.room up.old + length (U.staged up.old) }
    {
        match &self.running {
            None => Ok(()),
            Some((_, ChildEvent::Start { .. })) => self.finish_start(t, up),
            Some((_, ChildEvent::Bytes { piece, .. })) => {
                let count = piece.size();
                self.finish_bytes(t, count, up)
            }
            Some((_, ChildEvent::Stop { .. })) => self.finish_stop(t, up),
            Some(_) => {
                self.end_callback(t);
                Ok(())
            }
        }
    }

    /// The callback that runs on this target returns.
    #[tactic(auto, using(crate::proofs::Gains::gains_none))]
    pub(crate) fn finish<U: Out<UpMsg>>(&mut self, t: Target, up: &mut U) -> Result<Moved, Memory>
        requires rooms { HasRoom 66 2 self.old.rooms }
        requires counts { Counted self.old.state }
        requires up { 2 ≤ U.room up.old }
        ensures plan { self.new.plan ≡ self.old.plan }
        ensures state { OnOk result (self.new.state ≡ child_step self.old.plan (step.Finish t) self.old.state) }
        ensures answer { IfOk result (λ r. r ≡ moved_if (child_enabled self.old.plan (step.Finish t) self.old.state)) }
        ensures sent { OnOk result (Gains self.old.state.sent self.new.state.sent (U.staged up.old) (U.staged up.new)) }
        ensures trace { self.new.state.trace ≡ self.old.state.trace }
        ensures err { OnErr result (self.new ≡ self.old) }
        ensures held { U.held up.new ≡ U.held up.old }
        ensures room { U.room up.new + length (U.staged up.new) ≡ U.room up.old + length (U.staged up.old) }
    {
        if !self.runs_on(t) {
            return Ok(Moved::Idle);
        }
        self.finish_running(t, up)?;
        Ok(Moved::Did)
    }
}

/// The failure of data callback n, if this reaction names it.
fn failure_of(r: Reaction, n: usize) -> Option<Status>
    ensures status { result ≡ failure_of r n }
    ensures failure { IsGoodReaction r → IfSome result (λ s. is_failure s ≡ true) }
{
    match r {
        Reaction::BytesFail { nth, status } if nth as usize == n => Some(status),
        _ => None,
    }
}

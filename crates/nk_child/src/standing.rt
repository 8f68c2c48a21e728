// What the reactions of a start callback have led to so far, while their messages are staged.

ghost use Rattle.std.specs.Prelude.{◌≡◌, ◌++◌, ◌≤◌, ◌+◌, length, OnOk, true};
ghost use Rattle.nk_base.specs.Status.{is_failure};
ghost use Rattle.nk_plan.specs.Accepted.{IsGoodReaction};
ghost use Rattle.nk_plan.specs.declared.plan.Reaction.TheVariants as reaction;
ghost use Rattle.nk_child.specs.Reactions.{reaction_sends, suspended_by, failed_by, sends_left};

use nk_base::{Memory, Out, Status, UpMsg};
use nk_plan::Reaction;

/// How a channel stands while the reactions of a start are staged.
#[derive(Drop)]
pub(crate) struct Standing {
    /// The channel is suspended: no further suspend is sent.
    pub(crate) suspended: bool,
    /// The channel has failed: no further cancel is sent.
    pub(crate) failed: bool,
}

impl Standing {
    /// Stages what this reaction sends.
    pub(crate) fn stage<U: Out<UpMsg>>(&mut self, r: Reaction, up: &mut U) -> Result<(), Memory>
        requires good { IsGoodReaction r }
        requires left { sends_left self.old.suspended self.old.failed ≤ U.room up.old }
        ensures staged { OnOk result (U.staged up.new ≡ U.staged up.old ++ reaction_sends self.old.suspended self.old.failed r) }
        ensures suspended { OnOk result (self.new.suspended ≡ suspended_by self.old.suspended r) }
        ensures failed { OnOk result (self.new.failed ≡ failed_by self.old.failed r) }
        ensures left { OnOk result (sends_left self.new.suspended self.new.failed ≤ U.room up.new) }
        ensures held { U.held up.new ≡ U.held up.old }
        ensures room { U.room up.new + length (U.staged up.new) ≡ U.room up.old + length (U.staged up.old) }
    {
        match r {
            Reaction::StartRetarget(_) => Ok(()),
            Reaction::StartSuspend => self.stage_suspend(up),
            Reaction::StartCancel(status) => self.stage_cancel(status, up),
            Reaction::StartFail(status) => self.stage_cancel(status, up),
            Reaction::BytesFail { .. } => Ok(()),
        }
    }

    fn stage_suspend<U: Out<UpMsg>>(&mut self, up: &mut U) -> Result<(), Memory>
        requires left { sends_left self.old.suspended self.old.failed ≤ U.room up.old }
        ensures staged { OnOk result (U.staged up.new ≡ U.staged up.old ++ reaction_sends self.old.suspended self.old.failed reaction.StartSuspend) }
        ensures standing { OnOk result ((self.new.suspended ≡ true) × (self.new.failed ≡ self.old.failed)) }
        ensures left { OnOk result (sends_left self.new.suspended self.new.failed ≤ U.room up.new) }
        ensures held { U.held up.new ≡ U.held up.old }
        ensures room { U.room up.new + length (U.staged up.new) ≡ U.room up.old + length (U.staged up.old) }
    {
        if self.suspended {
            return Ok(());
        }
        up.stage(UpMsg::Suspend)?;
        self.suspended = true;
        Ok(())
    }

    fn stage_cancel<U: Out<UpMsg>>(&mut self, status: Status, up: &mut U) -> Result<(), Memory>
        requires failure { is_failure status ≡ true }
        requires left { sends_left self.old.suspended self.old.failed ≤ U.room up.old }
        ensures staged { OnOk result (U.staged up.new ≡ U.staged up.old ++ reaction_sends self.old.suspended self.old.failed (reaction.StartCancel status)) }
        ensures standing { OnOk result ((self.new.suspended ≡ self.old.suspended) × (self.new.failed ≡ true)) }
        ensures left { OnOk result (sends_left self.new.suspended self.new.failed ≤ U.room up.new) }
        ensures held { U.held up.new ≡ U.held up.old }
        ensures room { U.room up.new + length (U.staged up.new) ≡ U.room up.old + length (U.staged up.old) }
    {
        if self.failed {
            return Ok(());
        }
        up.stage(UpMsg::Cancel { status })?;
        self.failed = true;
        Ok(())
    }
}

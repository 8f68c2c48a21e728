// The question on a redirect is answered.

ghost use Rattle.std.specs.Prelude.{◌≡◌, ◌<◌, ◌+◌, ◌++◌, ◌∷◌, [], IfOk, IfNone, IfSome, OnOk, OnErr, length, true, Some, None};
ghost use Rattle.nk_base.specs.declared.message.UpMsg.TheVariants as up_message;
ghost use Rattle.nk_base.specs.Ranges.{IsUpInRange};
ghost use Rattle.nk_base.specs.Status.{is_legal_status, moved_if};
ghost use Rattle.nk_redirect.specs.Verdict.{veto_of};
ghost use Rattle.nk_plan.specs.Plan.{hop_at};
ghost use Rattle.nk_plan.specs.Child.{hop_verdict, verdict_status, child_step};
ghost use Rattle.nk_plan.specs.Enabled.{child_enabled};
ghost use Rattle.nk_plan.specs.declared.journal.ChildEntry.TheVariants as entry;
ghost use Rattle.nk_plan.specs.declared.step.ChildStep.TheVariants as step;
ghost use Rattle.nk_child.specs.Views.{HasRoom, Gains};

use crate::work::Work;
use nk_base::{Memory, Moved, Out, Status, UpMsg};
use nk_plan::{ChildEntry, Hop, Verdict};
use nk_redirect::Answer;

impl Work {
    /// What the plan says of a redirect: it is allowed where that hop is none.
    #[tactic(auto, using(crate::proofs::Ranges::all_at))]
    fn plan_verdict(&self, hop: u32) -> Verdict
        ensures veto { veto_of result ≡ hop_verdict (hop_at self.now.plan hop) }
        ensures legal { is_legal_status (veto_of result) ≡ true }
    {
        let hop = hop as usize;
        if hop >= self.plan.hops.len() {
            return Verdict::Allow;
        }
        match self.plan.hops.get(hop) {
            Hop::Redirect { verdict, .. } => *verdict,
            Hop::Fail(_) => Verdict::Allow,
            Hop::Response { .. } => Verdict::Allow,
        }
    }

    /// Whether a question is open.
    pub(crate) fn can_verdict(&self) -> bool
        ensures { result ≡ child_enabled self.now.plan step.Verdict self.now.state }
    {
        !self.broken && self.question.asked().is_some()
    }

    /// What is answered, where a question is open: its hop, and the first failure or else what the plan says.
    #[tactic(auto, using(crate::proofs::Same::answered, crate::proofs::Same::legal_answer))]
    fn answer(&self) -> Option<(u32, Status)>
        ensures none { IfNone result (self.now.state.question ≡ None) }
        ensures some { IfSome result (λ a. (self.now.state.question ≡ Some a.0) × (a.1 ≡ verdict_status self.now.plan self.now.state.kept a.0)) }
        ensures in_range { IfSome result (λ a. IsUpInRange (up_message.Verify a.0 a.1)) }
    {
        let hop = self.question.asked()?;
        let kept = self.status();
        match self.question.answer(kept, self.plan_verdict(hop)) {
            Answer::Idle => None,
            Answer::Verify { hop, status } => Some((hop, status)),
        }
    }

    /// The question about this hop is answered with this status, once the message is staged.
    fn enter_verdict(&mut self, hop: u32, status: Status)
        requires rooms { HasRoom 1 0 self.old.rooms }
        ensures plan { self.new.plan ≡ self.old.plan }
        ensures state { self.new.state ≡ record self.old.state {
          question = None;
          sent = self.old.state.sent ++ up_message.Verify hop status ∷ [];
          journal = self.old.state.journal ++ entry.Verdict hop status ∷ [];
        } }
    {
        let kept = self.status();
        let verdict = self.plan_verdict(hop);
        let _ = self.question.verdict(kept, verdict);
        self.sent.push(UpMsg::Verify { hop, status });
        self.note(ChildEntry::Verdict { hop, status });
    }

    /// The question that is open is answered.
    #[tactic(auto, using(crate::proofs::Gains::gains, crate::proofs::Gains::gains_none))]
    pub(crate) fn verdict<U: Out<UpMsg>>(&mut self, up: &mut U) -> Result<Moved, Memory>
        requires rooms { HasRoom 1 0 self.old.rooms }
        requires up { 0 < U.room up.old }
        ensures plan { self.new.plan ≡ self.old.plan }
        ensures state { OnOk result (self.new.state ≡ child_step self.old.plan step.Verdict self.old.state) }
        ensures answer { IfOk result (λ r. r ≡ moved_if (child_enabled self.old.plan step.Verdict self.old.state)) }
        ensures sent { OnOk result (Gains self.old.state.sent self.new.state.sent (U.staged up.old) (U.staged up.new)) }
        ensures trace { self.new.state.trace ≡ self.old.state.trace }
        ensures err { OnErr result (self.new ≡ self.old) }
        ensures held { U.held up.new ≡ U.held up.old }
        ensures room { U.room up.new + length (U.staged up.new) ≡ U.room up.old + length (U.staged up.old) }
    {
        if self.broken {
            return Ok(Moved::Idle);
        }
        let Some((hop, status)) = self.answer() else {
            return Ok(Moved::Idle);
        };
        up.stage(UpMsg::Verify { hop, status })?;
        self.enter_verdict(hop, status);
        Ok(Moved::Did)
    }
}

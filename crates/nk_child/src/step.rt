// The child's table: each step is one of its rows, made whole or not at all.

ghost use Rattle.std.specs.Prelude.{◌≡◌, ◌++◌, ◌≤◌, ◌+◌, [], IfOk, OnOk, OnErr, length, drop};
ghost use Rattle.nk_plan.specs.Child.{child_step};
ghost use Rattle.nk_plan.specs.Enabled.{child_enabled};
ghost use Rattle.nk_base.specs.Status.{moved_if};
ghost use Rattle.nk_child.specs.Steps.{IsStepInRange};
ghost use Rattle.nk_child.specs.Views.{HasRoom, Counted, Gains};

use crate::work::Work;
use nk_base::{Entry, Memory, Moved, Out, UpMsg};
use nk_plan::ChildStep;

impl Work {
    /// Makes the row of this step. What it sends and shows is staged; on `Memory` some of that may be staged too.
    #[tactic(auto, using(crate::proofs::Gains::gains_none))]
    fn row<U: Out<UpMsg>, D: Out<Entry>>(
        &mut self,
        step: ChildStep,
        up: &mut U,
        delivery: &mut D,
    ) -> Result<Moved, Memory>
        requires rooms { HasRoom 66 2 self.old.rooms }
        requires counts { Counted self.old.state }
        requires forced { self.old.state.queue.forced ≤ 1 }
        requires in_range { IsStepInRange step }
        requires up { 4 ≤ U.room up.old }
        requires delivery { 1 ≤ D.room delivery.old }
        ensures plan { self.new.plan ≡ self.old.plan }
        ensures state { OnOk result (self.new.state ≡ child_step self.old.plan step self.old.state) }
        ensures answer { IfOk result (λ r. r ≡ moved_if (child_enabled self.old.plan step self.old.state)) }
        ensures sent { OnOk result (Gains self.old.state.sent self.new.state.sent (U.staged up.old) (U.staged up.new)) }
        ensures trace { OnOk result (Gains self.old.state.trace self.new.state.trace (D.staged delivery.old) (D.staged delivery.new)) }
        ensures err { OnErr result (self.new.state ≡ self.old.state) }
        ensures up_held { U.held up.new ≡ U.held up.old }
        ensures up_room { U.room up.new + length (U.staged up.new) ≡ U.room up.old + length (U.staged up.old) }
        ensures delivery_held { D.held delivery.new ≡ D.held delivery.old }
        ensures delivery_room { D.room delivery.new + length (D.staged delivery.new) ≡ D.room delivery.old + length (D.staged delivery.old) }
    {
        match step {
            ChildStep::Act => self.act(up, delivery),
            ChildStep::Verdict => self.verdict(up),
            ChildStep::Main(m) => self.main(m, delivery),
            ChildStep::Back(m) => self.back(m),
            ChildStep::Release => self.release(),
            ChildStep::Begin(t) => self.begin(t, up, delivery),
            ChildStep::Finish(t) => self.finish(t, up),
        }
    }

    /// Makes the row of this step, and sends what it sends and shows. On `Memory` nothing has changed.
    #[tactic(auto, using(crate::proofs::Gains::whole))]
    pub(crate) fn step<U: Out<UpMsg>, D: Out<Entry>>(
        &mut self,
        step: ChildStep,
        up: &mut U,
        delivery: &mut D,
    ) -> Result<Moved, Memory>
        requires counts { Counted self.old.state }
        requires forced { self.old.state.queue.forced ≤ 1 }
        requires in_range { IsStepInRange step }
        requires up { 4 ≤ U.room up.old }
        requires delivery { 1 ≤ D.room delivery.old }
        requires up_staged { U.staged up.old ≡ [] }
        requires delivery_staged { D.staged delivery.old ≡ [] }
        ensures plan { self.new.plan ≡ self.old.plan }
        ensures state { OnOk result (self.new.state ≡ child_step self.old.plan step self.old.state) }
        ensures answer { IfOk result (λ r. r ≡ moved_if (child_enabled self.old.plan step self.old.state)) }
        ensures sent { OnOk result (U.held up.new ≡ U.held up.old ++ drop (length self.old.state.sent) self.new.state.sent) }
        ensures delivered { OnOk result (D.held delivery.new ≡ D.held delivery.old ++ drop (length self.old.state.trace) self.new.state.trace) }
        ensures up_staged { U.staged up.new ≡ [] }
        ensures delivery_staged { D.staged delivery.new ≡ [] }
        ensures up_room { OnOk result (U.room up.new + length (drop (length self.old.state.sent) self.new.state.sent) ≡ U.room up.old) }
        ensures delivery_room { OnOk result (D.room delivery.new + length (drop (length self.old.state.trace) self.new.state.trace) ≡ D.room delivery.old) }
        ensures err { OnErr result (self.new.state ≡ self.old.state) }
        ensures err_up { OnErr result (U.held up.new ≡ U.held up.old) }
        ensures err_delivery { OnErr result (D.held delivery.new ≡ D.held delivery.old) }
        ensures err_up_room { OnErr result (U.room up.new ≡ U.room up.old) }
        ensures err_delivery_room { OnErr result (D.room delivery.new ≡ D.room delivery.old) }
    {
        self.reserve(66, 2)?;
        match self.row(step, up, delivery) {
            Ok(moved) => {
                up.send_staged();
                delivery.send_staged();
                Ok(moved)
            }
            Err(e) => {
                up.drop_staged();
                delivery.drop_staged();
                Err(e)
            }
        }
    }
}

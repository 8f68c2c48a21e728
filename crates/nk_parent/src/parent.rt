// The parent of one channel: a load, and the journal of what it took and sent.

ghost use Rattle.std.specs.Prelude.{◌≡◌, ◌++◌, ◌≤◌, ◌+◌, [], length, OnOk, OnErr, IfOk};
ghost use Rattle.nk_base.specs.declared.status.Moved.TheVariants as moved;
ghost use Rattle.nk_plan.specs.declared.step.ParentStep.TheVariants as step;
ghost use Rattle.nk_plan.specs.Accepted.{Accepted};
ghost use Rattle.nk_plan.specs.Enabled.{parent_enabled};
ghost use Rattle.nk_plan.specs.Journal.{ups_taken, mains_sent, backs_sent};
ghost use Rattle.nk_plan.specs.Lanes.{LaneLaw};
ghost use Rattle.nk_plan.specs.Parent.{new_parent, parent_step};
ghost use Rattle.nk_plan.specs.Run.{IsParentRun, IsParentState};
ghost use Rattle.nk_parent.specs.Views.{added, is_open, is_done, is_asking};
ghost use Rattle.nk_base.specs.Status.{moved_if, kept_status};

use crate::load::Load;
use nk_base::{BackMsg, MainMsg, Memory, Moved, Out, Status, UpMsg};
use nk_laws::lanes_law;
use nk_plan::{ChannelPlan, ParentEntry, ParentJournal, Phase};
use std::alloc::Global;
use std::marker::Model;
use std::mem::replace;

/// The parent of a channel. After Firefox's `HttpChannelParent`.
///
/// It keeps that its state is one that the parent's table leads to, whatever messages came.
#[derive(Drop)]
pub struct Parent {
    // Its own journal is empty between calls.
    load: Load,
    journal: ParentJournal,
}

impl Model for Parent {
    ghost use Rattle.nk_parent.specs.Views.{ParentView};
    ghost use Rattle.nk_plan.specs.Run.{IsParentState};

    ghost Value = { ParentView };

    ghost view = { λ s. record { plan = s.load.plan; state = record s.load.state { journal = s.journal } } };

    ghost invariant = { λ s. IsParentState s.load.plan (record s.load.state { journal = s.journal }) };
}

impl Parent {
    /// The parent of a channel with this plan, before its first step.
    pub fn new(alloc: Global, plan: &ChannelPlan) -> Result<Parent, Memory>
        ensures { IfOk result (λ r. r ≡ record { plan = plan.now; state = new_parent plan.now }) }
    {
        let load = Load::new(alloc, plan.share()?)?;
        Ok(Parent {
            load,
            journal: ParentJournal::new(alloc),
        })
    }

    /// Takes a message of the up lane, also one that it does not expect.
    pub fn up(&mut self, m: UpMsg) -> Result<(), Memory>
        ensures ok { OnOk result (self.new ≡ record self.old { state = parent_step self.old.plan (step.Up m) self.old.state }) }
        ensures err { OnErr result (self.new ≡ self.old) }
    {
        self.journal.push(ParentEntry::Took(m))?;
        self.load.take(m);
        Ok(())
    }

    /// Takes the next step of the load. What the step enters in the journal is what it sends: on the main lane, and to
    /// the background half. It is `Idle` where the parent is not opened, done, waiting for a verdict or suspended, and
    /// where no failure is kept, a piece is next and there is no credit. On want of memory nothing was sent.
    pub fn fetch<A: Out<MainMsg>, B: Out<BackMsg>>(
        &mut self,
        main: &mut A,
        back: &mut B,
    ) -> Result<Moved, Memory>
        requires main_room { 2 ≤ A.room main.old }
        requires main_empty { A.staged main.old ≡ [] }
        requires back_room { 2 ≤ B.room back.old }
        requires back_empty { B.staged back.old ≡ [] }
        ensures state { OnOk result (self.new ≡ record self.old { state = parent_step self.old.plan step.Fetch self.old.state }) }
        ensures answer { IfOk result (λ r. r ≡ moved_if (parent_enabled self.old.plan step.Fetch self.old.state)) }
        ensures idle { IfOk result (λ r. r ≡ moved.Idle → self.new ≡ self.old) }
        ensures err { OnErr result (self.new ≡ self.old) }
        ensures main_held { OnOk result (A.held main.new ≡ A.held main.old ++ mains_sent (added self.old.state self.new.state)) }
        ensures main_staged { A.staged main.new ≡ [] }
        ensures main_room { OnOk result (A.room main.new + length (mains_sent (added self.old.state self.new.state)) ≡ A.room main.old) }
        ensures main_err { OnErr result (A.held main.new ≡ A.held main.old) }
        ensures main_err_room { OnErr result (A.room main.new ≡ A.room main.old) }
        ensures back_held { OnOk result (B.held back.new ≡ B.held back.old ++ backs_sent (added self.old.state self.new.state)) }
        ensures back_staged { B.staged back.new ≡ [] }
        ensures back_room { OnOk result (B.room back.new + length (backs_sent (added self.old.state self.new.state)) ≡ B.room back.old) }
        ensures back_err { OnErr result (B.held back.new ≡ B.held back.old) }
        ensures back_err_room { OnErr result (B.room back.new ≡ B.room back.old) }
    {
        let empty = ParentJournal::new(self.load.alloc());
        self.load.put_journal(replace(&mut self.journal, empty));
        let moved = self.load.turn(main, back);
        self.journal = self.load.take_journal();
        moved
    }

    /// Whether `Fetch` is enabled: `fetch` would not be `Idle`.
    pub fn can_fetch(&self) -> bool
        ensures { result ≡ parent_enabled self.now.plan step.Fetch self.now.state }
    {
        self.load.can_fetch()
    }

    /// Whether the page has opened the channel, or is done with it.
    pub fn is_open(&self) -> bool
        ensures { result ≡ is_open self.now.state.phase }
    {
        self.load.phase() != Phase::Closed
    }

    /// Whether the load is over.
    pub fn is_done(&self) -> bool
        ensures { result ≡ is_done self.now.state.phase }
    {
        self.load.phase() == Phase::Done
    }

    /// Whether it waits for a verdict on a redirect.
    pub fn is_asking(&self) -> bool
        ensures { result ≡ is_asking self.now.state.phase }
    {
        self.load.phase() == Phase::Asking
    }

    /// Whether the page has suspended it.
    pub fn is_suspended(&self) -> bool
        ensures { result ≡ self.now.state.suspended }
    {
        self.load.is_suspended()
    }

    /// How many bytes the page may still be sent; at most 0 where it has to read first.
    pub fn credit(&self) -> i64
        ensures { result ≡ self.now.state.credit }
    {
        self.load.credit()
    }

    /// The first failure, or 0 where there is none.
    pub fn status(&self) -> Status
        ensures { result ≡ kept_status self.now.state.kept }
    {
        self.load.status()
    }

    /// What it took and sent, in order. Whatever it took, strays included, what it sent obeys the lane law.
    pub fn journal(&self) -> &ParentJournal
        ensures journal { result.now ≡ self.now.state.journal }
        ensures run { IsParentRun self.now.plan self.now.state.journal }
        ensures state { IsParentState self.now.plan self.now.state }
        ensures lanes { LaneLaw self.now.plan (ups_taken self.now.state.journal) (mains_sent self.now.state.journal) (backs_sent self.now.state.journal) }
    {
        lanes_law();
        let _plan = self.load.plan();
        &self.journal
    }

    /// What it took and sent, given away.
    pub fn into_journal(self) -> ParentJournal
        ensures journal { result ≡ self.state.journal }
        ensures run { IsParentRun self.plan self.state.journal }
    {
        self.journal
    }

    /// Its plan, which is accepted.
    pub fn plan(&self) -> &ChannelPlan
        ensures plan { result.now ≡ self.now.plan }
        ensures accepted { Accepted self.now.plan }
    {
        self.load.plan()
    }
}

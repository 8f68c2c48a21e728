// The steps of a load: what a parent in each phase does next.

ghost use Rattle.std.specs.Prelude.{◌≡◌, ◌++◌, ◌∷◌, ◌<◌, ◌≤◌, ◌-◌, ◌+◌, [], length, OnOk, OnErr, IfOk, Some, None};
ghost use Rattle.nk_base.specs.Heads.{IsGoodHead};
ghost use Rattle.nk_base.specs.Ranges.{IsRedirectCode};
ghost use Rattle.nk_plan.specs.declared.step.Phase.TheVariants as phase;
ghost use Rattle.nk_plan.specs.declared.plan.Hop.TheVariants as hop;
ghost use Rattle.nk_plan.specs.declared.plan.Verdict.{Verdict};
ghost use Rattle.nk_plan.specs.Lanes.{IsRedirect};
ghost use Rattle.nk_plan.specs.Plan.{hop_at};
ghost use Rattle.nk_plan.specs.Journal.{mains_sent, backs_sent};
ghost use Rattle.nk_plan.specs.Parent.{give_start, fetch_redirect, fetch_hop, fetch_follow, complete_redirect};
ghost use Rattle.nk_plan.specs.declared.step.ParentStep.TheVariants as step;
ghost use Rattle.nk_plan.specs.Enabled.{parent_enabled};
ghost use Rattle.nk_plan.specs.Parent.{parent_step};
ghost use Rattle.nk_parent.specs.Views.{added};
ghost use Rattle.nk_parent.specs.Load.{IsResponse};
ghost use Rattle.nk_base.specs.Status.{moved_if};

use super::Load;
use super::sending::{bare_head, send_main, send_start, share_head};
use nk_base::{BackMsg, Head, MainMsg, Memory, Moved, Out, Status};
use nk_plan::{Hop, Phase};
use nk_redirect::Begin;

impl Load {
    /// Takes the next step of the load, and sends what it has made ready, or drops it for want of memory.
    #[tactic(auto, using(crate::proofs::Blocks::added_none))]
    pub fn turn<A: Out<MainMsg>, B: Out<BackMsg>>(
        &mut self,
        main: &mut A,
        back: &mut B,
    ) -> Result<Moved, Memory>
        requires main_room { 2 ≤ A.room main.old }
        requires main_empty { A.staged main.old ≡ [] }
        requires back_room { 2 ≤ B.room back.old }
        requires back_empty { B.staged back.old ≡ [] }
        ensures plan { self.new.plan ≡ self.old.plan }
        ensures alloc { self.new.alloc ≡ self.old.alloc }
        ensures state { OnOk result (self.new.state ≡ parent_step self.old.plan step.Fetch self.old.state) }
        ensures answer { IfOk result (λ r. r ≡ moved_if (parent_enabled self.old.plan step.Fetch self.old.state)) }
        ensures err { OnErr result (self.new.state ≡ self.old.state) }
        ensures main_held { OnOk result (A.held main.new ≡ A.held main.old ++ mains_sent (added self.old.state self.new.state)) }
        ensures main_staged { A.staged main.new ≡ [] }
        ensures main_room { OnOk result (A.room main.new + length (mains_sent (added self.old.state self.new.state)) ≡ A.room main.old) }
        ensures main_err { OnErr result (A.held main.new ≡ A.held main.old) }
        ensures main_err_room { OnErr result (A.room main.new ≡ A.room main.old) }
        ensures back_held { OnOk result (B.held back.new ≡ B.held back.old ++ backs_sent (added self.old.state self.new.state)) }
        ensures back_staged { B.staged back.new ≡ [] }
        ensures back_room { OnOk result (B.room back.new + length (backs_sent (added self.old.state self.new.state)) ≡ B.room back.old) }
        ensures back_err { OnErr result (B.held back.new ≡ B.held back.old) }
        ensures back_err_room { OnErr result (B.room back.new ≡ B.room back.old) }
    {
        self.journal.reserve(2)?;
        match self.fetch(main, back) {
            Ok(moved) => {
                main.send_staged();
                back.send_staged();
                Ok(moved)
            }
            Err(memory) => {
                main.drop_staged();
                back.drop_staged();
                Err(memory)
            }
        }
    }

    /// Takes the next step of the load: what the parent does in its phase, unless it is suspended.
    #[tactic(auto, using(crate::proofs::Blocks::added_none))]
    fn fetch<A: Out<MainMsg>, B: Out<BackMsg>>(
        &mut self,
        main: &mut A,
        back: &mut B,
    ) -> Result<Moved, Memory>
        requires journal_room { 1 < self.old.room }
        requires main_room { 0 < A.room main.old }
        requires back_room { 0 < B.room back.old }
        ensures plan { self.new.plan ≡ self.old.plan }
        ensures state { OnOk result (self.new.state ≡ parent_step self.old.plan step.Fetch self.old.state) }
        ensures answer { IfOk result (λ r. r ≡ moved_if (parent_enabled self.old.plan step.Fetch self.old.state)) }
        ensures err { OnErr result (self.new ≡ self.old) }
        ensures main_held { A.held main.new ≡ A.held main.old }
        ensures main_staged { OnOk result (A.staged main.new ≡ A.staged main.old ++ mains_sent (added self.old.state self.new.state)) }
        ensures main_conserved { A.room main.new + length (A.staged main.new) ≡ A.room main.old + length (A.staged main.old) }
        ensures back_held { B.held back.new ≡ B.held back.old }
        ensures back_staged { OnOk result (B.staged back.new ≡ B.staged back.old ++ backs_sent (added self.old.state self.new.state)) }
        ensures back_conserved { B.room back.new + length (B.staged back.new) ≡ B.room back.old + length (B.staged back.old) }
    {
        if self.suspended {
            return Ok(Moved::Idle);
        }
        match self.phase {
            Phase::Closed | Phase::Asking | Phase::Done => Ok(Moved::Idle),
            Phase::Ready => {
                self.meet(main, back)?;
                Ok(Moved::Did)
            }
            Phase::Follow => {
                self.follow(main, back)?;
                Ok(Moved::Did)
            }
            Phase::Body => self.go_on(back),
        }
    }

    /// Whether the load has a next step.
    pub fn can_fetch(&self) -> bool
        ensures { result ≡ parent_enabled self.now.plan step.Fetch self.now.state }
    {
        if self.suspended {
            return false;
        }
        match self.phase {
            Phase::Closed | Phase::Asking | Phase::Done => false,
            Phase::Ready | Phase::Follow => true,
            Phase::Body => self.can_go_on(),
        }
    }

    /// Gives the start of the hop, with the failure that is kept, or 0.
    #[tactic(auto, using(crate::proofs::Blocks::added_more))]
    fn start<A: Out<MainMsg>, B: Out<BackMsg>>(
        &mut self,
        head: Head,
        main: &mut A,
        back: &mut B,
    ) -> Result<(), Memory>
        requires journal_room { 1 < self.old.room }
        requires main_room { 0 < A.room main.old }
        requires back_room { 0 < B.room back.old }
        requires good { IsGoodHead head }
        requires response { self.old.state.kept ≡ None → IsResponse (hop_at self.old.plan self.old.state.hop) }
        ensures plan { self.new.plan ≡ self.old.plan }
        ensures state { OnOk result (self.new.state ≡ give_start self.old.plan self.old.state self.old.state.kept head) }
        ensures err { OnErr result (self.new ≡ self.old) }
        ensures main_held { A.held main.new ≡ A.held main.old }
        ensures main_staged { OnOk result (A.staged main.new ≡ A.staged main.old ++ mains_sent (added self.old.state self.new.state)) }
        ensures main_conserved { A.room main.new + length (A.staged main.new) ≡ A.room main.old + length (A.staged main.old) }
        ensures back_held { B.held back.new ≡ B.held back.old }
        ensures back_staged { OnOk result (B.staged back.new ≡ B.staged back.old ++ backs_sent (added self.old.state self.new.state)) }
        ensures back_conserved { B.room back.new + length (B.staged back.new) ≡ B.room back.old + length (B.staged back.old) }
    {
        let status = self.failure.get();
        send_start(
            self.plan.start,
            self.hop,
            status,
            head,
            &mut self.journal,
            main,
            back,
        )?;
        self.phase = Phase::Body;
        Ok(())
    }

    /// A redirect is met: after a failure, or as the 21st, it is the start; else the page is asked about it.
    #[tactic(auto, using(crate::proofs::Blocks::added_more))]
    fn meet_redirect<A: Out<MainMsg>, B: Out<BackMsg>>(
        &mut self,
        code: u16,
        main: &mut A,
        back: &mut B,
    ) -> Result<(), Memory>
        requires journal_room { 1 < self.old.room }
        requires main_room { 0 < A.room main.old }
        requires back_room { 0 < B.room back.old }
        requires phase { self.old.state.phase ≡ phase.Ready }
        requires redirect { IsRedirect (hop_at self.old.plan self.old.state.hop) }
        requires code { IsRedirectCode code }
        ensures plan { self.new.plan ≡ self.old.plan }
        ensures state { OnOk result (self.new.state ≡ fetch_redirect self.old.plan self.old.state code self.old.state.kept) }
        ensures err { OnErr result (self.new ≡ self.old) }
        ensures main_held { A.held main.new ≡ A.held main.old }
        ensures main_staged { OnOk result (A.staged main.new ≡ A.staged main.old ++ mains_sent (added self.old.state self.new.state)) }
        ensures main_conserved { A.room main.new + length (A.staged main.new) ≡ A.room main.old + length (A.staged main.old) }
        ensures back_held { B.held back.new ≡ B.held back.old }
        ensures back_staged { OnOk result (B.staged back.new ≡ B.staged back.old ++ backs_sent (added self.old.state self.new.state)) }
        ensures back_conserved { B.room back.new + length (B.staged back.new) ≡ B.room back.old + length (B.staged back.old) }
    {
        let hop = self.hop;
        let head = bare_head(self.alloc, code);
        if self.failure.kept().is_some() {
            return self.start(head, main, back);
        }
        match self.redirects.begin(hop) {
            Begin::Ask => {
                send_main(MainMsg::Redirect1 { hop, code }, &mut self.journal, main)?;
                self.phase = Phase::Asking;
                Ok(())
            }
            Begin::Loop => {
                let status = Status::REDIRECT_LOOP;
                send_start(
                    self.plan.start,
                    hop,
                    status,
                    head,
                    &mut self.journal,
                    main,
                    back,
                )?;
                self.failure.merge(status);
                self.phase = Phase::Body;
                Ok(())
            }
        }
    }

    /// The next hop is met.
    #[tactic(auto, using(crate::proofs::Blocks::added_more, crate::proofs::Plans::failed_hop, crate::proofs::Plans::redirect_hop))]
    fn meet<A: Out<MainMsg>, B: Out<BackMsg>>(
        &mut self,
        main: &mut A,
        back: &mut B,
    ) -> Result<(), Memory>
        requires journal_room { 1 < self.old.room }
        requires main_room { 0 < A.room main.old }
        requires back_room { 0 < B.room back.old }
        requires phase { self.old.state.phase ≡ phase.Ready }
        ensures plan { self.new.plan ≡ self.old.plan }
        ensures state { OnOk result (self.new.state ≡ fetch_hop self.old.plan self.old.state (hop_at self.old.plan self.old.state.hop)) }
        ensures err { OnErr result (self.new ≡ self.old) }
        ensures main_held { A.held main.new ≡ A.held main.old }
        ensures main_staged { OnOk result (A.staged main.new ≡ A.staged main.old ++ mains_sent (added self.old.state self.new.state)) }
        ensures main_conserved { A.room main.new + length (A.staged main.new) ≡ A.room main.old + length (A.staged main.old) }
        ensures back_held { B.held back.new ≡ B.held back.old }
        ensures back_staged { OnOk result (B.staged back.new ≡ B.staged back.old ++ backs_sent (added self.old.state self.new.state)) }
        ensures back_conserved { B.room back.new + length (B.staged back.new) ≡ B.room back.old + length (B.staged back.old) }
    {
        let hop = self.hop;
        match self.plan.hops.get(hop as usize) {
            Hop::Fail(status) => {
                let status = *status;
                send_main(MainMsg::FailedOpen { hop, status }, &mut self.journal, main)?;
                self.phase = Phase::Done;
                Ok(())
            }
            Hop::Redirect { code, .. } => {
                let code = *code;
                self.meet_redirect(code, main, back)
            }
            Hop::Response { head, .. } => {
                let head = share_head(head)?;
                self.start(head, main, back)
            }
        }
    }

    /// The page has answered: after a failure the redirect is the start, else it is followed.
    #[tactic(auto, using(crate::proofs::Blocks::added_more, crate::proofs::Plans::redirect_hop, crate::proofs::Plans::redirect_leads))]
    fn follow<A: Out<MainMsg>, B: Out<BackMsg>>(
        &mut self,
        main: &mut A,
        back: &mut B,
    ) -> Result<(), Memory>
        requires journal_room { 1 < self.old.room }
        requires main_room { 0 < A.room main.old }
        requires back_room { 0 < B.room back.old }
        requires phase { self.old.state.phase ≡ phase.Follow }
        ensures plan { self.new.plan ≡ self.old.plan }
        ensures state { OnOk result (self.new.state ≡ fetch_follow self.old.plan self.old.state self.old.state.kept (hop_at self.old.plan self.old.state.hop)) }
        ensures err { OnErr result (self.new ≡ self.old) }
        ensures main_held { A.held main.new ≡ A.held main.old }
        ensures main_staged { OnOk result (A.staged main.new ≡ A.staged main.old ++ mains_sent (added self.old.state self.new.state)) }
        ensures main_conserved { A.room main.new + length (A.staged main.new) ≡ A.room main.old + length (A.staged main.old) }
        ensures back_held { B.held back.new ≡ B.held back.old }
        ensures back_staged { OnOk result (B.staged back.new ≡ B.staged back.old ++ backs_sent (added self.old.state self.new.state)) }
        ensures back_conserved { B.room back.new + length (B.staged back.new) ≡ B.room back.old + length (B.staged back.old) }
    {
        let hop = self.hop;
        if self.failure.kept().is_none() {
            return self.complete(main, back);
        }
        match self.plan.hops.get(hop as usize) {
            Hop::Redirect { code, .. } => {
                let head = bare_head(self.alloc, *code);
                self.start(head, main, back)
            }
            _ => self.complete(main, back),
        }
    }

    /// The redirect is followed: the next hop is to be met.
    #[tactic(auto, using(crate::proofs::Blocks::added_more, crate::proofs::Plans::redirect_leads))]
    fn complete<A: Out<MainMsg>, B: Out<BackMsg>>(
        &mut self,
        main: &mut A,
        back: &mut B,
    ) -> Result<(), Memory>
        requires journal_room { 1 < self.old.room }
        requires main_room { 0 < A.room main.old }
        requires back_room { 0 < B.room back.old }
        requires phase { self.old.state.phase ≡ phase.Follow }
        ensures plan { self.new.plan ≡ self.old.plan }
        ensures state { OnOk result (self.new.state ≡ complete_redirect self.old.state) }
        ensures err { OnErr result (self.new ≡ self.old) }
        ensures main_held { A.held main.new ≡ A.held main.old }
        ensures main_staged { OnOk result (A.staged main.new ≡ A.staged main.old ++ mains_sent (added self.old.state self.new.state)) }
        ensures main_conserved { A.room main.new + length (A.staged main.new) ≡ A.room main.old + length (A.staged main.old) }
        ensures back_held { B.held back.new ≡ B.held back.old }
        ensures back_staged { OnOk result (B.staged back.new ≡ B.staged back.old ++ backs_sent (added self.old.state self.new.state)) }
        ensures back_conserved { B.room back.new + length (B.staged back.new) ≡ B.room back.old + length (B.staged back.old) }
    {
        let hop = self.hop;
        send_main(MainMsg::Redirect3 { hop }, &mut self.journal, main)?;
        self.redirects.followed();
        self.hop += 1;
        self.phase = Phase::Ready;
        Ok(())
    }
}

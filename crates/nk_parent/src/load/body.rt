// What a parent sends behind the start: the pieces of the body as far as there is credit, and the stop.

ghost use Rattle.std.specs.Prelude.{◌≡◌, ◌++◌, ◌∷◌, ◌<◌, ◌+◌, suc, [], length, slice_get, int_lt, pos, ◌-ℤ◌, true, false, not, OnOk, OnErr, IfOk, Some, None};
ghost use Rattle.nk_base.specs.Ranges.{AreTrailers};
ghost use Rattle.nk_base.specs.Status.{is_legal_status, ok, moved_if};
ghost use Rattle.nk_base.specs.declared.message.BackMsg.TheVariants as sent;
ghost use Rattle.nk_plan.specs.declared.journal.ParentEntry.TheVariants as entry;
ghost use Rattle.nk_plan.specs.declared.step.Phase.TheVariants as phase;
ghost use Rattle.nk_plan.specs.Accepted.{body_of, last_of};
ghost use Rattle.nk_plan.specs.Enabled.{body_enabled};
ghost use Rattle.nk_plan.specs.Plan.{hop_at, trailers_at, pieces_at};
ghost use Rattle.nk_plan.specs.Journal.{mains_sent, backs_sent};
ghost use Rattle.nk_plan.specs.Parent.{fetch_body, fetch_piece, offset_of};
ghost use Rattle.nk_parent.specs.Views.{added};
ghost use Rattle.nk_parent.specs.Load.{finish_of};

use super::Load;
use super::sending::send_back;
use nk_base::{BackMsg, Fields, Memory, Moved, Out, Piece, Status};
use nk_plan::{Hop, Phase};
use nk_source::Next;

impl Load {
    /// Goes on behind the start: a failure stops the load, and a response goes on with its body.
    #[tactic(auto, using(crate::proofs::Blocks::added_more))]
    pub fn go_on<B: Out<BackMsg>>(&mut self, back: &mut B) -> Result<Moved, Memory>
        requires journal_room { 1 < self.old.room }
        requires back_room { 0 < B.room back.old }
        requires phase { self.old.state.phase ≡ phase.Body }
        ensures plan { self.new.plan ≡ self.old.plan }
        ensures state { OnOk result (self.new.state ≡ fetch_body self.old.plan self.old.state self.old.state.kept (hop_at self.old.plan self.old.state.hop)) }
        ensures answer { IfOk result (λ r. r ≡ moved_if (body_enabled self.old.state self.old.state.kept (pieces_at self.old.plan self.old.state.hop))) }
        ensures err { OnErr result (self.new ≡ self.old) }
        ensures mains { OnOk result (mains_sent (added self.old.state self.new.state) ≡ []) }
        ensures back_held { B.held back.new ≡ B.held back.old }
        ensures back_staged { OnOk result (B.staged back.new ≡ B.staged back.old ++ backs_sent (added self.old.state self.new.state)) }
        ensures back_conserved { B.room back.new + length (B.staged back.new) ≡ B.room back.old + length (B.staged back.old) }
    {
        if let Some(failure) = self.failure.kept() {
            let trailers = Fields::new(self.alloc);
            self.stop(failure, trailers, back)?;
            return Ok(Moved::Did);
        }
        self.send_body(back)
    }

    /// Stops the load.
    #[tactic(auto, using(crate::proofs::Blocks::added_more))]
    fn stop<B: Out<BackMsg>>(
        &mut self,
        status: Status,
        trailers: Fields,
        back: &mut B,
    ) -> Result<(), Memory>
        requires journal_room { 0 < self.old.room }
        requires back_room { 0 < B.room back.old }
        requires legal { is_legal_status status ≡ true }
        requires trailers { AreTrailers status trailers }
        ensures plan { self.new.plan ≡ self.old.plan }
        ensures state { OnOk result (self.new.state ≡ record self.old.state {
          phase = phase.Done;
          journal = self.old.state.journal ++ entry.SentBack (sent.Stop self.old.state.hop status trailers) ∷ [];
        }) }
        ensures err { OnErr result (self.new ≡ self.old) }
        ensures back_held { B.held back.new ≡ B.held back.old }
        ensures back_staged { OnOk result (B.staged back.new ≡ B.staged back.old ++ sent.Stop self.old.state.hop status trailers ∷ []) }
        ensures back_conserved { B.room back.new + length (B.staged back.new) ≡ B.room back.old + length (B.staged back.old) }
    {
        let hop = self.hop;
        let stop = BackMsg::Stop {
            hop,
            status,
            trailers,
        };
        send_back(stop, &mut self.journal, back)?;
        self.phase = Phase::Done;
        Ok(())
    }

    /// The trailers of the hop, if it is a response.
    #[tactic(auto, using(crate::proofs::Plans::response_trailers))]
    fn trailers(&self) -> Result<Fields, Memory>
        ensures trailers { IfOk result (λ r. r ≡ trailers_at self.now.plan self.now.state.hop) }
        ensures good { IfOk result (λ r. AreTrailers ok r) }
    {
        match self.plan.hops.get(self.hop as usize) {
            Hop::Response { trailers, .. } => trailers.share(),
            _ => Ok(Fields::new(self.alloc)),
        }
    }

    /// Whether a piece is next, and there is no credit for it.
    fn waits(&self) -> bool
        ensures { result ≡ not (body_enabled self.now.state None (body_of self.now.plan)) }
    {
        self.body.peek_size().is_some() && !self.window.may_send()
    }

    /// Whether the load goes on behind its start: a failure stops it, and a body does not wait.
    #[tactic(auto, using(crate::proofs::Bodies::pieces_here))]
    pub fn can_go_on(&self) -> bool
        requires phase { self.now.state.phase ≡ phase.Body }
        ensures { result ≡ body_enabled self.now.state self.now.state.kept (pieces_at self.now.plan self.now.state.hop) }
    {
        self.failure.kept().is_some() || !self.waits()
    }

    /// Sends the next piece, where there is one and credit for it, or the end.
    #[tactic(auto, using(crate::proofs::Blocks::added_more, crate::proofs::Blocks::added_none, crate::proofs::Bodies::body_here, crate::proofs::Bodies::pieces_here))]
    fn send_body<B: Out<BackMsg>>(&mut self, back: &mut B) -> Result<Moved, Memory>
        requires journal_room { 1 < self.old.room }
        requires back_room { 0 < B.room back.old }
        requires phase { self.old.state.phase ≡ phase.Body }
        requires kept { self.old.state.kept ≡ None }
        ensures plan { self.new.plan ≡ self.old.plan }
        ensures state { OnOk result (self.new.state ≡ fetch_body self.old.plan self.old.state None (hop_at self.old.plan self.old.state.hop)) }
        ensures answer { IfOk result (λ r. r ≡ moved_if (body_enabled self.old.state None (pieces_at self.old.plan self.old.state.hop))) }
        ensures err { OnErr result (self.new ≡ self.old) }
        ensures mains { OnOk result (mains_sent (added self.old.state self.new.state) ≡ []) }
        ensures back_held { B.held back.new ≡ B.held back.old }
        ensures back_staged { OnOk result (B.staged back.new ≡ B.staged back.old ++ backs_sent (added self.old.state self.new.state)) }
        ensures back_conserved { B.room back.new + length (B.staged back.new) ≡ B.room back.old + length (B.staged back.old) }
    {
        if self.waits() {
            return Ok(Moved::Idle);
        }
        match self.body.peek()? {
            Next::Piece { offset, piece } => self.send_piece(offset, piece, back)?,
            Next::EndOk => {
                let trailers = self.trailers()?;
                self.stop(Status::OK, trailers, back)?;
            }
            Next::EndFail(status) => {
                self.stop(status, Fields::new(self.alloc), back)?;
                self.failure.merge(status);
            }
        }
        Ok(Moved::Did)
    }

    /// Sends the next piece, for which there is credit.
    #[tactic(auto, using(crate::proofs::Blocks::added_more))]
    fn send_piece<B: Out<BackMsg>>(
        &mut self,
        offset: u64,
        piece: Piece,
        back: &mut B,
    ) -> Result<(), Memory>
        requires journal_room { 0 < self.old.room }
        requires back_room { 0 < B.room back.old }
        requires credit { int_lt (pos 0) self.old.state.credit ≡ true }
        requires piece { slice_get (body_of self.old.plan) self.old.state.piece ≡ Some piece }
        ensures plan { self.new.plan ≡ self.old.plan }
        ensures state { OnOk result (self.new.state ≡ record self.old.state {
          credit = self.old.state.credit -ℤ pos (length piece);
          piece = suc self.old.state.piece;
          journal = self.old.state.journal ++ entry.SentBack (sent.Bytes self.old.state.hop ok offset piece) ∷ [];
        }) }
        ensures err { OnErr result (self.new ≡ self.old) }
        ensures back_held { B.held back.new ≡ B.held back.old }
        ensures back_staged { OnOk result (B.staged back.new ≡ B.staged back.old ++ sent.Bytes self.old.state.hop ok offset piece ∷ []) }
        ensures back_conserved { B.room back.new + length (B.staged back.new) ≡ B.room back.old + length (B.staged back.old) }
    {
        let size = piece.size();
        let message = BackMsg::Bytes {
            hop: self.hop,
            status: Status::OK,
            offset,
            piece,
        };
        send_back(message, &mut self.journal, back)?;
        self.window.sent(size);
        self.body.advance();
        Ok(())
    }
}

// Events are offered to the queue, and run: what the listener is shown of them is got ready first, since it may want memory.

ghost use Rattle.std.specs.Prelude.{◌≡◌, ◌<◌, ◌++◌, ◌∷◌, ◌≤◌, ◌+◌, ◌^◌, [], IfOk, length, true, Some};
ghost use Rattle.nk_base.specs.declared.status.Target.{Target};
ghost use Rattle.nk_base.specs.Queue.{IsTarget, is_busy, posted_to, forced_once};
ghost use Rattle.nk_base.specs.Status.{merged, kept_status};
ghost use Rattle.nk_plan.specs.Plan.{stop_trailers};
ghost use Rattle.nk_plan.specs.Child.{run_event, run_bytes, cancel_messages, offer_event};
ghost use Rattle.nk_plan.specs.declared.event.ChildEvent.TheVariants as event;
ghost use Rattle.nk_plan.specs.declared.journal.ChildEntry.TheVariants as entry;
ghost use Rattle.nk_child.specs.Events.{IsEventInRange};
ghost use Rattle.nk_child.specs.Shown.{with_shown, event_shown, event_sends, offer_shown};
ghost use Rattle.nk_child.specs.Views.{HasRoom, Leaves};

use crate::queued::Queued;
use crate::work::Work;
use nk_base::{Entry, Fields, Memory, Out, Piece, Status, Target, UpMsg};
use nk_plan::{ChildEntry, ChildEvent, Hop};
use nk_queue::Offer;

impl Work {
    /// The trailers that a stop with this status carries.
    fn trailers(&self, status: Status) -> Result<Fields, Memory>
        ensures { IfOk result (λ r. r ≡ stop_trailers self.now.plan self.now.state.hop status) }
    {
        if status.is_failure() || self.hop >= self.plan.hops.len() {
            return Ok(Fields::new(self.alloc));
        }
        match self.plan.hops.get(self.hop) {
            Hop::Response { trailers, .. } => trailers.share(),
            _ => Ok(Fields::new(self.alloc)),
        }
    }

    /// The status that is kept once this one has come.
    fn status_with(&self, status: Status) -> Status
        ensures { result ≡ kept_status (merged self.now.state.kept status) }
    {
        match self.first.kept() {
            Some(kept) => kept,
            None => {
                if status.is_failure() {
                    status
                } else {
                    Status::OK
                }
            }
        }
    }

    /// What the listener is shown of an event that runs.
    pub(crate) fn shown(&self, e: &ChildEvent) -> Result<Option<Entry>, Memory>
        ensures { IfOk result (λ r. r ≡ event_shown self.now.plan self.now.state.hop self.now.state.kept e.now) }
    {
        match e {
            ChildEvent::Start { code, status } => {
                let status = self.status_with(*status);
                Ok(Some(Entry::Start {
                    code: *code,
                    status,
                }))
            }
            ChildEvent::Bytes {
                offset,
                piece,
                status,
            } => {
                if self.has_failed() || status.is_failure() {
                    return Ok(None);
                }
                let piece = piece.share()?;
                Ok(Some(Entry::Bytes {
                    offset: *offset,
                    piece,
                }))
            }
            ChildEvent::Stop { status } => {
                let status = self.status_with(*status);
                let trailers = self.trailers(status)?;
                Ok(Some(Entry::Stop { status, trailers }))
            }
            _ => Ok(None),
        }
    }

    /// Runs an event on a target, once what it shows is ready.
    pub(crate) fn run(&mut self, t: Target, e: ChildEvent, shown: Option<Entry>)
        requires here { IsTarget t }
        requires in_range { IsEventInRange e }
        requires room { HasRoom 1 1 self.old.rooms }
        requires shown { shown ≡ event_shown self.old.plan self.old.state.hop self.old.state.kept e }
        requires forced { self.old.state.queue.forced < 2 ^ 62 }
        requires begun { self.old.state.data_begun < 2 ^ 62 }
        requires hop { self.old.state.hop < 2 ^ 62 }
        ensures ok { Leaves 1 1 self.old self.new (run_event self.old.plan t e self.old.state) }
        ensures trace { self.new.state.trace ≡ with_shown self.old.state.trace shown }
        ensures sent { self.new.state.sent ≡ self.old.state.sent ++ event_sends self.old.state.kept e }
    {
        self.show(shown);
        match e {
            ChildEvent::Start { code, status } => self.run_start(t, code, status),
            ChildEvent::Bytes {
                offset,
                piece,
                status,
            } => self.run_bytes(t, offset, piece, status),
            ChildEvent::Stop { status } => self.run_stop(t, status),
            ChildEvent::Redirect1 { hop } => {
                self.question.begin(hop);
                self.note(ChildEntry::RunRedirect1 { target: t, hop });
            }
            ChildEvent::Redirect3 { hop } => {
                self.hop += 1;
                self.note(ChildEntry::RunRedirect3 { target: t, hop });
            }
            ChildEvent::Cancel { status } => self.run_cancel(t, status),
        }
    }

    /// The callback of this event runs, and until it returns events are queued by force.
    fn occupy(&mut self, t: Target, e: ChildEvent)
        requires here { IsTarget t }
        requires forced { self.old.state.queue.forced < 2 ^ 62 }
        ensures { self.new ≡ record self.old {
          state = record self.old.state {
            queue = forced_once self.old.state.queue;
            running = Some (t, e);
          };
        } }
    {
        self.queue.start_forced();
        self.running = Some((t, e));
    }

    /// The start callback begins.
    fn run_start(&mut self, t: Target, code: u16, status: Status)
        requires here { IsTarget t }
        requires room { HasRoom 1 0 self.old.rooms }
        requires forced { self.old.state.queue.forced < 2 ^ 62 }
        ensures { Leaves 1 0 self.old self.new (record self.old.state {
          kept = merged self.old.state.kept status;
          queue = forced_once self.old.state.queue;
          running = Some (t, event.Start code status);
          journal = self.old.state.journal ++ entry.RunStart t code (kept_status (merged self.old.state.kept status)) ∷ [];
        }) }
    {
        self.merge(status);
        self.occupy(t, ChildEvent::Start { code, status });
        let status = self.status();
        self.note(ChildEntry::RunStart {
            target: t,
            code,
            status,
        });
    }

    /// A data callback begins, or its piece is dropped where a failure is kept.
    fn run_bytes(&mut self, t: Target, offset: u64, piece: Piece, status: Status)
        requires here { IsTarget t }
        requires room { HasRoom 1 0 self.old.rooms }
        requires begun { self.old.state.data_begun < 2 ^ 62 }
        ensures { Leaves 1 0 self.old self.new (record
            (run_bytes self.old.state t offset piece (merged self.old.state.kept status) status)
            { trace = self.old.state.trace }) }
    {
        self.merge(status);
        if let Some(status) = self.first.kept() {
            self.note(ChildEntry::RunDrop {
                target: t,
                offset,
                status,
            });
            return;
        }
        self.data_begun += 1;
        let length = piece.size();
        self.running = Some((
            t,
            ChildEvent::Bytes {
                offset,
                piece,
                status,
            },
        ));
        self.note(ChildEntry::RunBytes {
            target: t,
            offset,
            length,
        });
    }

    /// The stop callback begins.
    fn run_stop(&mut self, t: Target, status: Status)
        requires here { IsTarget t }
        requires room { HasRoom 1 0 self.old.rooms }
        requires forced { self.old.state.queue.forced < 2 ^ 62 }
        ensures { Leaves 1 0 self.old self.new (record self.old.state {
          kept = merged self.old.state.kept status;
          stopped = true;
          queue = forced_once self.old.state.queue;
          running = Some (t, event.Stop status);
          journal = self.old.state.journal ++ entry.RunStop t (kept_status (merged self.old.state.kept status)) ∷ [];
        }) }
    {
        self.merge(status);
        self.stopped = true;
        self.occupy(t, ChildEvent::Stop { status });
        let status = self.status();
        self.note(ChildEntry::RunStop { target: t, status });
    }

    /// A cancel that a worker's listener brought about comes to its turn.
    fn run_cancel(&mut self, t: Target, status: Status)
        requires room { HasRoom 1 0 self.old.rooms }
        ensures { Leaves 1 0 self.old self.new (record self.old.state {
          kept = merged self.old.state.kept status;
          sent = self.old.state.sent ++ cancel_messages self.old.state.kept status;
          journal = self.old.state.journal ++ entry.RunCancel t status ∷ [];
        }) }
    {
        self.send_first(status);
        self.merge(status);
        self.note(ChildEntry::RunCancel { target: t, status });
    }

    /// Enters a cancel as sent, where no failure is kept.
    fn send_first(&mut self, status: Status)
        requires room { HasRoom 1 0 self.old.rooms }
        ensures state { self.new ≡ record self.old {
          state = record self.old.state { sent = self.old.state.sent ++ cancel_messages self.old.state.kept status };
          rooms = record self.old.rooms { sent = self.new.rooms.sent };
        } }
        ensures room { self.old.rooms.sent ≤ self.new.rooms.sent + 1 }
    {
        if !self.has_failed() {
            self.sent.push(UpMsg::Cancel { status });
        }
    }

    /// Gets ready what the listener is shown of an event that runs next: an equal entry is staged.
    pub(crate) fn stage_shown<D: Out<Entry>>(
        &self,
        e: &Queued,
        delivery: &mut D,
    ) -> Result<Option<Entry>, Memory>
        requires room { 0 < D.room delivery.old }
        ensures shown { IfOk result (λ r. r ≡ event_shown self.now.plan self.now.state.hop self.now.state.kept e.now) }
        ensures staged { IfOk result (λ r. D.staged delivery.new ≡ with_shown (D.staged delivery.old) r) }
        ensures held { D.held delivery.new ≡ D.held delivery.old }
        ensures room { D.room delivery.new + length (D.staged delivery.new) ≡ D.room delivery.old + length (D.staged delivery.old) }
    {
        let Some(entry) = self.shown(e.get())? else {
            return Ok(None);
        };
        let copy = entry.share()?;
        delivery.stage(copy)?;
        Ok(Some(entry))
    }

    /// Gets ready what the listener is shown of an event that is offered from here, if it runs at once.
    pub(crate) fn ready<D: Out<Entry>>(
        &self,
        here: Target,
        e: &Queued,
        delivery: &mut D,
    ) -> Result<Option<Entry>, Memory>
        requires room { 0 < D.room delivery.old }
        ensures shown { IfOk result (λ r. r ≡ offer_shown self.now.plan self.now.state.hop self.now.state.kept self.now.state.queue here e.now) }
        ensures staged { IfOk result (λ r. D.staged delivery.new ≡ with_shown (D.staged delivery.old) r) }
        ensures held { D.held delivery.new ≡ D.held delivery.old }
        ensures room { D.room delivery.new + length (D.staged delivery.new) ≡ D.room delivery.old + length (D.staged delivery.old) }
    {
        if !self.queue.runs_now(e, here) {
            return Ok(None);
        }
        self.stage_shown(e, delivery)
    }

    /// Offers an event from here, and runs it where the queue says so.
    #[tactic(auto, using(crate::proofs::Gains::nothing_behind))]
    pub(crate) fn offer(&mut self, here: Target, e: Queued, shown: Option<Entry>)
        requires here { IsTarget here }
        requires room { HasRoom 1 1 self.old.rooms }
        requires shown { shown ≡ offer_shown self.old.plan self.old.state.hop self.old.state.kept self.old.state.queue here e }
        requires posted { (t : Target) → posted_to self.old.state.queue t < 2 ^ 62 }
        requires begun { self.old.state.data_begun < 2 ^ 62 }
        requires hop { self.old.state.hop < 2 ^ 62 }
        requires quiet { event_sends self.old.state.kept e ≡ [] }
        ensures ok { Leaves 1 1 self.old self.new (offer_event self.old.plan here e self.old.state) }
        ensures trace { self.new.state.trace ≡ with_shown self.old.state.trace shown }
        ensures sent { self.new.state.sent ≡ self.old.state.sent }
        ensures busy { is_busy self.new.state.queue ≡ true }
    {
        match self.queue.offer(e, here) {
            Offer::RunNow(e) => self.run(here, e.into_event(), shown),
            Offer::Queued => {}
            Offer::Posted(_) => {}
        }
    }

    /// Offers an event that has to wait behind another.
    pub(crate) fn offer_next(&mut self, here: Target, e: Queued)
        requires here { IsTarget here }
        requires room { HasRoom 0 1 self.old.rooms }
        requires busy { is_busy self.old.state.queue ≡ true }
        ensures ok { Leaves 0 1 self.old self.new (offer_event self.old.plan here e self.old.state) }
        ensures trace { self.new.state.trace ≡ self.old.state.trace }
        ensures sent { self.new.state.sent ≡ self.old.state.sent }
    {
        let _ = self.queue.offer(e, here);
    }
}

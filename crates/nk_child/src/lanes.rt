// The messages of the two lanes. Those of the background lane wait in the hold until the start of their hop is in the queue.

ghost use Rattle.std.specs.Prelude.{◌≡◌, ◌<◌, ◌≤◌, ◌+◌, ◌^◌, [], IfOk, OnOk, OnErr, length, true, false};
ghost use Rattle.std.specs.Option.{option_to_list};
ghost use Rattle.nk_base.specs.declared.status.Target.{Target};
ghost use Rattle.nk_base.specs.declared.status.Target.TheVariants as target;
ghost use Rattle.nk_base.specs.Queue.{posted_to, is_busy};
ghost use Rattle.nk_base.specs.Ranges.{IsMainInRange, IsHop};
ghost use Rattle.nk_plan.specs.Child.{offer_event, offer_all, with_entry, back_events_of, back_events, child_step};
ghost use Rattle.nk_plan.specs.Enabled.{child_enabled};
ghost use Rattle.nk_plan.specs.declared.step.ChildStep.TheVariants as step;
ghost use Rattle.nk_base.specs.declared.message.MainMsg.TheVariants as main;
ghost use Rattle.nk_base.specs.Status.{moved_if};
ghost use Rattle.nk_child.specs.Shown.{with_shown, event_sends, offer_shown};
ghost use Rattle.nk_child.specs.Views.{HasRoom, Leaves, Counted, Gains};

use crate::queued::Queued;
use crate::work::Work;
use nk_base::{BackMsg, Entry, Head, MainMsg, Memory, Moved, Out, Status, Target};
use nk_hold::{Held, Kept, Released};
use nk_plan::{ChildEntry, ChildEvent, StartLane};

impl Work {
    /// A message of the main lane is entered and its event offered, once what that shows is ready.
    fn enter_offer(&mut self, taken: ChildEntry, e: Queued, shown: Option<Entry>)
        requires rooms { HasRoom 2 1 self.old.rooms }
        requires counts { Counted self.old.state }
        requires quiet { event_sends self.old.state.kept e ≡ [] }
        requires shown { shown ≡ offer_shown self.old.plan self.old.state.hop self.old.state.kept self.old.state.queue target.Main e }
        ensures ok { Leaves 2 1 self.old self.new (offer_event self.old.plan target.Main e (with_entry taken self.old.state)) }
        ensures trace { self.new.state.trace ≡ with_shown self.old.state.trace shown }
        ensures sent { self.new.state.sent ≡ self.old.state.sent }
        ensures busy { is_busy self.new.state.queue ≡ true }
    {
        self.note(taken);
        self.offer(Target::Main, e, shown);
    }

    /// Takes a message of the main lane: enters it, and offers its event.
    #[tactic(auto, using(crate::proofs::Gains::gains_shown))]
    fn take<D: Out<Entry>>(
        &mut self,
        taken: ChildEntry,
        e: Queued,
        delivery: &mut D,
    ) -> Result<(), Memory>
        requires rooms { HasRoom 2 1 self.old.rooms }
        requires counts { Counted self.old.state }
        requires quiet { event_sends self.old.state.kept e ≡ [] }
        requires delivery { 0 < D.room delivery.old }
        ensures ok { OnOk result (Leaves 2 1 self.old self.new (offer_event self.old.plan target.Main e (with_entry taken self.old.state))) }
        ensures trace { OnOk result (Gains self.old.state.trace self.new.state.trace (D.staged delivery.old) (D.staged delivery.new)) }
        ensures sent { self.new.state.sent ≡ self.old.state.sent }
        ensures busy { OnOk result (is_busy self.new.state.queue ≡ true) }
        ensures err { OnErr result (self.new ≡ self.old) }
        ensures held { D.held delivery.new ≡ D.held delivery.old }
        ensures room { D.room delivery.new + length (D.staged delivery.new) ≡ D.room delivery.old + length (D.staged delivery.old) }
    {
        let shown = self.ready(Target::Main, &e, delivery)?;
        self.enter_offer(taken, e, shown);
        Ok(())
    }

    /// A start is queued, and is told to the hold.
    fn take_start<D: Out<Entry>>(
        &mut self,
        hop: u32,
        status: Status,
        head: Head,
        delivery: &mut D,
    ) -> Result<(), Memory>
        requires rooms { HasRoom 2 2 self.old.rooms }
        requires counts { Counted self.old.state }
        requires in_range { IsHop hop }
        requires broken { self.old.state.broken ≡ false }
        requires delivery { 0 < D.room delivery.old }
        ensures plan { self.new.plan ≡ self.old.plan }
        ensures state { OnOk result (self.new.state ≡ child_step self.old.plan (step.Main (main.Start hop status head)) self.old.state) }
        ensures trace { OnOk result (Gains self.old.state.trace self.new.state.trace (D.staged delivery.old) (D.staged delivery.new)) }
        ensures sent { self.new.state.sent ≡ self.old.state.sent }
        ensures err { OnErr result (self.new ≡ self.old) }
        ensures held { D.held delivery.new ≡ D.held delivery.old }
        ensures room { D.room delivery.new + length (D.staged delivery.new) ≡ D.room delivery.old + length (D.staged delivery.old) }
    {
        let start = Queued::new(ChildEvent::Start {
            code: head.code,
            status,
        });
        let taken = ChildEntry::TookMain(MainMsg::Start { hop, status, head });
        self.take(taken, start, delivery)?;
        self.hold.start_queued(hop);
        Ok(())
    }

    /// A failed opening is a start and a stop.
    fn take_failed<D: Out<Entry>>(
        &mut self,
        hop: u32,
        status: Status,
        delivery: &mut D,
    ) -> Result<(), Memory>
        requires rooms { HasRoom 2 2 self.old.rooms }
        requires counts { Counted self.old.state }
        requires broken { self.old.state.broken ≡ false }
        requires delivery { 0 < D.room delivery.old }
        ensures plan { self.new.plan ≡ self.old.plan }
        ensures state { OnOk result (self.new.state ≡ child_step self.old.plan (step.Main (main.FailedOpen hop status)) self.old.state) }
        ensures trace { OnOk result (Gains self.old.state.trace self.new.state.trace (D.staged delivery.old) (D.staged delivery.new)) }
        ensures sent { self.new.state.sent ≡ self.old.state.sent }
        ensures err { OnErr result (self.new ≡ self.old) }
        ensures held { D.held delivery.new ≡ D.held delivery.old }
        ensures room { D.room delivery.new + length (D.staged delivery.new) ≡ D.room delivery.old + length (D.staged delivery.old) }
    {
        let taken = ChildEntry::TookMain(MainMsg::FailedOpen { hop, status });
        let start = Queued::new(ChildEvent::Start { code: 0, status });
        self.take(taken, start, delivery)?;
        let stop = Queued::new(ChildEvent::Stop { status });
        self.offer_next(Target::Main, stop);
        Ok(())
    }

    /// The page is asked about a redirect.
    fn take_redirect1<D: Out<Entry>>(
        &mut self,
        hop: u32,
        code: u16,
        delivery: &mut D,
    ) -> Result<(), Memory>
        requires rooms { HasRoom 2 2 self.old.rooms }
        requires counts { Counted self.old.state }
        requires in_range { IsHop hop }
        requires broken { self.old.state.broken ≡ false }
        requires delivery { 0 < D.room delivery.old }
        ensures plan { self.new.plan ≡ self.old.plan }
        ensures state { OnOk result (self.new.state ≡ child_step self.old.plan (step.Main (main.Redirect1 hop code)) self.old.state) }
        ensures trace { OnOk result (Gains self.old.state.trace self.new.state.trace (D.staged delivery.old) (D.staged delivery.new)) }
        ensures sent { self.new.state.sent ≡ self.old.state.sent }
        ensures err { OnErr result (self.new ≡ self.old) }
        ensures held { D.held delivery.new ≡ D.held delivery.old }
        ensures room { D.room delivery.new + length (D.staged delivery.new) ≡ D.room delivery.old + length (D.staged delivery.old) }
    {
        let taken = ChildEntry::TookMain(MainMsg::Redirect1 { hop, code });
        let question = Queued::new(ChildEvent::Redirect1 { hop });
        self.take(taken, question, delivery)
    }

    /// A redirect is completed. Where starts travel on the background lane, the next hop is told to the hold.
    fn take_redirect3<D: Out<Entry>>(&mut self, hop: u32, delivery: &mut D) -> Result<(), Memory>
        requires rooms { HasRoom 2 2 self.old.rooms }
        requires counts { Counted self.old.state }
        requires in_range { IsHop hop }
        requires broken { self.old.state.broken ≡ false }
        requires delivery { 0 < D.room delivery.old }
        ensures plan { self.new.plan ≡ self.old.plan }
        ensures state { OnOk result (self.new.state ≡ child_step self.old.plan (step.Main (main.Redirect3 hop)) self.old.state) }
        ensures trace { OnOk result (Gains self.old.state.trace self.new.state.trace (D.staged delivery.old) (D.staged delivery.new)) }
        ensures sent { self.new.state.sent ≡ self.old.state.sent }
        ensures err { OnErr result (self.new ≡ self.old) }
        ensures held { D.held delivery.new ≡ D.held delivery.old }
        ensures room { D.room delivery.new + length (D.staged delivery.new) ≡ D.room delivery.old + length (D.staged delivery.old) }
    {
        let taken = ChildEntry::TookMain(MainMsg::Redirect3 { hop });
        let completed = Queued::new(ChildEvent::Redirect3 { hop });
        self.take(taken, completed, delivery)?;
        match self.plan.start {
            StartLane::Main => {}
            StartLane::Back => self.hold.start_queued(hop + 1),
        }
        Ok(())
    }

    /// Takes the next message of the main lane.
    pub(crate) fn main<D: Out<Entry>>(
        &mut self,
        m: MainMsg,
        delivery: &mut D,
    ) -> Result<Moved, Memory>
        requires rooms { HasRoom 2 2 self.old.rooms }
        requires counts { Counted self.old.state }
        requires in_range { IsMainInRange m }
        requires delivery { 0 < D.room delivery.old }
        ensures plan { self.new.plan ≡ self.old.plan }
        ensures state { OnOk result (self.new.state ≡ child_step self.old.plan (step.Main m) self.old.state) }
        ensures answer { IfOk result (λ r. r ≡ moved_if (child_enabled self.old.plan (step.Main m) self.old.state)) }
        ensures trace { OnOk result (Gains self.old.state.trace self.new.state.trace (D.staged delivery.old) (D.staged delivery.new)) }
        ensures sent { self.new.state.sent ≡ self.old.state.sent }
        ensures err { OnErr result (self.new ≡ self.old) }
        ensures held { D.held delivery.new ≡ D.held delivery.old }
        ensures room { D.room delivery.new + length (D.staged delivery.new) ≡ D.room delivery.old + length (D.staged delivery.old) }
    {
        if self.broken {
            return Ok(Moved::Idle);
        }
        match m {
            MainMsg::Start { hop, status, head } => self.take_start(hop, status, head, delivery)?,
            MainMsg::FailedOpen { hop, status } => self.take_failed(hop, status, delivery)?,
            MainMsg::Redirect1 { hop, code } => self.take_redirect1(hop, code, delivery)?,
            MainMsg::Redirect3 { hop } => self.take_redirect3(hop, delivery)?,
        }
        Ok(Moved::Did)
    }

    /// Offers an event of the background lane. Its target is another, so it waits.
    #[tactic(auto, using(crate::proofs::Backs::never_on_back))]
    fn offer_back(&mut self, e: Queued)
        requires room { 0 < self.old.rooms.queue }
        requires posted { is_busy self.old.state.queue ≡ false → (t : Target) → posted_to self.old.state.queue t < 2 ^ 62 }
        ensures plan { self.new.plan ≡ self.old.plan }
        ensures state { self.new.state ≡ offer_event self.old.plan target.Back e self.old.state }
        ensures room { self.old.rooms.queue ≤ self.new.rooms.queue + 1 }
        ensures trace { self.new.state.trace ≡ self.old.state.trace }
        ensures sent { self.new.state.sent ≡ self.old.state.sent }
        ensures busy { is_busy self.new.state.queue ≡ true }
    {
        let _ = self.queue.offer(e, Target::Back);
    }

    /// Takes the next message of the background lane.
    #[tactic(auto, using(crate::proofs::Gains::gains_none))]
    pub(crate) fn back(&mut self, m: BackMsg) -> Result<Moved, Memory>
        requires rooms { HasRoom 2 2 self.old.rooms }
        requires counts { Counted self.old.state }
        ensures plan { self.new.plan ≡ self.old.plan }
        ensures state { OnOk result (self.new.state ≡ child_step self.old.plan (step.Back m) self.old.state) }
        ensures answer { IfOk result (λ r. r ≡ moved_if (child_enabled self.old.plan (step.Back m) self.old.state)) }
        ensures trace { self.new.state.trace ≡ self.old.state.trace }
        ensures sent { self.new.state.sent ≡ self.old.state.sent }
        ensures err { OnErr result (self.new ≡ self.old) }
    {
        if self.broken {
            return Ok(Moved::Idle);
        }
        let taken = m.share()?;
        match self.hold.back(m) {
            Held::Noted => self.note(ChildEntry::TookBack(taken)),
            Held::Kept => self.note(ChildEntry::TookBack(taken)),
            Held::Pass(m) => {
                self.note(ChildEntry::TookBack(taken));
                if let Some(e) = event_of(m) {
                    self.offer_back(e);
                }
            }
        }
        Ok(Moved::Did)
    }

    /// Offers the events of these messages in order.
    fn offer_kept(&mut self, kept: Kept)
        requires room { length kept ≤ self.old.rooms.queue }
        requires posted { is_busy self.old.state.queue ≡ false → (t : Target) → posted_to self.old.state.queue t < 2 ^ 62 }
        ensures plan { self.new.plan ≡ self.old.plan }
        ensures state { self.new.state ≡ offer_all self.old.plan target.Back (back_events kept) self.old.state }
        ensures trace { self.new.state.trace ≡ self.old.state.trace }
        ensures sent { self.new.state.sent ≡ self.old.state.sent }
    {
        let mut rest = kept;
        while let Some(m) = rest.take() {
            match event_of(m) {
                None => {}
                Some(e) => self.offer_back(e),
            }
        }
    }

    /// Whether a start is queued whose hop the hold has not let go.
    pub(crate) fn can_release(&self) -> bool
        ensures { result ≡ child_enabled self.now.plan step.Release self.now.state }
    {
        !self.broken && self.hold.report().is_some()
    }

    /// The start of a hop is queued: what the hold keeps of that hop is let go.
    #[tactic(auto, using(crate::proofs::Backs::few_of_hop))]
    pub(crate) fn release(&mut self) -> Result<Moved, Memory>
        requires rooms { HasRoom 2 2 self.old.rooms }
        requires counts { Counted self.old.state }
        ensures plan { self.new.plan ≡ self.old.plan }
        ensures state { OnOk result (self.new.state ≡ child_step self.old.plan step.Release self.old.state) }
        ensures answer { IfOk result (λ r. r ≡ moved_if (child_enabled self.old.plan step.Release self.old.state)) }
        ensures trace { self.new.state.trace ≡ self.old.state.trace }
        ensures sent { self.new.state.sent ≡ self.old.state.sent }
        ensures err { OnErr result (self.new.state ≡ self.old.state) }
    {
        if self.broken {
            return Ok(Moved::Idle);
        }
        let most = self.hold.kept();
        self.queue.reserve(most)?;
        self.hold.reserve(most)?;
        match self.hold.release() {
            Released::Idle => Ok(Moved::Idle),
            Released::Messages(kept) => {
                self.note(ChildEntry::Release(kept.len()));
                self.offer_kept(kept);
                Ok(Moved::Did)
            }
        }
    }
}

/// The event of a message of the background lane.
fn event_of(m: BackMsg) -> Option<Queued>
    ensures { back_events_of m ≡ option_to_list result }
{
    match m {
        BackMsg::Start { status, head, .. } => Some(Queued::new(ChildEvent::Start {
            code: head.code,
            status,
        })),
        BackMsg::StartSent { .. } => None,
        BackMsg::Bytes {
            status,
            offset,
            piece,
            ..
        } => Some(Queued::new(ChildEvent::Bytes {
            offset,
            piece,
            status,
        })),
        BackMsg::Stop { status, .. } => Some(Queued::new(ChildEvent::Stop { status })),
    }
}

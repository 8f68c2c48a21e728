// A channel and its steps.

ghost use Rattle.std.specs.Prelude.{◌≡◌, ◌++◌, ◌≤◌, ◌+◌, [], IfOk, OnOk, OnErr, IfSome, length, drop};
ghost use Rattle.nk_base.specs.Ranges.{IsMainInRange, IsBackInRange};
ghost use Rattle.nk_base.specs.declared.status.Moved.TheVariants as moved;
ghost use Rattle.nk_plan.specs.declared.step.Step.TheVariants as step;
ghost use Rattle.nk_plan.specs.Accepted.{Accepted};
ghost use Rattle.nk_plan.specs.Enabled.{child_enabled};
ghost use Rattle.nk_plan.specs.Ending.{ending_of};
ghost use Rattle.nk_base.specs.Status.{moved_if};
ghost use Rattle.nk_child.specs.Steps.{IsStepInRange};
ghost use Rattle.nk_channel.specs.Parts.{new_parts, turned, parts_step, parts_enabled, next_for, IsRoomy};

use nk_back_parent::BackParent;
use nk_base::{BackMsg, Entry, MainMsg, Memory, Moved, Out, OutList, UpMsg};
use nk_child::Child;
use nk_parent::Parent;
use nk_plan::{ChannelPlan, ChildJournal, ChildStep, Ending, ParentJournal, Step};
use std::alloc::Global;
use std::marker::Model;

/// One channel: its two halves, and the lists that carry messages between them. Its value is these parts, whatever its steps
/// were. After Firefox's `HttpChannelParent` and `HttpChannelChild`, with their background halves.
#[derive(Drop)]
pub struct Channel {
    parent: Parent,
    half: BackParent,
    child: Child,
    main: OutList<MainMsg>,
    // From the parent to its background half.
    inner: OutList<BackMsg>,
    back: OutList<BackMsg>,
    up: OutList<UpMsg>,
}

impl Model for Channel {
    ghost use Rattle.nk_channel.specs.Parts.{Parts};

    ghost Value = { Parts };

    ghost use Rattle.nk_channel.specs.Whole.{parts_in, IsWhole};

    ghost view = { parts_in };

    ghost invariant = { IsWhole };
}

impl Channel {
    /// The channel of a plan before its first step.
    pub fn new(alloc: Global, plan: &ChannelPlan) -> Result<Channel, Memory>
        ensures { IfOk result (λ r. r ≡ new_parts plan.now) }
    {
        let parent = Parent::new(alloc, plan)?;
        let child = Child::new(alloc, plan)?;
        Ok(Channel::from_parts(
            parent,
            BackParent::new(),
            child,
            OutList::new(alloc),
            OutList::new(alloc),
            OutList::new(alloc),
            OutList::new(alloc),
        ))
    }

    /// The channel of these halves and lists. Both halves have one plan, and what is on a list was sent.
    pub fn from_parts(
        parent: Parent,
        half: BackParent,
        child: Child,
        main: OutList<MainMsg>,
        inner: OutList<BackMsg>,
        back: OutList<BackMsg>,
        up: OutList<UpMsg>,
    ) -> Channel
        requires plans { child.plan ≡ parent.plan }
        requires main { main.staged ≡ [] }
        requires inner { inner.staged ≡ [] }
        requires back { back.staged ≡ [] }
        requires up { up.staged ≡ [] }
        ensures { result ≡ record { plan = parent.plan; parent = parent.state; forwarded = half; child = child.state; main = main.held; inner = inner.held; back = back.held; up = up.held } }
    {
        Channel {
            parent,
            half,
            child,
            main,
            inner,
            back,
            up,
        }
    }

    /// The plan, which is accepted.
    pub fn plan(&self) -> &ChannelPlan
        ensures plan { result.now ≡ self.now.plan }
        ensures accepted { Accepted self.now.plan }
    {
        self.parent.plan()
    }

    /// How many messages the parent's background half has moved on.
    pub fn forwarded(&self) -> usize
        ensures { result ≡ self.now.forwarded }
    {
        self.half.count()
    }

    /// How the load stands: it is never opened, has stopped, is left suspended, or goes on.
    pub fn ending(&self) -> Ending
        ensures { result ≡ ending_of self.now.plan self.now.child.journal }
    {
        self.child.ending()
    }

    /// What the parent and the child took and did, given away.
    pub fn into_journals(self) -> (ParentJournal, ChildJournal)
        ensures parent { result.0 ≡ self.parent.journal }
        ensures child { result.1 ≡ self.child.journal }
    {
        let (_, child) = self.child.into_parts();
        (self.parent.into_journal(), child)
    }

    /// Whether a step is enabled. A read never is: it is the listener's.
    pub fn can(&self, step: Step) -> bool
        ensures { result ≡ parts_enabled step self.now }
    {
        match step {
            Step::Act => self.child.can_act(),
            Step::Verdict => self.child.can_verdict(),
            Step::Fetch => self.parent.can_fetch(),
            Step::Up => self.up.first().is_some(),
            Step::Forward => self.inner.first().is_some(),
            Step::Main => !self.child.is_broken() && self.main.first().is_some(),
            Step::Back => !self.child.is_broken() && self.back.first().is_some(),
            Step::Release => self.child.can_release(),
            Step::Begin(target) => self.child.can_begin(target),
            Step::Finish(target) => self.child.can_finish(target),
            Step::Read(_) => false,
        }
    }

    /// Makes a step, where it is enabled; else it is `Idle` and changes nothing. What the child shows is delivered. On want
    /// of memory the channel and the delivery are as before.
    pub fn step<D: Out<Entry>>(&mut self, step: Step, delivery: &mut D) -> Result<Moved, Memory>
        requires roomy { IsRoomy self.old }
        requires room { 1 ≤ D.room delivery.old }
        requires staged { D.staged delivery.old ≡ [] }
        ensures state { OnOk result (self.new ≡ parts_step step self.old) }
        ensures answer { IfOk result (λ r. r ≡ moved_if (parts_enabled step self.old)) }
        ensures idle { IfOk result (λ r. r ≡ moved.Idle → self.new ≡ self.old) }
        ensures delivered { OnOk result (D.held delivery.new ≡ D.held delivery.old ++ drop (length self.old.child.trace) self.new.child.trace) }
        ensures delivery_staged { D.staged delivery.new ≡ [] }
        ensures delivery_room { OnOk result (D.room delivery.new + length (drop (length self.old.child.trace) self.new.child.trace) ≡ D.room delivery.old) }
        ensures err { OnErr result (self.new ≡ self.old) }
        ensures err_delivery { OnErr result (D.held delivery.new ≡ D.held delivery.old) }
        ensures err_delivery_room { OnErr result (D.room delivery.new ≡ D.room delivery.old) }
    {
        match step {
            Step::Act => self.turn(ChildStep::Act, delivery),
            Step::Verdict => self.turn(ChildStep::Verdict, delivery),
            Step::Fetch => self.fetch(),
            Step::Up => self.take_up(),
            Step::Forward => self.forward(),
            Step::Main => self.take_main(delivery),
            Step::Back => self.take_back(delivery),
            Step::Release => self.turn(ChildStep::Release, delivery),
            Step::Begin(target) => self.turn(ChildStep::Begin(target), delivery),
            Step::Finish(target) => self.turn(ChildStep::Finish(target), delivery),
            Step::Read(_) => Ok(Moved::Idle),
        }
    }

    /// The parent takes the next step of its load.
    fn fetch(&mut self) -> Result<Moved, Memory>
        requires { IsRoomy self.old }
        ensures state { OnOk result (self.new ≡ parts_step step.Fetch self.old) }
        ensures answer { IfOk result (λ r. r ≡ moved_if (parts_enabled step.Fetch self.old)) }
        ensures idle { IfOk result (λ r. r ≡ moved.Idle → self.new ≡ self.old) }
        ensures child { self.new.child ≡ self.old.child }
        ensures err { OnErr result (self.new ≡ self.old) }
    {
        self.parent.fetch(&mut self.main, &mut self.inner)
    }

    /// The parent takes the next message of the up lane.
    fn take_up(&mut self) -> Result<Moved, Memory>
        ensures state { OnOk result (self.new ≡ parts_step step.Up self.old) }
        ensures answer { IfOk result (λ r. r ≡ moved_if (parts_enabled step.Up self.old)) }
        ensures idle { IfOk result (λ r. r ≡ moved.Idle → self.new ≡ self.old) }
        ensures child { self.new.child ≡ self.old.child }
        ensures err { OnErr result (self.new ≡ self.old) }
    {
        let Some(m) = self.up.first() else {
            return Ok(Moved::Idle);
        };
        self.parent.up(*m)?;
        self.up.take();
        Ok(Moved::Did)
    }

    /// The parent's background half moves a message on.
    fn forward(&mut self) -> Result<Moved, Memory>
        requires { IsRoomy self.old }
        ensures state { OnOk result (self.new ≡ parts_step step.Forward self.old) }
        ensures answer { IfOk result (λ r. r ≡ moved_if (parts_enabled step.Forward self.old)) }
        ensures idle { IfOk result (λ r. r ≡ moved.Idle → self.new ≡ self.old) }
        ensures child { self.new.child ≡ self.old.child }
        ensures err { OnErr result (self.new ≡ self.old) }
    {
        self.half.forward(&mut self.inner, &mut self.back)
    }

    /// A step of the child: what it sends goes to the end of the up lane.
    fn turn<D: Out<Entry>>(&mut self, step: ChildStep, delivery: &mut D) -> Result<Moved, Memory>
        requires roomy { IsRoomy self.old }
        requires in_range { IsStepInRange step }
        requires room { 1 ≤ D.room delivery.old }
        requires staged { D.staged delivery.old ≡ [] }
        ensures state { OnOk result (self.new ≡ turned step self.old) }
        ensures answer { IfOk result (λ r. r ≡ moved_if (child_enabled self.old.plan step self.old.child)) }
        ensures idle { IfOk result (λ r. r ≡ moved.Idle → self.new ≡ self.old) }
        ensures delivered { OnOk result (D.held delivery.new ≡ D.held delivery.old ++ drop (length self.old.child.trace) self.new.child.trace) }
        ensures delivery_staged { D.staged delivery.new ≡ [] }
        ensures delivery_room { OnOk result (D.room delivery.new + length (drop (length self.old.child.trace) self.new.child.trace) ≡ D.room delivery.old) }
        ensures err { OnErr result (self.new ≡ self.old) }
        ensures err_delivery { OnErr result (D.held delivery.new ≡ D.held delivery.old) }
        ensures err_delivery_room { OnErr result (D.room delivery.new ≡ D.room delivery.old) }
    {
        self.child.step(step, &mut self.up, delivery)
    }

    /// The child takes the next message of the main lane, and only then it leaves the lane.
    fn take_main<D: Out<Entry>>(&mut self, delivery: &mut D) -> Result<Moved, Memory>
        requires roomy { IsRoomy self.old }
        requires room { 1 ≤ D.room delivery.old }
        requires staged { D.staged delivery.old ≡ [] }
        ensures state { OnOk result (self.new ≡ parts_step step.Main self.old) }
        ensures answer { IfOk result (λ r. r ≡ moved_if (parts_enabled step.Main self.old)) }
        ensures idle { IfOk result (λ r. r ≡ moved.Idle → self.new ≡ self.old) }
        ensures delivered { OnOk result (D.held delivery.new ≡ D.held delivery.old ++ drop (length self.old.child.trace) self.new.child.trace) }
        ensures delivery_staged { D.staged delivery.new ≡ [] }
        ensures delivery_room { OnOk result (D.room delivery.new + length (drop (length self.old.child.trace) self.new.child.trace) ≡ D.room delivery.old) }
        ensures err { OnErr result (self.new ≡ self.old) }
        ensures err_delivery { OnErr result (D.held delivery.new ≡ D.held delivery.old) }
        ensures err_delivery_room { OnErr result (D.room delivery.new ≡ D.room delivery.old) }
    {
        let Some(m) = self.next_main()? else {
            return Ok(Moved::Idle);
        };
        let moved = self.turn(ChildStep::Main(m), delivery)?;
        self.main.take();
        Ok(moved)
    }

    /// The child takes the next message of the background lane, and only then it leaves the lane.
    fn take_back<D: Out<Entry>>(&mut self, delivery: &mut D) -> Result<Moved, Memory>
        requires roomy { IsRoomy self.old }
        requires room { 1 ≤ D.room delivery.old }
        requires staged { D.staged delivery.old ≡ [] }
        ensures state { OnOk result (self.new ≡ parts_step step.Back self.old) }
        ensures answer { IfOk result (λ r. r ≡ moved_if (parts_enabled step.Back self.old)) }
        ensures idle { IfOk result (λ r. r ≡ moved.Idle → self.new ≡ self.old) }
        ensures delivered { OnOk result (D.held delivery.new ≡ D.held delivery.old ++ drop (length self.old.child.trace) self.new.child.trace) }
        ensures delivery_staged { D.staged delivery.new ≡ [] }
        ensures delivery_room { OnOk result (D.room delivery.new + length (drop (length self.old.child.trace) self.new.child.trace) ≡ D.room delivery.old) }
        ensures err { OnErr result (self.new ≡ self.old) }
        ensures err_delivery { OnErr result (D.held delivery.new ≡ D.held delivery.old) }
        ensures err_delivery_room { OnErr result (D.room delivery.new ≡ D.room delivery.old) }
    {
        let Some(m) = self.next_back()? else {
            return Ok(Moved::Idle);
        };
        let moved = self.turn(ChildStep::Back(m), delivery)?;
        self.back.take();
        Ok(moved)
    }

    /// The message of the main lane that the child takes next, over the same bytes. A broken child takes none.
    fn next_main(&self) -> Result<Option<MainMsg>, Memory>
        ensures next { IfOk result (λ r. r ≡ next_for self.now.child.broken self.now.main) }
        ensures in_range { IfOk result (λ r. IfSome r IsMainInRange) }
    {
        if self.child.is_broken() {
            return Ok(None);
        }
        match self.main.first() {
            None => Ok(None),
            Some(m) => Ok(Some(m.share()?)),
        }
    }

    /// The message of the background lane that the child takes next, over the same bytes. A broken child takes none.
    fn next_back(&self) -> Result<Option<BackMsg>, Memory>
        ensures next { IfOk result (λ r. r ≡ next_for self.now.child.broken self.now.back) }
        ensures in_range { IfOk result (λ r. IfSome r IsBackInRange) }
    {
        if self.child.is_broken() {
            return Ok(None);
        }
        match self.back.first() {
            None => Ok(None),
            Some(m) => Ok(Some(m.share()?)),
        }
    }
}

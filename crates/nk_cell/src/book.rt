// A child and the ends of its four lanes.

ghost use Rattle.std.specs.Prelude.{◌≡◌, [], IfOk, OnErr};
ghost use Rattle.nk_wire.specs.OneFrame.{main_of_frame, back_of_frame};
ghost use Rattle.nk_lane.specs.Ends.{taken_from, left_known, take_capacity, sent_on, send_capacity};
ghost use Rattle.nk_lane.specs.Spelling.{messages};
ghost use Rattle.nk_plan.specs.Capacity.{main_capacity, back_capacity, up_capacity, delivery_capacity};
ghost use Rattle.nk_plan.specs.Child.{new_child};
ghost use Rattle.nk_cell.specs.Books.{IsKept, IsOfChild, IsMade, IsTurn, IsMain, IsBack, IsSame, TakesNone};

use nk_base::{BackMsg, Entry, MainMsg, Memory, Moved, UpMsg};
use nk_child::Child;
use nk_half_laws::capacity::child_room_law;
use nk_half_laws::growth::growth_law;
use nk_lane::{
    AnyEntry, BackFrames, EntryOut, FrameOut, MainFrames, SendEnd, TakeEnd, UpFrames, frames_grow,
};
use nk_laws::state_law;
use nk_plan::{ChildStep, Step};
use nk_wire::{Frame, Framed};
use std::alloc::Global;
use std::marker::Model;

/// A child, and the ends of its four lanes. What its journal took and what it sent and showed is what was taken from its
/// lanes and sent on them. This project's own.
#[derive(Drop)]
pub struct ChildBook {
    alloc: Global,
    number: u32,
    child: Child,
    main: TakeEnd<Frame, MainFrames>,
    back: TakeEnd<Frame, BackFrames>,
    up: FrameOut<UpMsg>,
    delivery: EntryOut,
}

impl Model for ChildBook {
    ghost use Rattle.nk_cell.specs.Books.{BookState};

    ghost Value = { BookState };

    ghost use Rattle.nk_cell.specs.BookOk.{book_of, BookOk};

    ghost view = { book_of };

    ghost invariant = { BookOk };
}

impl ChildBook {
    /// The book of the channel of this number: a new child and the ends of lanes that were not used, whose rings have the
    /// capacities for its plan.
    pub fn new(
        alloc: Global,
        number: u32,
        child: Child,
        main: TakeEnd<Frame, MainFrames>,
        back: TakeEnd<Frame, BackFrames>,
        up: SendEnd<Frame, UpFrames>,
        delivery: SendEnd<Entry, AnyEntry>,
    ) -> ChildBook
        requires child { child.state ≡ new_child child.plan }
        requires taken { (taken_from main ≡ []) × (taken_from back ≡ []) }
        requires sent { (sent_on up ≡ []) × (sent_on delivery ≡ []) }
        requires down { (take_capacity main ≡ main_capacity child.plan) × (take_capacity back ≡ back_capacity child.plan) }
        requires up { (send_capacity up ≡ up_capacity child.plan) × (send_capacity delivery ≡ delivery_capacity child.plan) }
        ensures { result ≡ record {
          number = number;
          child = child;
          main_taken = [];
          main_left = messages main_of_frame (left_known main);
          back_taken = [];
          back_left = messages back_of_frame (left_known back);
          up_sent = [];
          delivered = [];
        } }
    {
        child_room_law();
        // For the fact that it is accepted.
        let _ = child.plan();
        ChildBook {
            alloc,
            number,
            child,
            main,
            back,
            up: FrameOut::new(alloc, up),
            delivery: EntryOut::new(alloc, delivery),
        }
    }

    /// The number of the channel.
    pub fn number(&self) -> u32
        ensures { result ≡ self.now.number }
    {
        self.number
    }

    /// The child.
    pub fn child(&self) -> &Child
        ensures child { result.now ≡ self.now.child }
        ensures kept { IsKept self.now }
    {
        state_law();
        &self.child
    }

    /// The child, given away.
    pub fn into_child(self) -> Child
        ensures child { result ≡ self.child }
        ensures kept { IsKept self }
    {
        state_law();
        self.child
    }

    /// Makes a step of the child, where its row of the table is enabled; else it is `Idle` and changes nothing. A step that
    /// takes a message looks for it, makes the step, and only then takes it; it is `Idle`, too, where that look found none.
    /// On want of memory the message is still on its lane, and the child and its lanes are as before.
    pub fn step(&mut self, step: Step) -> Result<Moved, Memory>
        requires { IsOfChild step }
        ensures made { IfOk result (λ r. IsMade step r self.old self.new) }
        ensures err { OnErr result (IsSame self.old self.new) }
        ensures kept { IsKept self.new }
    {
        state_law();
        let moved = match step {
            Step::Act => self.turn(ChildStep::Act),
            Step::Verdict => self.turn(ChildStep::Verdict),
            Step::Main => self.main(),
            Step::Back => self.back(),
            Step::Release => self.turn(ChildStep::Release),
            Step::Begin(target) => self.turn(ChildStep::Begin(target)),
            Step::Finish(target) => self.turn(ChildStep::Finish(target)),
            Step::Fetch | Step::Up | Step::Forward | Step::Read(_) => unreachable!(),
        };
        // A look at a field, by which what the type keeps is known here.
        let _ = &self.number;
        moved
    }

    /// A step that takes no message.
    fn turn(&mut self, step: ChildStep) -> Result<Moved, Memory>
        requires { TakesNone step }
        ensures made { IfOk result (λ r. IsTurn step r self.old self.new) }
        ensures err { OnErr result (IsSame self.old self.new) }
    {
        child_room_law();
        growth_law();
        let moved = self.child.step(step, &mut self.up, &mut self.delivery)?;
        Ok(moved)
    }

    /// The step that takes the next message of the main lane.
    fn main(&mut self) -> Result<Moved, Memory>
        ensures made { IfOk result (λ r. IsMain r self.old self.new) }
        ensures err { OnErr result (IsSame self.old self.new) }
    {
        child_room_law();
        growth_law();
        frames_grow::<MainMsg>();
        if self.child.is_broken() {
            return Ok(Moved::Idle);
        }
        let m = match self.main.peek() {
            None => return Ok(Moved::Idle),
            Some(frame) => MainMsg::decode(self.alloc, frame)?,
        };
        let step = ChildStep::Main(m);
        self.child.step(step, &mut self.up, &mut self.delivery)?;
        self.main.take();
        Ok(Moved::Did)
    }

    /// The step that takes the next message of the background lane.
    fn back(&mut self) -> Result<Moved, Memory>
        ensures made { IfOk result (λ r. IsBack r self.old self.new) }
        ensures err { OnErr result (IsSame self.old self.new) }
    {
        child_room_law();
        growth_law();
        frames_grow::<BackMsg>();
        if self.child.is_broken() {
            return Ok(Moved::Idle);
        }
        let m = match self.back.peek() {
            None => return Ok(Moved::Idle),
            Some(frame) => BackMsg::decode(self.alloc, frame)?,
        };
        let step = ChildStep::Back(m);
        self.child.step(step, &mut self.up, &mut self.delivery)?;
        self.back.take();
        Ok(Moved::Did)
    }
}

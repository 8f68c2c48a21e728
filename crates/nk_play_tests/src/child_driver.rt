//! A child that is made to do one thing after another, and the text of what it comes to.

ghost use Rattle.std.specs.Prelude.{IfOk};
ghost use Rattle.nk_base.specs.Ranges.{IsMainInRange, IsBackInRange};
ghost use Rattle.nk_child.specs.Steps.{IsStepInRange};

use crate::scripts::{compare, script};
use nk_base::{BackMsg, Fields, Head, MainMsg, Memory, Moved, OutList, Piece, Status, Target};
use nk_child::Child;
use nk_plan::{ChannelPlan, ChildStep};
use nk_trace::Printer;
use std::alloc::Global;
use std::test::Fail;

pub(crate) const MAIN: Target = Target::Main;

pub(crate) const WORKER: Target = Target::Worker(1);

/// What a test has the child do. The messages that come are of hop 0, with status 0.
#[derive(Clone, Copy, Drop)]
pub(crate) enum Do {
    Act,
    /// The start comes with this code, on the main lane or on the background lane.
    Start(u16),
    BackStart(u16),
    StartSent,
    /// A piece comes, with its offset.
    Bytes(u64, &'static [u8]),
    Stop,
    Release,
    Begin(Target),
    Finish(Target),
}

/// The start, on the main lane.
fn start(alloc: Global, code: u16) -> Result<MainMsg, Fail>
    ensures { IfOk result IsMainInRange }
{
    let head = Head::new(code, Fields::new(alloc))?;
    let status = Status::OK;
    Ok(MainMsg::Start {
        hop: 0,
        status,
        head,
    })
}

/// The start, on the background lane.
fn back_start(alloc: Global, code: u16) -> Result<BackMsg, Fail>
    ensures { IfOk result IsBackInRange }
{
    let head = Head::new(code, Fields::new(alloc))?;
    let status = Status::OK;
    Ok(BackMsg::Start {
        hop: 0,
        status,
        head,
    })
}

/// A piece.
fn bytes(alloc: Global, offset: u64, bytes: &[u8]) -> Result<BackMsg, Fail>
    ensures { IfOk result IsBackInRange }
{
    let piece = Piece::new(alloc, bytes)?;
    let status = Status::OK;
    Ok(BackMsg::Bytes {
        hop: 0,
        status,
        offset,
        piece,
    })
}

/// The stop.
fn stop(alloc: Global) -> BackMsg
    ensures { IsBackInRange result }
{
    BackMsg::Stop {
        hop: 0,
        status: Status::OK,
        trailers: Fields::new(alloc),
    }
}

/// The step for this.
fn step(alloc: Global, what: Do) -> Result<ChildStep, Fail>
    ensures { IfOk result IsStepInRange }
{
    Ok(match what {
        Do::Act => ChildStep::Act,
        Do::Start(code) => ChildStep::Main(start(alloc, code)?),
        Do::BackStart(code) => ChildStep::Back(back_start(alloc, code)?),
        Do::StartSent => ChildStep::Back(BackMsg::StartSent { hop: 0 }),
        Do::Bytes(offset, piece) => ChildStep::Back(bytes(alloc, offset, piece)?),
        Do::Stop => ChildStep::Back(stop(alloc)),
        Do::Release => ChildStep::Release,
        Do::Begin(target) => ChildStep::Begin(target),
        Do::Finish(target) => ChildStep::Finish(target),
    })
}

/// Makes a step, over lists of its own.
fn make(alloc: Global, child: &mut Child, step: ChildStep) -> Result<Moved, Memory>
    requires { IsStepInRange step }
{
    child.step(step, &mut OutList::new(alloc), &mut OutList::new(alloc))
}

/// Has the child do all this.
fn make_all(alloc: Global, child: &mut Child, what: &[Do]) -> Result<(), Fail> {
    for one in what {
        let step = step(alloc, *one)?;
        make(alloc, child, step)?;
    }
    Ok(())
}

/// What the listener was shown, how the load stands, and the journal.
fn text_of(alloc: Global, child: &Child) -> Result<Vec<u8>, Memory> {
    let mut printer = Printer::new(alloc);
    printer.trace(child.trace())?;
    printer.ending(child.ending())?;
    for entry in child.journal().as_slice() {
        printer.child_entry(entry)?;
    }
    Ok(printer.into_bytes())
}

/// Has the child do all this, and compares what it comes to.
fn comes_to(alloc: Global, child: &mut Child, what: &[Do], want: &[u8]) -> Result<(), Fail> {
    make_all(alloc, child, what)?;
    compare(text_of(alloc, child)?, want)
}

/// The same for the child of a plan. What is dropped of it at the end are its lists.
fn enters_by(alloc: Global, plan: &ChannelPlan, what: &[Do], want: &[u8]) -> Result<(), Fail> {
    let mut child = Child::new(alloc, plan)?;
    let answer = comes_to(alloc, &mut child, what, want);
    drop(child.into_parts());
    answer
}

/// The same for the child of the channel of this script.
pub(crate) fn enters(alloc: Global, text: &[u8], what: &[Do], want: &[u8]) -> Result<(), Fail> {
    let script = script(alloc, text)?;
    enters_by(alloc, script.plans.get(0), what, want)
}

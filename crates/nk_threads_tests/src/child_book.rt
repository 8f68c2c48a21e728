// A child's book over four lanes, played by hand: messages are sent on the two down lanes, the book makes steps under its lock,
// and what comes out is what is on the delivery lane, on the up lane, and in the child's journal.

ghost use Rattle.std.specs.Prelude.{IfOk};
ghost use Rattle.nk_base.specs.Ranges.{IsMainInRange, IsBackInRange};

use nk_base::{BackMsg, Entry, Fields, Head, MainMsg, Moved, Piece, Status, Target, UpMsg};
use nk_cell::{ChildBook, ChildCell};
use nk_child::Child;
use nk_lane::{AnyEntry, BackFrames, MainFrames, SendEnd, Spelled, TakeEnd, UpFrames, lane};
use nk_plan::{ChannelPlan, Ending, Step};
use nk_script::read_script;
use nk_trace::Printer;
use nk_wire::{Frame, Framed};
use std::alloc::Global;
use std::sync::Wait;
use std::test::Fail;

const MAIN: Target = Target::Main;

const WORKER: Target = Target::Worker(1);

/// The other ends of a book's lanes.
#[derive(Drop)]
struct Far {
    main: SendEnd<Frame, MainFrames>,
    back: SendEnd<Frame, BackFrames>,
    up: TakeEnd<Frame, UpFrames>,
    delivery: TakeEnd<Entry, AnyEntry>,
}

/// What is done. The messages that are sent are of hop 0, with status 0.
#[derive(Clone, Copy, Debug, Drop)]
enum Do {
    Start(u16),
    StartSent,
    Bytes(u64, &'static [u8]),
    Stop,
    /// The book makes this step, which answers so.
    Did(Step),
    Idle(Step),
    /// A callback runs there, or nowhere.
    Runs(Option<Target>),
    Ends(Ending),
}

fn start(alloc: Global, code: u16) -> Result<MainMsg, Fail>
    ensures { IfOk result IsMainInRange }
{
    let head = Head::new(code, Fields::new(alloc))?;
    let status = Status::OK;
    Ok(MainMsg::Start {
        hop: 0,
        status,
        head,
    })
}

fn bytes(alloc: Global, offset: u64, bytes: &[u8]) -> Result<BackMsg, Fail>
    ensures { IfOk result IsBackInRange }
{
    let piece = Piece::new(alloc, bytes)?;
    let status = Status::OK;
    Ok(BackMsg::Bytes {
        hop: 0,
        status,
        offset,
        piece,
    })
}

fn stop(alloc: Global) -> BackMsg
    ensures { IsBackInRange result }
{
    BackMsg::Stop {
        hop: 0,
        status: Status::OK,
        trailers: Fields::new(alloc),
    }
}

/// Sends a message on a lane.
fn send<M: Framed + Drop>(
    alloc: Global,
    end: &mut SendEnd<Frame, Spelled<M>>,
    message: M,
) -> Result<(), Fail>
    requires { M.IsInRange message }
{
    let frame = message.encode(alloc)?;
    if end.room() == 0 {
        Err("the lane is full")?
    }
    end.send(frame);
    Ok(())
}

/// Makes a step of the child, which is to answer so.
fn make<W: Wait>(rt: &W, cell: &ChildCell, step: Step, moved: Moved) -> Result<(), Fail> {
    let answer = match step {
        Step::Fetch | Step::Up | Step::Forward | Step::Read(_) => Err("no step of a child")?,
        Step::Act
        | Step::Verdict
        | Step::Main
        | Step::Back
        | Step::Release
        | Step::Begin(_)
        | Step::Finish(_) => cell.step(rt, step)?,
    };
    if answer != moved {
        Err(step)?
    }
    Ok(())
}

/// Does one thing.
fn done<W: Wait>(
    rt: &W,
    alloc: Global,
    cell: &ChildCell,
    far: &mut Far,
    what: Do,
) -> Result<(), Fail> {
    match what {
        Do::Start(code) => send(alloc, &mut far.main, start(alloc, code)?)?,
        Do::StartSent => send(alloc, &mut far.back, BackMsg::StartSent { hop: 0 })?,
        Do::Bytes(offset, piece) => send(alloc, &mut far.back, bytes(alloc, offset, piece)?)?,
        Do::Stop => send(alloc, &mut far.back, stop(alloc))?,
        Do::Did(step) => make(rt, cell, step, Moved::Did)?,
        Do::Idle(step) => make(rt, cell, step, Moved::Idle)?,
        Do::Runs(target) if cell.running(rt) != target => Err(what)?,
        Do::Ends(ending) if cell.ending(rt) != ending => Err(what)?,
        Do::Runs(_) | Do::Ends(_) => (),
    }
    Ok(())
}

/// Does all this.
fn all_done<W: Wait>(
    rt: &W,
    alloc: Global,
    cell: &ChildCell,
    far: &mut Far,
    what: &[Do],
) -> Result<(), Fail> {
    for one in what {
        done(rt, alloc, cell, far, *one)?;
    }
    Ok(())
}

/// Prints the entries that come out of the delivery lane.
fn print_delivered(
    printer: &mut Printer,
    delivery: &mut TakeEnd<Entry, AnyEntry>,
) -> Result<(), Fail> {
    for _ in 0..1000 {
        match delivery.take() {
            None => break,
            Some(entry) => printer.entry(&entry)?,
        }
    }
    Ok(())
}

/// Prints the messages that come out of the up lane.
fn print_sent(
    alloc: Global,
    printer: &mut Printer,
    up: &mut TakeEnd<Frame, UpFrames>,
) -> Result<(), Fail> {
    for _ in 0..1000 {
        let Some(frame) = up.take() else {
            break;
        };
        printer.up_message(&UpMsg::decode(alloc, &frame)?)?;
        printer.line_feed()?;
    }
    Ok(())
}

/// Prints the child's journal.
fn print_journal(printer: &mut Printer, child: &Child) -> Result<(), Fail> {
    for entry in child.journal().as_slice() {
        printer.child_entry(entry)?;
    }
    Ok(())
}

/// What was delivered, what was sent up, and the journal.
fn text_of(alloc: Global, child: &Child, far: &mut Far) -> Result<Vec<u8>, Fail> {
    let mut printer = Printer::new(alloc);
    print_delivered(&mut printer, &mut far.delivery)?;
    print_sent(alloc, &mut printer, &mut far.up)?;
    print_journal(&mut printer, child)?;
    Ok(printer.into_bytes())
}

/// A text that is another one than it should be.
#[derive(Debug, Drop)]
struct Another {
    text: Vec<u8>,
}

/// Does all this with a book, and compares what comes of it.
fn comes_to<W: Wait>(
    rt: &W,
    alloc: Global,
    book: ChildBook,
    far: &mut Far,
    what: &[Do],
    want: &[u8],
) -> Result<(), Fail> {
    let cell = ChildCell::new(book);
    let answer = all_done(rt, alloc, &cell, far, what);
    let book = cell.into_book();
    answer?;
    let text = text_of(alloc, book.child(), far)?;
    if book.number() != 7 || text.as_slice() != want {
        Err(Another { text })?
    }
    Ok(())
}

/// The same with the book of the channel 7 of a plan.
fn plays_by<W: Wait>(
    rt: &W,
    alloc: Global,
    plan: &ChannelPlan,
    what: &[Do],
    want: &[u8],
) -> Result<(), Fail> {
    let (main, from_main) = lane(alloc, plan.main_capacity())?;
    let (back, from_back) = lane(alloc, plan.back_capacity())?;
    let (to_up, up) = lane(alloc, plan.up_capacity())?;
    let (to_delivery, delivery) = lane(alloc, plan.delivery_capacity())?;
    let child = Child::new(alloc, plan)?;
    let book = ChildBook::new(alloc, 7, child, from_main, from_back, to_up, to_delivery);
    let mut far = Far {
        main,
        back,
        up,
        delivery,
    };
    comes_to(rt, alloc, book, &mut far, what, want)
}

/// The same with the first channel of this script.
fn plays<W: Wait>(
    rt: &W,
    alloc: Global,
    text: &[u8],
    what: &[Do],
    want: &[u8],
) -> Result<(), Fail> {
    if text.len() > 1000 {
        Err("the text is too long")?
    }
    let script = read_script(alloc, text)?;
    plays_by(rt, alloc, script.plans.get(0), what, want)
}

#[test]
fn one_response_is_taken_from_its_lanes(rt: HostRuntime) -> Result<(), Fail> {
    plays(
        &rt,
        rt.alloc(),
        b"script 1\nchannel\nhop response 200\npiece hello\nend ok\n",
        &[
            Do::Idle(Step::Main),
            Do::Ends(Ending::Going),
            Do::Did(Step::Act),
            Do::Idle(Step::Act),
            Do::Idle(Step::Main),
            Do::Start(200),
            Do::StartSent,
            Do::Did(Step::Main),
            Do::Idle(Step::Main),
            Do::Runs(Some(MAIN)),
            Do::Bytes(0, b"hello"),
            Do::Did(Step::Back),
            Do::Did(Step::Release),
            Do::Idle(Step::Release),
            Do::Did(Step::Finish(MAIN)),
            Do::Idle(Step::Finish(MAIN)),
            Do::Runs(None),
            Do::Did(Step::Back),
            Do::Idle(Step::Back),
            Do::Did(Step::Begin(MAIN)),
            Do::Idle(Step::Begin(MAIN)),
            Do::Runs(Some(MAIN)),
            Do::Stop,
            Do::Did(Step::Finish(MAIN)),
            Do::Did(Step::Back),
            Do::Ends(Ending::Going),
            Do::Did(Step::Begin(MAIN)),
            Do::Ends(Ending::Stopped),
            Do::Did(Step::Finish(MAIN)),
            Do::Did(Step::Begin(MAIN)),
            Do::Idle(Step::Begin(MAIN)),
            Do::Idle(Step::Main),
            Do::Idle(Step::Back),
        ],
        b"start 200 00000000\n\
          data 0 68656c6c6f\n\
          stop 00000000\n\
          open\n\
          read 5\n\
          deleting\n\
          c open\n\
          c main start 0 00000000 200 0\n\
          c run main start 200 00000000\n\
          c back sent 0\n\
          c release 0\n\
          c finish main\n\
          c back bytes 0 00000000 0 5\n\
          c run main bytes 0 5\n\
          c finish main\n\
          c back stop 0 00000000\n\
          c run main stop 00000000\n\
          c finish main\n\
          c ended main\n",
    )
}

#[test]
fn a_listener_that_fails_on_a_worker_is_cancelled(rt: HostRuntime) -> Result<(), Fail> {
    plays(
        &rt,
        rt.alloc(),
        b"script 1\n\
          channel\n\
          hop response 200\npiece a\npiece b\nend ok\n\
          at start retarget w1\nat data 1 fail 80004005\n",
        &[
            Do::Did(Step::Act),
            Do::Start(200),
            Do::StartSent,
            Do::Bytes(0, b"a"),
            Do::Bytes(1, b"b"),
            Do::Stop,
            Do::Did(Step::Main),
            Do::Did(Step::Finish(MAIN)),
            Do::Did(Step::Back),
            Do::Did(Step::Back),
            Do::Did(Step::Back),
            Do::Did(Step::Back),
            Do::Idle(Step::Back),
            Do::Did(Step::Release),
            Do::Did(Step::Begin(MAIN)),
            Do::Did(Step::Begin(WORKER)),
            Do::Did(Step::Begin(WORKER)),
            Do::Runs(Some(WORKER)),
            Do::Did(Step::Finish(WORKER)),
            Do::Did(Step::Begin(MAIN)),
            Do::Did(Step::Begin(WORKER)),
            Do::Did(Step::Begin(MAIN)),
            Do::Did(Step::Begin(MAIN)),
            Do::Did(Step::Begin(MAIN)),
            Do::Did(Step::Begin(WORKER)),
            Do::Did(Step::Begin(WORKER)),
            Do::Did(Step::Begin(WORKER)),
            Do::Did(Step::Begin(MAIN)),
            Do::Did(Step::Begin(MAIN)),
            Do::Ends(Ending::Stopped),
            Do::Did(Step::Finish(MAIN)),
            Do::Did(Step::Begin(MAIN)),
            Do::Idle(Step::Begin(MAIN)),
            Do::Idle(Step::Begin(WORKER)),
        ],
        b"start 200 00000000\n\
          data 0 61\n\
          stop 80004005\n\
          open\n\
          read 1\n\
          cancel 80004005\n\
          deleting\n\
          c open\n\
          c main start 0 00000000 200 0\n\
          c run main start 200 00000000\n\
          c finish main\n\
          c retarget w1\n\
          c back sent 0\n\
          c back bytes 0 00000000 0 1\n\
          c back bytes 0 00000000 1 1\n\
          c back stop 0 00000000\n\
          c release 3\n\
          c over main w1\n\
          c complete w1\n\
          c run w1 bytes 0 1\n\
          c finish w1\n\
          c prepend 80004005\n\
          c complete main\n\
          c over w1 main\n\
          c complete main\n\
          c run main cancel 80004005\n\
          c over main w1\n\
          c complete w1\n\
          c run w1 drop 1 80004005\n\
          c over w1 main\n\
          c complete main\n\
          c run main stop 80004005\n\
          c finish main\n\
          c ended main\n",
    )
}

#[test]
fn a_broken_child_takes_nothing_from_its_lanes(rt: HostRuntime) -> Result<(), Fail> {
    plays(
        &rt,
        rt.alloc(),
        b"script 1\n\
          channel\n\
          hop response 200\npiece ab\npiece cd\nend ok\n\
          when 0 break 804b0014\n",
        &[
            Do::Did(Step::Act),
            Do::Start(200),
            Do::StartSent,
            Do::Did(Step::Act),
            Do::Idle(Step::Main),
            Do::Idle(Step::Back),
            Do::Runs(Some(MAIN)),
            Do::Did(Step::Finish(MAIN)),
            Do::Idle(Step::Main),
            Do::Did(Step::Begin(MAIN)),
            Do::Did(Step::Finish(MAIN)),
            Do::Did(Step::Begin(MAIN)),
            Do::Idle(Step::Back),
        ],
        b"start 000 804b0014\n\
          stop 804b0014\n\
          open\n\
          deleting\n\
          c open\n\
          c break 804b0014\n\
          c run main start 000 804b0014\n\
          c finish main\n\
          c run main stop 804b0014\n\
          c finish main\n\
          c ended main\n",
    )
}

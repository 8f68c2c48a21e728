// The lines of which reports are made, and what else is printed by itself.

use crate::rows::{Row, all_right};
use crate::sample::{Headers, NO_HEADERS, Sample, TRAILER, message};
use crate::trace::{Did, Seen, child_entry, entry, parent_entry};
use nk_base::{Memory, RetargetError, Status, Target, UpMsg};
use nk_plan::{Ending, Trace};
use nk_trace::Printer;
use nk_wire::AnyMsg;
use std::alloc::Global;

/// What is printed.
#[derive(Clone, Copy)]
enum Print {
    Word(&'static str),
    Decimal(u64),
    Kind(u8),
    Status(Status),
    LineFeed,
    Channel(u64),
    Ending(Ending),
    Forwarded(usize),
    Trace(Seen),
    Message(Sample),
    Parent(Sample),
    Child(Did),
}

/// What is printed, and the text.
type Printed = (Print, &'static str);

fn print_message(alloc: Global, printer: &mut Printer, sample: &Sample) -> Result<(), Memory> {
    match message(alloc, sample)? {
        AnyMsg::Main(m) => printer.main_message(&m),
        AnyMsg::Back(m) => printer.back_message(&m),
        AnyMsg::Up(m) => printer.up_message(&m),
    }
}

fn print_parent(alloc: Global, printer: &mut Printer, sample: &Sample) -> Result<(), Memory> {
    match parent_entry(alloc, sample) {
        Ok(entry) => printer.parent_entry(&entry),
        Err(Memory) => Err(Memory),
    }
}

fn print_child(alloc: Global, printer: &mut Printer, did: &Did) -> Result<(), Memory> {
    match child_entry(alloc, did) {
        Ok(entry) => printer.child_entry(&entry),
        Err(Memory) => Err(Memory),
    }
}

fn trace(alloc: Global, seen: Seen) -> Result<Trace, Memory> {
    let mut trace = Trace::new(alloc);
    trace.push(entry(alloc, seen)?)?;
    Ok(trace)
}

fn print_trace(alloc: Global, printer: &mut Printer, seen: Seen) -> Result<(), Memory> {
    match trace(alloc, seen) {
        Ok(trace) => printer.trace(&trace),
        Err(Memory) => Err(Memory),
    }
}

fn print_row(alloc: Global, printer: &mut Printer, row: &Print) -> Result<(), Memory> {
    match *row {
        Print::Word(word) => printer.word(word),
        Print::Decimal(number) => printer.decimal(number),
        Print::Kind(kind) => printer.kind(kind),
        Print::Status(status) => printer.status(status),
        Print::LineFeed => printer.line_feed(),
        Print::Channel(number) => printer.channel_line(number),
        Print::Ending(ending) => printer.ending(ending),
        Print::Forwarded(count) => printer.forwarded(count),
        Print::Trace(seen) => print_trace(alloc, printer, seen),
        Print::Message(sample) => print_message(alloc, printer, &sample),
        Print::Parent(sample) => print_parent(alloc, printer, &sample),
        Print::Child(did) => print_child(alloc, printer, &did),
    }
}

fn printed(alloc: Global, row: &Print) -> Result<Vec<u8>, Memory> {
    let mut printer = Printer::new(alloc);
    print_row(alloc, &mut printer, row)?;
    Ok(printer.into_bytes())
}

fn is_printed(alloc: Global, row: &Print, text: &str) -> bool {
    match printed(alloc, row) {
        Ok(bytes) => bytes.as_slice() == text.as_bytes(),
        Err(Memory) => false,
    }
}

impl Row for Printed {
    fn is_right(&self, alloc: Global) -> bool {
        is_printed(alloc, &self.0, self.1)
    }
}

const OK: Status = Status::OK;

const ABORTED: Status = Status::BINDING_ABORTED;

const RESET: Status = Status::NET_RESET;

const MAIN: Target = Target::Main;

const NINE: Target = Target::Worker(9);

const LINES: &[Printed] = &[
    (Print::Word(""), ""),
    (Print::Word("usage"), "usage"),
    (Print::Decimal(0), "0"),
    (Print::Decimal(10), "10"),
    (Print::Decimal(u64::MAX), "18446744073709551615"),
    (Print::Kind(0xf2), "f2"),
    (Print::Kind(0), "00"),
    (Print::Kind(0x0a), "0a"),
    (Print::Status(OK), "00000000"),
    (Print::Status(Status::STREAM_CLOSED), "80470002"),
    (Print::Status(Status(0xffff_ffff)), "ffffffff"),
    (Print::LineFeed, "\n"),
    (Print::Channel(1024), "channel 1024\n"),
    (Print::Ending(Ending::Stopped), "end stopped\n"),
    (Print::Ending(Ending::Suspended), "end suspended\n"),
    (Print::Ending(Ending::Unopened), "end unopened\n"),
    (Print::Forwarded(0), "forwarded 0\n"),
    (Print::Forwarded(65_538), "forwarded 65538\n"),
    (Print::Trace(Seen::Start(7, RESET)), "start 007 804b0014\n"),
    (Print::Trace(Seen::Start(42, OK)), "start 042 00000000\n"),
    (Print::Trace(Seen::Start(999, OK)), "start 999 00000000\n"),
    (
        Print::Trace(Seen::Bytes(u64::MAX, (b"\0\n", 1))),
        "data 18446744073709551615 000a\n",
    ),
    (
        Print::Trace(Seen::Stop(RESET, NO_HEADERS)),
        "stop 804b0014\n",
    ),
];

#[test]
fn prints_words_numbers_and_lines(rt: HostRuntime) {
    all_right(&rt, rt.alloc(), LINES);
}

const BROUGHT_ABOUT: &[Printed] = &[
    (Print::Child(Did::Suspend), "c suspend\n"),
    (Print::Child(Did::Resume), "c resume\n"),
    (Print::Child(Did::Cancel(ABORTED)), "c cancel 804b0002\n"),
    (Print::Child(Did::Break(ABORTED)), "c break 804b0002\n"),
    (
        Print::Child(Did::NoRetarget(RetargetError::NotOpened)),
        "c refused notopened\n",
    ),
    (
        Print::Child(Did::NoRetarget(RetargetError::Stopped)),
        "c refused stopped\n",
    ),
    (
        Print::Child(Did::NoRetarget(RetargetError::Failed(ABORTED))),
        "c refused failed 804b0002\n",
    ),
    (
        Print::Child(Did::NoRetarget(RetargetError::NotRetargetable)),
        "c refused notretargetable\n",
    ),
    (
        Print::Child(Did::NoRetarget(RetargetError::AlreadyRetargeted(16))),
        "c refused already w16\n",
    ),
    (Print::Child(Did::NoEffect), "c none\n"),
    (
        Print::Child(Did::Verdict(3, ABORTED)),
        "c verdict 3 804b0002\n",
    ),
    (
        Print::Child(Did::RunDrop(Target::Worker(16), 4096, ABORTED)),
        "c run w16 drop 4096 804b0002\n",
    ),
    (
        Print::Child(Did::RunRedirect1(MAIN, 31)),
        "c run main redirect1 31\n",
    ),
    (
        Print::Child(Did::RunRedirect3(MAIN, 31)),
        "c run main redirect3 31\n",
    ),
    (
        Print::Child(Did::RunCancel(MAIN, ABORTED)),
        "c run main cancel 804b0002\n",
    ),
    (Print::Child(Did::Prepend(ABORTED)), "c prepend 804b0002\n"),
    (Print::Child(Did::Open), "c open\n"),
    (Print::Child(Did::Retarget(16)), "c retarget w16\n"),
    (Print::Child(Did::Release(3)), "c release 3\n"),
    (
        Print::Child(Did::RunStart(MAIN, 0, RESET)),
        "c run main start 000 804b0014\n",
    ),
    (
        Print::Child(Did::RunStart(NINE, 99, OK)),
        "c run w9 start 099 00000000\n",
    ),
    (
        Print::Child(Did::RunBytes(MAIN, u64::MAX, 131_072)),
        "c run main bytes 18446744073709551615 131072\n",
    ),
    (
        Print::Child(Did::RunStop(NINE, RESET)),
        "c run w9 stop 804b0014\n",
    ),
    (Print::Child(Did::HandOver(NINE, MAIN)), "c over w9 main\n"),
    (Print::Child(Did::HandOver(MAIN, NINE)), "c over main w9\n"),
    (Print::Child(Did::Ended(NINE)), "c ended w9\n"),
    (Print::Child(Did::Complete(MAIN)), "c complete main\n"),
    (Print::Child(Did::Finish(NINE)), "c finish w9\n"),
];

#[test]
fn prints_what_the_page_and_failures_bring_about(rt: HostRuntime) {
    all_right(&rt, rt.alloc(), BROUGHT_ABOUT);
}

const MANY: Headers = Headers(64, (b"x", 1), (b"y", 1));

const MESSAGES: &[Printed] = &[
    (
        Print::Parent(Sample::FailedOpen(0, RESET)),
        "p send failed 0 804b0014\n",
    ),
    (
        Print::Parent(Sample::Redirect1(7, 302)),
        "p send redirect1 7 302\n",
    ),
    (Print::Parent(Sample::Redirect3(7)), "p send redirect3 7\n"),
    (
        Print::Parent(Sample::BackStart(1, RESET, 404, TRAILER)),
        "p send bstart 1 804b0014 404 1\n",
    ),
    (
        Print::Parent(Sample::Stop(1, OK, TRAILER)),
        "p send stop 1 00000000 1\n",
    ),
    (Print::Parent(Sample::Up(UpMsg::Suspend)), "p suspend\n"),
    (Print::Parent(Sample::Up(UpMsg::Resume)), "p resume\n"),
    (
        Print::Parent(Sample::Up(UpMsg::Cancel { status: RESET })),
        "p cancel 804b0014\n",
    ),
    (
        Print::Parent(Sample::Up(UpMsg::Verify {
            hop: 2,
            status: RESET,
        })),
        "p verify 2 804b0014\n",
    ),
    (
        Print::Parent(Sample::Up(UpMsg::BytesRead { count: 131_072 })),
        "p read 131072\n",
    ),
    (
        Print::Message(Sample::Start(31, RESET, 100, NO_HEADERS)),
        "start 31 804b0014 100 0",
    ),
    (
        Print::Message(Sample::Start(0, OK, 999, MANY)),
        "start 0 00000000 999 64",
    ),
    (
        Print::Message(Sample::Bytes(1, OK, u64::MAX, (b"a", 131_072))),
        "bytes 1 00000000 18446744073709551615 131072",
    ),
    (
        Print::Message(Sample::Stop(0, RESET, NO_HEADERS)),
        "stop 0 804b0014",
    ),
    (
        Print::Message(Sample::Stop(0, OK, MANY)),
        "stop 0 00000000 64",
    ),
    (Print::Message(Sample::StartSent(2)), "sent 2"),
    (Print::Message(Sample::Up(UpMsg::Open)), "open"),
    (Print::Message(Sample::Up(UpMsg::Deleting)), "deleting"),
];

#[test]
fn prints_the_other_messages(rt: HostRuntime) {
    all_right(&rt, rt.alloc(), MESSAGES);
}

// The printed text: reports of what listeners saw, readers were given, and both sides of a channel did.

ghost use Rattle.std.specs.Prelude.{All, IsTrue, ◌≢◌};

use crate::rows::{Row, all_right};
use crate::sample::{Headers, NO_HEADERS, Sample, TRAILER, Text, fields, message, piece};
use nk_base::{ByteList, Entry, Memory, RetargetError, Status, Target, UpMsg};
use nk_plan::{
    ChannelEnd, ChildEntry, ChildJournal, Ending, Ends, ParentEntry, ParentJournal, ReaderEnd,
    Readers, Trace,
};
use nk_trace::report;
use nk_wire::AnyMsg;
use std::alloc::Global;

/// What a child did.
#[derive(Clone, Copy)]
pub enum Did {
    Open,
    Suspend,
    Resume,
    Cancel(Status),
    Break(Status),
    Retarget(u8),
    NoRetarget(RetargetError),
    NoEffect,
    Verdict(u32, Status),
    Took(Sample),
    Release(usize),
    RunStart(Target, u16, Status),
    RunBytes(Target, u64, u32),
    RunDrop(Target, u64, Status),
    RunStop(Target, Status),
    RunRedirect1(Target, u32),
    RunRedirect3(Target, u32),
    RunCancel(Target, Status),
    HandOver(Target, Target),
    Ended(Target),
    Complete(Target),
    Finish(Target),
    Prepend(Status),
}

/// What a listener saw.
#[derive(Clone, Copy)]
pub enum Seen {
    Start(u16, Status),
    Bytes(u64, Text),
    Stop(Status, Headers),
}

/// Something that is left of a channel.
#[derive(Clone, Copy)]
enum Left {
    /// Its listener saw this.
    Saw(Seen),
    /// One more reader was given this, and stopped with this.
    Reader(&'static [u8], Option<Status>),
    /// Its parent took or sent this.
    Parent(Sample),
    /// So many messages were moved on.
    Forwarded(usize),
    /// Its child did this.
    Child(Did),
}

/// How a channel ended, and what is left of it.
type Channel = (Ending, &'static [Left]);

/// Channels, whether their journals are printed, and the report.
type Report = (&'static [Channel], bool, &'static str);

/// The entry of a child's journal for what it did.
pub fn child_entry(alloc: Global, did: &Did) -> Result<ChildEntry, Memory> {
    let entry = match *did {
        Did::Open => ChildEntry::Open,
        Did::Suspend => ChildEntry::Suspend,
        Did::Resume => ChildEntry::Resume,
        Did::Cancel(status) => ChildEntry::Cancel(status),
        Did::Break(status) => ChildEntry::Break(status),
        Did::Retarget(worker) => ChildEntry::Retarget(worker),
        Did::NoRetarget(error) => ChildEntry::NoRetarget(error),
        Did::NoEffect => ChildEntry::NoEffect,
        Did::Verdict(hop, status) => ChildEntry::Verdict { hop, status },
        Did::Took(sample) => return taken(alloc, &sample),
        Did::Release(count) => ChildEntry::Release(count),
        Did::RunStart(target, code, status) => ChildEntry::RunStart {
            target,
            code,
            status,
        },
        Did::RunBytes(target, offset, length) => ChildEntry::RunBytes {
            target,
            offset,
            length,
        },
        Did::RunDrop(target, offset, status) => ChildEntry::RunDrop {
            target,
            offset,
            status,
        },
        Did::RunStop(target, status) => ChildEntry::RunStop { target, status },
        Did::RunRedirect1(target, hop) => ChildEntry::RunRedirect1 { target, hop },
        Did::RunRedirect3(target, hop) => ChildEntry::RunRedirect3 { target, hop },
        Did::RunCancel(target, status) => ChildEntry::RunCancel { target, status },
        Did::HandOver(from, to) => ChildEntry::HandOver { from, to },
        Did::Ended(target) => ChildEntry::Ended(target),
        Did::Complete(target) => ChildEntry::Complete(target),
        Did::Finish(target) => ChildEntry::Finish(target),
        Did::Prepend(status) => ChildEntry::Prepend(status),
    };
    Ok(entry)
}

// The same for a message that it took.
fn taken(alloc: Global, sample: &Sample) -> Result<ChildEntry, Memory> {
    match message(alloc, sample)? {
        AnyMsg::Main(m) => Ok(ChildEntry::TookMain(m)),
        AnyMsg::Back(m) => Ok(ChildEntry::TookBack(m)),
        AnyMsg::Up(_) => Err(Memory),
    }
}

/// The entry of a parent's journal for what it took or sent.
pub fn parent_entry(alloc: Global, sample: &Sample) -> Result<ParentEntry, Memory> {
    match message(alloc, sample)? {
        AnyMsg::Main(m) => Ok(ParentEntry::SentMain(m)),
        AnyMsg::Back(m) => Ok(ParentEntry::SentBack(m)),
        AnyMsg::Up(m) => Ok(ParentEntry::Took(m)),
    }
}

/// The entry of a trace for what its listener saw.
pub fn entry(alloc: Global, seen: Seen) -> Result<Entry, Memory> {
    match seen {
        Seen::Start(code, status) => Ok(Entry::Start { code, status }),
        Seen::Bytes(offset, text) => {
            let piece = piece(alloc, text)?;
            Ok(Entry::Bytes { offset, piece })
        }
        Seen::Stop(status, headers) => {
            let trailers = fields(alloc, headers)?;
            Ok(Entry::Stop { status, trailers })
        }
    }
}

fn reader(alloc: Global, given: &[u8], status: Option<Status>) -> Result<ReaderEnd, Memory> {
    let mut bytes = ByteList::new(alloc);
    bytes.extend(given)?;
    Ok(ReaderEnd { bytes, status })
}

// Adds one thing more to what is left of a channel.
fn add(alloc: Global, end: &mut ChannelEnd, left: &Left) -> Result<(), Memory> {
    match *left {
        Left::Saw(seen) => end.trace.push(entry(alloc, seen)?),
        Left::Reader(given, status) => end.readers.push(reader(alloc, given, status)?),
        Left::Parent(sample) => end.parent.push(parent_entry(alloc, &sample)?),
        Left::Child(did) => end.child.push(child_entry(alloc, &did)?),
        Left::Forwarded(count) => {
            end.forwarded = count;
            Ok(())
        }
    }
}

fn add_all(alloc: Global, end: &mut ChannelEnd, rows: &[Left]) -> Result<(), Memory> {
    for left in rows {
        add(alloc, end, left)?;
    }
    Ok(())
}

// What is left of a channel that ended so, and of which this is left.
fn channel_end(alloc: Global, ending: Ending, rows: &[Left]) -> Result<ChannelEnd, Memory> {
    let mut end = ChannelEnd {
        trace: Trace::new(alloc),
        readers: Readers::new(alloc),
        ending,
        parent: ParentJournal::new(alloc),
        child: ChildJournal::new(alloc),
        forwarded: 0,
    };
    add_all(alloc, &mut end, rows)?;
    Ok(end)
}

// Adds what is left of these channels.
fn push_all(alloc: Global, ends: &mut Ends, channels: &[Channel]) -> Result<(), Memory> {
    for (ending, rows) in channels {
        ends.push(channel_end(alloc, *ending, rows)?)?;
    }
    Ok(())
}

// Whether these channels have ended.
fn are_over(ends: &Ends) -> bool
    ensures { IsTrue result → All (λ end. end.ending ≢ Ending.Going) ends.now }
{
    ends.as_slice()
        .iter()
        .all(|end| end.ending != Ending::Going)
}

fn is_text(report: Result<Vec<u8>, Memory>, text: &str) -> bool {
    match report {
        Ok(bytes) => bytes.as_slice() == text.as_bytes(),
        Err(Memory) => false,
    }
}

fn is_report(alloc: Global, ends: &Ends, log: bool, text: &str) -> bool {
    are_over(ends) && is_text(report(alloc, ends, log), text)
}

// Whether these channels are reported so.
fn is_reported(alloc: Global, channels: &[Channel], log: bool, text: &str) -> bool {
    let mut ends = Ends::new(alloc);
    match push_all(alloc, &mut ends, channels) {
        Ok(()) => is_report(alloc, &ends, log, text),
        Err(Memory) => false,
    }
}

impl Row for Report {
    fn is_right(&self, alloc: Global) -> bool {
        is_reported(alloc, self.0, self.1, self.2)
    }
}

const OK: Status = Status::OK;

const FAILURE: Status = Status::CONNECTION_REFUSED;

const MAIN: Target = Target::Main;

const WORKER: Target = Target::Worker(1);

const RESPONSE: &[Left] = &[
    Left::Saw(Seen::Start(200, OK)),
    Left::Saw(Seen::Bytes(0, (b"hello", 1))),
    Left::Saw(Seen::Stop(OK, NO_HEADERS)),
];

const RESPONSE_REPORT: &[Report] = &[(
    &[(Ending::Stopped, RESPONSE)],
    false,
    "channel 1\nstart 200 00000000\ndata 0 68656c6c6f\nstop 00000000\nend stopped\n",
)];

#[test]
fn prints_a_response(rt: HostRuntime) {
    all_right(&rt, rt.alloc(), RESPONSE_REPORT);
}

const FAILED: &[Left] = &[
    Left::Saw(Seen::Start(0, FAILURE)),
    Left::Saw(Seen::Stop(FAILURE, NO_HEADERS)),
];

const STARTED: &[Left] = &[Left::Saw(Seen::Start(200, OK))];

const STARTED_REPORT: &[Report] = &[(
    &[(Ending::Stopped, FAILED), (Ending::Suspended, STARTED)],
    false,
    "channel 1\nstart 000 804b000d\nstop 804b000d\nend stopped\n\
        channel 2\nstart 200 00000000\nend suspended\n",
)];

#[test]
fn numbers_channels_and_pads_codes(rt: HostRuntime) {
    all_right(&rt, rt.alloc(), STARTED_REPORT);
}

const TRAILED: &[Left] = &[
    Left::Saw(Seen::Start(200, OK)),
    Left::Saw(Seen::Bytes(0, (b"ab", 1))),
    Left::Saw(Seen::Stop(OK, TRAILER)),
];

const TRAILED_REPORT: &[Report] = &[(
    &[(Ending::Stopped, TRAILED)],
    false,
    "channel 1\nstart 200 00000000\ndata 0 6162\ntrailer x-sum 17\nstop 00000000\nend stopped\n",
)];

#[test]
fn prints_trailers_before_their_stop(rt: HostRuntime) {
    all_right(&rt, rt.alloc(), TRAILED_REPORT);
}

const READ: &[Left] = &[
    Left::Reader(b"aaaaaaaaaaaaaaaaaaaa", Some(OK)),
    Left::Reader(b"aaaaaaaaaaaaaaaaaaaa", Some(OK)),
    Left::Reader(b"\0\xff", Some(FAILURE)),
];

const READ_REPORT: &[Report] = &[(
    &[(Ending::Stopped, READ)],
    false,
    "channel 1\n\
        reader 1 20 6161616161616161616161616161616161616161 00000000\n\
        reader 2 20 6161616161616161616161616161616161616161 00000000\n\
        reader 3 2 00ff 804b000d\n\
        end stopped\n",
)];

#[test]
fn prints_what_readers_were_given(rt: HostRuntime) {
    all_right(&rt, rt.alloc(), READ_REPORT);
}

const IDLE: &[Left] = &[Left::Reader(b"", None), Left::Reader(b"", None)];

const IDLE_REPORT: &[Report] = &[(
    &[(Ending::Unopened, IDLE)],
    false,
    "channel 1\nreader 1 0 - open\nreader 2 0 - open\nend unopened\n",
)];

#[test]
fn prints_idle_readers_of_a_closed_channel(rt: HostRuntime) {
    all_right(&rt, rt.alloc(), IDLE_REPORT);
}

const HEAD: &[Left] = &[
    Left::Saw(Seen::Start(204, OK)),
    Left::Saw(Seen::Stop(OK, NO_HEADERS)),
    Left::Parent(Sample::Up(UpMsg::Open)),
    Left::Parent(Sample::Start(0, OK, 204, NO_HEADERS)),
    Left::Parent(Sample::StartSent(0)),
    Left::Parent(Sample::Stop(0, OK, NO_HEADERS)),
    Left::Parent(Sample::Up(UpMsg::Deleting)),
    Left::Forwarded(2),
    Left::Child(Did::Open),
    Left::Child(Did::Took(Sample::Start(0, OK, 204, NO_HEADERS))),
    Left::Child(Did::RunStart(MAIN, 204, OK)),
    Left::Child(Did::Took(Sample::StartSent(0))),
    Left::Child(Did::Release(0)),
    Left::Child(Did::Finish(MAIN)),
    Left::Child(Did::Took(Sample::Stop(0, OK, NO_HEADERS))),
    Left::Child(Did::RunStop(MAIN, OK)),
    Left::Child(Did::Finish(MAIN)),
    Left::Child(Did::Ended(MAIN)),
];

const HEAD_REPORT: &[Report] = &[(
    &[(Ending::Stopped, HEAD)],
    true,
    "channel 1\nstart 204 00000000\nstop 00000000\nend stopped\n\
        p open\np send start 0 00000000 204 0\np send sent 0\np send stop 0 00000000\np deleting\n\
        forwarded 2\n\
        c open\nc main start 0 00000000 204 0\nc run main start 204 00000000\nc back sent 0\nc release 0\n\
        c finish main\nc back stop 0 00000000\nc run main stop 00000000\nc finish main\nc ended main\n",
)];

#[test]
fn prints_the_journals_of_a_head(rt: HostRuntime) {
    all_right(&rt, rt.alloc(), HEAD_REPORT);
}

const RETARGETED: &[Left] = &[
    Left::Child(Did::Open),
    Left::Child(Did::Took(Sample::Start(0, OK, 200, NO_HEADERS))),
    Left::Child(Did::RunStart(MAIN, 200, OK)),
    Left::Child(Did::Took(Sample::StartSent(0))),
    Left::Child(Did::Took(Sample::Bytes(0, OK, 0, (b"ab", 1)))),
    Left::Child(Did::Release(1)),
    Left::Child(Did::Finish(MAIN)),
    Left::Child(Did::Retarget(1)),
    Left::Child(Did::HandOver(MAIN, WORKER)),
    Left::Child(Did::Complete(WORKER)),
    Left::Child(Did::RunBytes(WORKER, 0, 2)),
    Left::Child(Did::NoRetarget(RetargetError::AlreadyRetargeted(1))),
    Left::Child(Did::Took(Sample::Stop(0, OK, NO_HEADERS))),
    Left::Child(Did::Finish(WORKER)),
    Left::Child(Did::HandOver(WORKER, MAIN)),
    Left::Child(Did::Complete(MAIN)),
    Left::Child(Did::RunStop(MAIN, OK)),
    Left::Child(Did::Finish(MAIN)),
    Left::Child(Did::Ended(MAIN)),
];

const RETARGETED_REPORT: &[Report] = &[(
    &[(Ending::Stopped, RETARGETED)],
    true,
    "channel 1\nend stopped\nforwarded 0\n\
        c open\nc main start 0 00000000 200 0\nc run main start 200 00000000\nc back sent 0\n\
        c back bytes 0 00000000 0 2\nc release 1\nc finish main\nc retarget w1\nc over main w1\nc complete w1\n\
        c run w1 bytes 0 2\nc refused already w1\nc back stop 0 00000000\nc finish w1\nc over w1 main\n\
        c complete main\nc run main stop 00000000\nc finish main\nc ended main\n",
)];

#[test]
fn prints_the_journal_of_a_retargeted_child(rt: HostRuntime) {
    all_right(&rt, rt.alloc(), RETARGETED_REPORT);
}

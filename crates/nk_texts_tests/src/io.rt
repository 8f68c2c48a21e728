// Bytes in and out: what sources give and sinks take, call by call, and what is read and written by the two calls over a
// whole one.

use crate::rows::{Row, all_right, none_wrong, right};
use nk_io::{
    MemSink, MemSource, Put, ReadError, Sink, Source, StdSink, StdSource, SureSink, SureSource,
    Take, WriteFault, read_all, write_all,
};
use std::alloc::{AllocError, Global};
use std::io::{self, Read, Write};

/// A reader of 3 bytes that then fails.
#[derive(Drop)]
struct Breaking {
    reads: u8,
}

impl Read for Breaking {
    fn read(&mut self, buf: &mut [u8]) -> io::Result<usize> {
        if self.reads > 0 || buf.len() < 3 {
            return Err(io::Error::from(io::ErrorKind::BrokenPipe));
        }
        self.reads = 1;
        buf[..3].copy_from_slice(b"abc");
        Ok(3)
    }
}

/// A writer that takes nothing.
#[derive(Drop)]
struct Full;

impl Write for Full {
    fn write(&mut self, _buf: &[u8]) -> io::Result<usize> {
        Ok(0)
    }

    fn flush(&mut self) -> io::Result<()> {
        Ok(())
    }
}

/// A reader of 3 bytes, and a writer of all, that a signal first interrupts so often.
#[derive(Drop)]
struct Interrupted {
    times: u32,
    is_read: bool,
}

impl Interrupted {
    fn new(times: u32) -> Interrupted {
        Interrupted {
            times,
            is_read: false,
        }
    }

    fn meet_a_signal(&mut self) -> io::Result<()> {
        if self.times == 0 {
            return Ok(());
        }
        self.times -= 1;
        Err(io::Error::from(io::ErrorKind::Interrupted))
    }
}

impl Read for Interrupted {
    fn read(&mut self, buf: &mut [u8]) -> io::Result<usize> {
        self.meet_a_signal()?;
        if self.is_read || buf.len() < 3 {
            return Ok(0);
        }
        self.is_read = true;
        buf[..3].copy_from_slice(b"abc");
        Ok(3)
    }
}

impl Write for Interrupted {
    fn write(&mut self, buf: &[u8]) -> io::Result<usize> {
        self.meet_a_signal()?;
        Ok(buf.len())
    }

    fn flush(&mut self) -> io::Result<()> {
        Ok(())
    }
}

/// Bytes that a source gives, so many per call, failing at the calls of these numbers, from 1 on; the limit under which
/// they are read; and why they are not.
type Reading = (&'static [u8], usize, [u64; 2], u32, Option<ReadError>);

// A source in memory.
fn source(
    alloc: Global,
    bytes: &[u8],
    most: usize,
    fails: [u64; 2],
) -> Result<MemSource, AllocError> {
    let bytes = bytes.to_vec(alloc)?;
    Ok(MemSource::new(bytes, most.max(1), fails.to_vec(alloc)?))
}

// Whether all is read, or refused, as is said.
fn reads<I: Source>(
    alloc: Global,
    source: &mut I,
    limit: u32,
    bytes: &[u8],
    error: Option<ReadError>,
) -> bool {
    if limit > 1_000_000 {
        return false;
    }
    match read_all(alloc, source, limit) {
        Ok(all) => error.is_none() && all.as_slice() == bytes,
        Err(found) => error == Some(found),
    }
}

impl Row for Reading {
    fn is_right(&self, alloc: Global) -> bool {
        let (bytes, most, fails, limit, error) = *self;
        match source(alloc, bytes, most, fails) {
            Ok(mut source) => reads(alloc, &mut source, limit, bytes, error),
            Err(_) => false,
        }
    }
}

const LARGE: Option<ReadError> = Some(ReadError::TooLarge);

const FAULT: Option<ReadError> = Some(ReadError::Fault);

const LIMITED: &[Reading] = &[
    (b"hello", 2, [0, 0], 5, None),
    (b"hello", 2, [0, 0], 6, None),
    (b"hello", 2, [0, 0], 4, LARGE),
    (b"hello", 2, [0, 0], 0, LARGE),
    (b"hello", 1, [0, 0], 5, None),
    (b"hello", 1, [0, 0], 4, LARGE),
    (b"hello", 9, [0, 0], 5, None),
    (b"hello", 9, [0, 0], 4, LARGE),
    (b"", 1, [0, 0], 0, None),
    (b"a", 1, [0, 0], 0, LARGE),
];

#[test]
fn a_source_is_read_to_its_end_or_to_its_limit(rt: HostRuntime) {
    all_right(&rt, rt.alloc(), LIMITED);
}

const FAILING: &[Reading] = &[
    (b"channel", 3, [1, 0], 100, FAULT),
    (b"channel", 3, [2, 0], 100, FAULT),
    (b"channel", 3, [3, 0], 100, FAULT),
    (b"channel", 3, [4, 0], 100, FAULT),
    (b"channel", 3, [5, 0], 100, None),
    (b"channel", 3, [9, 3], 100, FAULT),
    (b"channel", 3, [2, 0], 2, LARGE),
    (b"", 3, [1, 0], 0, FAULT),
];

#[test]
fn a_source_that_fails_at_a_take_gives_a_fault(rt: HostRuntime) {
    all_right(&rt, rt.alloc(), FAILING);
}

// Whether a take into a buffer of so many bytes answers so, and leaves these at its front.
fn takes(source: &mut MemSource, room: usize, take: Take, given: &[u8]) -> bool {
    let mut buffer = [0; 8];
    let room = room.clamp(1, 8);
    source.take(&mut buffer[..room]) == take && buffer.starts_with(given)
}

// The number of the first take that answers otherwise.
fn first_mistaken(source: &mut MemSource, calls: &[(usize, Take, &[u8])]) -> Option<usize> {
    let mut number: usize = 0;
    for (room, take, given) in calls {
        if !takes(source, *room, *take, given) {
            return Some(number);
        }
        number = number.wrapping_add(1);
    }
    None
}

// The same by a source of a channel's line, of 4 bytes at once, that fails at the second take and the sixth.
fn first_of_line(alloc: Global, calls: &[(usize, Take, &[u8])]) -> Option<usize> {
    match source(alloc, b"channel 1", 4, [2, 6]) {
        Ok(mut source) => first_mistaken(&mut source, calls),
        Err(_) => Some(usize::MAX),
    }
}

const TAKES: &[(usize, Take, &[u8])] = &[
    (8, Take::Took(4), b"chan"),
    (8, Take::Failed, b""),
    (3, Take::Took(3), b"nel"),
    (1, Take::Took(1), b" "),
    (8, Take::Took(1), b"1"),
    (8, Take::Failed, b""),
    (8, Take::End, b""),
    (8, Take::End, b""),
];

#[test]
fn a_source_gives_what_is_left_and_fails_as_chosen(rt: HostRuntime) {
    none_wrong(&rt, first_of_line(rt.alloc(), TAKES));
}

/// A call of a sink, and its answer.
#[derive(Clone, Copy)]
enum Call {
    Put(&'static [u8], Put),
    WriteAll(&'static [u8], Result<(), WriteFault>),
}

/// A call, and what the sink has got after it.
type Writing = (Call, &'static [u8]);

// A sink in memory.
fn sink(alloc: Global, most: usize, fails: u64) -> Result<MemSink, AllocError> {
    Ok(MemSink::new(alloc, most.max(1), [fails].to_vec(alloc)?))
}

fn puts(sink: &mut MemSink, bytes: &[u8], put: Put) -> bool {
    !bytes.is_empty() && sink.put(bytes) == put
}

// Whether all is written.
fn writes<O: Sink>(sink: &mut O, bytes: &[u8]) -> bool {
    match write_all(sink, bytes) {
        Ok(()) => true,
        Err(WriteFault) => false,
    }
}

fn is_answered(sink: &mut MemSink, call: Call) -> bool {
    match call {
        Call::Put(bytes, put) => puts(sink, bytes, put),
        Call::WriteAll(bytes, answer) => writes(sink, bytes) == answer.is_ok(),
    }
}

fn has_got(sink: &MemSink, bytes: &[u8]) -> bool {
    sink.bytes() == bytes
}

// The number of the first call that is answered otherwise, or after which the sink has got something else.
fn first_misanswered(sink: &mut MemSink, rows: &[Writing]) -> Option<usize> {
    let mut number: usize = 0;
    for (call, got) in rows {
        if !is_answered(sink, *call) || !has_got(sink, got) {
            return Some(number);
        }
        number = number.wrapping_add(1);
    }
    None
}

// The same by a sink that takes so many bytes at once and fails at this call.
fn first_miswritten(alloc: Global, most: usize, fails: u64, rows: &[Writing]) -> Option<usize> {
    match sink(alloc, most, fails) {
        Ok(mut sink) => first_misanswered(&mut sink, rows),
        Err(_) => Some(usize::MAX),
    }
}

const WRITTEN: &[Writing] = &[
    (Call::WriteAll(b"channel 1\n", Err(WriteFault)), b"channel "),
    (Call::WriteAll(b"1\n", Ok(())), b"channel 1\n"),
    (Call::WriteAll(b"", Ok(())), b"channel 1\n"),
];

#[test]
fn a_sink_that_fails_at_its_second_put_got_the_first_bytes(rt: HostRuntime) {
    none_wrong(&rt, first_miswritten(rt.alloc(), 8, 2, WRITTEN));
}

const PUTS: &[Writing] = &[
    (Call::Put(b"ab", Put::Put(2)), b"ab"),
    (Call::Put(b"cdefg", Put::Put(4)), b"abcdef"),
    (Call::Put(b"g", Put::Failed), b"abcdef"),
    (Call::Put(b"g", Put::Put(1)), b"abcdefg"),
    (Call::WriteAll(b"hijklmnop", Ok(())), b"abcdefghijklmnop"),
];

#[test]
fn a_sink_takes_so_many_and_fails_as_chosen(rt: HostRuntime) {
    none_wrong(&rt, first_miswritten(rt.alloc(), 4, 3, PUTS));
}

fn reads_surely(alloc: Global, bytes: &[u8]) -> bool {
    match bytes.to_vec(alloc) {
        Ok(all) => reads(alloc, &mut SureSource::new(all), 200_000, bytes, None),
        Err(_) => false,
    }
}

fn writes_surely(alloc: Global, bytes: &[u8]) -> bool {
    let mut sink = SureSink::new(alloc);
    writes(&mut sink, bytes) && sink.bytes() == bytes
}

// Whether more bytes than a chunk has are read and written as they are.
fn is_passed_on(alloc: Global) -> bool {
    match vec![in alloc; 7u8; 200_000] {
        Ok(bytes) => reads_surely(alloc, &bytes) && writes_surely(alloc, &bytes),
        Err(_) => false,
    }
}

#[test]
fn more_than_a_chunk_is_read_and_written(rt: HostRuntime) {
    right(&rt, is_passed_on(rt.alloc()));
}

// Whether these bytes are written to a writer of std.
fn writes_to<W: Write + Drop>(writer: W, bytes: &[u8]) -> bool {
    writes(&mut StdSink::new(writer), bytes)
}

// Whether they are written to a vector as they are.
fn writes_to_std(alloc: Global, bytes: &[u8]) -> bool {
    let mut written = Vec::new(alloc);
    writes_to(&mut written, bytes) && written.as_slice() == bytes
}

// Whether these bytes are all that a reader of std gives, or this is why they are not.
fn reads_from<R: Read + Drop>(
    alloc: Global,
    reader: R,
    bytes: &[u8],
    error: Option<ReadError>,
) -> bool {
    reads(alloc, &mut StdSource::new(reader), 100, bytes, error)
}

#[test]
fn a_reader_and_a_writer_of_std_are_a_source_and_a_sink(rt: HostRuntime) {
    let line = b"channel 1\n".as_slice();
    right(&rt, reads_from(rt.alloc(), line, line, None));
    right(&rt, writes_to_std(rt.alloc(), line));
}

#[test]
fn a_reader_that_breaks_and_a_writer_that_is_full_are_faults(rt: HostRuntime) {
    right(
        &rt,
        reads_from(rt.alloc(), Breaking { reads: 0 }, b"", FAULT),
    );
    right(&rt, !writes_to(Full, b"abc"));
}

// Whether a reader of `abc` is read, and a writer written, though a signal interrupts each so often.
fn is_done_through(alloc: Global, times: u32) -> bool {
    reads_from(alloc, Interrupted::new(times), b"abc", None)
        && writes_to(Interrupted::new(times), b"abc")
}

// Whether the reader fails.
fn is_fault_through(alloc: Global, times: u32) -> bool {
    reads_from(alloc, Interrupted::new(times), b"", FAULT)
}

#[test]
fn an_interrupted_call_is_made_again_so_often_and_no_more(rt: HostRuntime) {
    right(&rt, is_done_through(rt.alloc(), 1));
    right(&rt, is_done_through(rt.alloc(), 200));
    right(&rt, is_fault_through(rt.alloc(), 65_537));
}

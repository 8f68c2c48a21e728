// The scripts that numbers make, and what the ends of channels are summed up to.

ghost use Rattle.std.specs.Prelude.{◌≤◌, IfOk, length, sum_by};
ghost use Rattle.nk_gen.specs.Summing.{counts_piece, size_of, read_by};

use crate::rows::{Row, all_right, right};
use crate::sample::{Text, piece};
use nk_base::{ByteList, Entry, Memory, Status};
use nk_gen::{make_script, summary};
use nk_plan::{ChannelEnd, ChildJournal, Ending, Ends, ParentJournal, ReaderEnd, Readers, Trace};
use std::alloc::Global;

/// A number, how many bytes and channels its script has, and what that begins and ends with.
type Made = (u32, usize, usize, &'static str, &'static str);

const CHANNEL: &[u8] = b"\nchannel\n";

// How many channels a script has.
fn channels(script: &[u8]) -> usize {
    let mut number: usize = 0;
    for part in script.windows(9) {
        if part == CHANNEL {
            number = number.wrapping_add(1);
        }
    }
    number
}

fn is_script(script: &[u8], row: &Made) -> bool {
    let (_, size, count, begin, end) = row;
    script.len() == *size
        && channels(script) == *count
        && script.starts_with(begin.as_bytes())
        && script.ends_with(end.as_bytes())
}

impl Row for Made {
    fn is_right(&self, alloc: Global) -> bool {
        match make_script(alloc, self.0) {
            Ok(script) => is_script(&script, self),
            Err(_) => false,
        }
    }
}

const MADE: &[Made] = &[
    (
        7,
        11_936,
        24,
        "script 1\nchannel\nhop redirect 302 allow\nhop redirect 302 allow\nhop response 200\nfill 4e 3234\n",
        "end ok\nlistener pipe 4096 16 2\nat start retarget w1\n",
    ),
    (
        0,
        8697,
        16,
        "script 1\nchannel\nhop response 200\nfill f9 595\nfill 2e 6143\n",
        "fill bc 5706\nend ok\nat start retarget w1\n",
    ),
    (
        10,
        17_190,
        32,
        "script 1\nchannel\nhop redirect 302 allow\nhop redirect 302 allow\nhop redirect 302 allow\nhop response 200\nfill bc",
        "fill c4 4286\nfill 03 865\nend ok\nlistener pipe 4096 16 2\n",
    ),
    (
        4_294_967_295,
        12_031,
        25,
        "script 1\nchannel\nhop redirect 302 allow\nhop redirect 302 allow\nhop redirect 302 allow\nhop response 200\nfill 7f 6070\nfill",
        "fill 4c 5518\nfill 27 5297\nend ok\nlistener pipe 4096 16 2\nat start retarget w2\n",
    ),
];

#[test]
fn seven_makes_24_channels_in_11936_bytes(rt: HostRuntime) {
    all_right(&rt, rt.alloc(), MADE);
}

// What a listener saw of a body of this one piece.
fn trace(alloc: Global, text: Text) -> Result<Trace, Memory>
    ensures pieces { IfOk result (λ trace. sum_by counts_piece trace ≤ 1) }
    ensures bytes { IfOk result (λ trace. sum_by size_of trace ≤ 131072) }
{
    let piece = piece(alloc, text)?;
    let mut trace = Trace::new(alloc);
    trace.push(Entry::Bytes { offset: 0, piece })?;
    Ok(trace)
}

// Readers of whom the one was given this.
fn readers(alloc: Global, given: &[u8]) -> Result<Readers, Memory>
    requires { length given.now ≤ 100 }
    ensures readers { IfOk result (λ readers. length readers ≤ 1) }
    ensures read { IfOk result (λ readers. read_by readers ≤ 100) }
{
    let mut bytes = ByteList::new(alloc);
    bytes.extend(given)?;
    let status = Some(Status::OK);
    let mut readers = Readers::new(alloc);
    readers.push(ReaderEnd { bytes, status })?;
    Ok(readers)
}

// The summary of one channel that ended so, and of which this is left.
fn summary_of(
    alloc: Global,
    ending: Ending,
    trace: Trace,
    readers: Readers,
) -> Result<Vec<u8>, Memory>
    requires pieces { sum_by counts_piece trace ≤ 1 }
    requires bytes { sum_by size_of trace ≤ 131072 }
    requires readers { length readers ≤ 1 }
    requires read { read_by readers ≤ 100 }
{
    let mut ends = Ends::new(alloc);
    ends.push(ChannelEnd {
        trace,
        readers,
        ending,
        parent: ParentJournal::new(alloc),
        child: ChildJournal::new(alloc),
        forwarded: 0,
    })?;
    summary(alloc, &ends)
}

fn is_text(bytes: Result<Vec<u8>, Memory>, text: &str) -> bool {
    match bytes {
        Ok(bytes) => bytes.as_slice() == text.as_bytes(),
        Err(Memory) => false,
    }
}

fn bare_summary(alloc: Global) -> Result<Vec<u8>, Memory> {
    summary_of(
        alloc,
        Ending::Stopped,
        Trace::new(alloc),
        Readers::new(alloc),
    )
}

fn full_summary(alloc: Global, ending: Ending) -> Result<Vec<u8>, Memory> {
    let trace = trace(alloc, (b"a", 131_072))?;
    let readers = readers(alloc, b"hello world")?;
    summary_of(alloc, ending, trace, readers)
}

#[test]
fn a_summary_has_six_lines(rt: HostRuntime) {
    let text = "channels 1\nstopped 1\npieces 0\nbytes 0\nreaders 0\nread 0\n";
    right(&rt, is_text(bare_summary(rt.alloc()), text));
    let text = "channels 1\nstopped 0\npieces 1\nbytes 131072\nreaders 1\nread 11\n";
    right(
        &rt,
        is_text(full_summary(rt.alloc(), Ending::Suspended), text),
    );
}

// The ends of channels are summed up.

ghost use Rattle.std.specs.Prelude.{◌≡◌, ◌++◌, ◌+◌, ◌<◌, ◌∷◌, ◌^◌, [], length, sum_by, decimal, IfOk, OnOk};
ghost use Rattle.nk_trace.specs.Words.{line};
ghost use Rattle.nk_gen.specs.Summing.{stopped_in, counts_stopped, counts_piece, size_of, read_by, pieces_in, bytes_in, readers_in, read_in, summary_text, AreSumsSmall};

use nk_base::{Entry, Memory};
use nk_plan::{ChannelEnd, Ending, Ends, Readers, Trace};
use nk_trace::Printer;
use std::alloc::Global;

/// The sums over channels. This project's own.
#[derive(Drop)]
struct Sums {
    stopped: u64,
    pieces: u64,
    bytes: u64,
    readers: u64,
    read: u64,
}

/// The number of data entries.
#[tactic(auto, using(std::proofs::lemmas::List::Sums::sum_by_more, std::proofs::lemmas::List::Sums::sum_by_more_le))]
fn pieces(trace: &Trace) -> u64
    requires { sum_by counts_piece trace.now < 2 ^ 64 }
    ensures { result ≡ sum_by counts_piece trace.now }
{
    let mut count = 0u64;
    for entry in trace.as_slice() {
        if let Entry::Bytes { .. } = entry {
            count += 1;
        }
    }
    count
}

/// The bytes of the data entries.
#[tactic(auto, using(std::proofs::lemmas::List::Sums::sum_by_more, std::proofs::lemmas::List::Sums::sum_by_more_le))]
fn bytes(trace: &Trace) -> u64
    requires { sum_by size_of trace.now < 2 ^ 64 }
    ensures { result ≡ sum_by size_of trace.now }
{
    let mut size = 0u64;
    for entry in trace.as_slice() {
        if let Entry::Bytes { piece, .. } = entry {
            size += u64::from(piece.size());
        }
    }
    size
}

/// The bytes that the readers have read.
#[tactic(auto, using(std::proofs::lemmas::List::Sums::sum_by_more, std::proofs::lemmas::List::Sums::sum_by_more_le))]
fn read(readers: &Readers) -> u64
    requires { read_by readers.now < 2 ^ 64 }
    ensures { result ≡ read_by readers.now }
{
    let mut size = 0u64;
    for reader in readers.as_slice() {
        size += reader.bytes.len() as u64;
    }
    size
}

/// 1 for a channel that has stopped.
fn stopped(ending: Ending) -> u64
    ensures { result ≡ counts_stopped ending }
{
    match ending {
        Ending::Stopped => 1,
        Ending::Suspended | Ending::Unopened | Ending::Going => 0,
    }
}

impl Sums {
    /// The sums over no channel.
    fn new() -> Sums
        ensures { result ≡ record { stopped = 0; pieces = 0; bytes = 0; readers = 0; read = 0 } }
    {
        Sums {
            stopped: 0,
            pieces: 0,
            bytes: 0,
            readers: 0,
            read: 0,
        }
    }

    /// The sums with one more channel.
    fn add(&mut self, end: &ChannelEnd)
        requires stopped { self.old.stopped + stopped_in end.now < 2 ^ 64 }
        requires pieces { self.old.pieces + pieces_in end.now < 2 ^ 64 }
        requires bytes { self.old.bytes + bytes_in end.now < 2 ^ 64 }
        requires readers { self.old.readers + readers_in end.now < 2 ^ 64 }
        requires read { self.old.read + read_in end.now < 2 ^ 64 }
        ensures stopped { self.new.stopped ≡ self.old.stopped + stopped_in end.now }
        ensures pieces { self.new.pieces ≡ self.old.pieces + pieces_in end.now }
        ensures bytes { self.new.bytes ≡ self.old.bytes + bytes_in end.now }
        ensures readers { self.new.readers ≡ self.old.readers + readers_in end.now }
        ensures read { self.new.read ≡ self.old.read + read_in end.now }
    {
        self.stopped += stopped(end.ending);
        self.pieces += pieces(&end.trace);
        self.bytes += bytes(&end.trace);
        self.readers += end.readers.len() as u64;
        self.read += read(&end.readers);
    }
}

/// The sums over these channels.
fn sum_up(ends: &Ends) -> Sums
    requires { AreSumsSmall ends.now }
    ensures stopped { result.stopped ≡ sum_by stopped_in ends.now }
    ensures pieces { result.pieces ≡ sum_by pieces_in ends.now }
    ensures bytes { result.bytes ≡ sum_by bytes_in ends.now }
    ensures readers { result.readers ≡ sum_by readers_in ends.now }
    ensures read { result.read ≡ sum_by read_in ends.now }
{
    let mut sums = Sums::new();
    for end in ends.as_slice() {
        sums.add(end);
    }
    sums
}

/// Prints a line of a label and a number.
fn sum_line(printer: &mut Printer, label: &str, sum: u64) -> Result<(), Memory>
    ensures { OnOk result (printer.new ≡ printer.old ++ line (label.now ∷ decimal sum ∷ [])) }
{
    printer.word(label)?;
    printer.word(" ")?;
    printer.decimal(sum)?;
    printer.line_feed()
}

/// The summary of these ends, each sum of which is below 2^64: the channels, those that have stopped, the data entries,
/// their bytes, the readers, and the bytes that they have read, a line each. This project's own.
pub fn summary(alloc: Global, ends: &Ends) -> Result<Vec<u8>, Memory>
    requires { AreSumsSmall ends.now }
    ensures { IfOk result (λ text. text.items ≡ summary_text ends.now) }
{
    let sums = sum_up(ends);
    let mut printer = Printer::new(alloc);
    sum_line(&mut printer, "channels", ends.len() as u64)?;
    sum_line(&mut printer, "stopped", sums.stopped)?;
    sum_line(&mut printer, "pieces", sums.pieces)?;
    sum_line(&mut printer, "bytes", sums.bytes)?;
    sum_line(&mut printer, "readers", sums.readers)?;
    sum_line(&mut printer, "read", sums.read)?;
    Ok(printer.into_bytes())
}

// The lines of a channel: what its listener saw, its readers, how it ended, and its journals.

ghost use Rattle.std.specs.Prelude.{◌≡◌, ◌++◌, ◌∷◌, [], length, decimal, OnOk};
ghost use Rattle.std.specs.List.{flat_map};
ghost use Rattle.nk_trace.specs.Words.{words};
ghost use Rattle.nk_trace.specs.Report.{channel_line, channel_text, end_line, entry_lines, bytes_text, log_lines, reader_line, reader_lines, stop_text, text, trailer_line};

use crate::printer::Printer;
use nk_base::{Entry, Field, Fields, Memory, Status};
use nk_plan::{ChannelEnd, Ending, Ends, ReaderEnd, Readers, Trace};

impl Printer {
    /// Prints the channels, numbered from 1.
    pub(crate) fn channels(&mut self, ends: &Ends, log: bool) -> Result<(), Memory>
        ensures { OnOk result (self.new ≡ self.old ++ text ends.now log) }
    {
        for (i, end) in ends.as_slice().iter().enumerate() {
            self.channel(i as u64 + 1, end, log)?;
        }
        Ok(())
    }

    /// Prints a channel.
    fn channel(&mut self, number: u64, end: &ChannelEnd, log: bool) -> Result<(), Memory>
        ensures { OnOk result (self.new ≡ self.old ++ channel_text log number end.now) }
    {
        self.channel_line(number)?;
        self.trace(&end.trace)?;
        self.readers(&end.readers)?;
        self.ending(end.ending)?;
        if log {
            self.journals(end)?;
        }
        Ok(())
    }

    /// Prints the line that a channel begins with.
    pub fn channel_line(&mut self, number: u64) -> Result<(), Memory>
        ensures { OnOk result (self.new ≡ self.old ++ channel_line number) }
    {
        self.word("channel ")?;
        self.decimal(number)?;
        self.line_feed()
    }

    /// Prints what a listener saw.
    pub fn trace(&mut self, trace: &Trace) -> Result<(), Memory>
        ensures { OnOk result (self.new ≡ self.old ++ flat_map entry_lines trace.now) }
    {
        for entry in trace.as_slice() {
            self.entry(entry)?;
        }
        Ok(())
    }

    /// Prints an entry of what a listener saw: a line, and for a stop with trailers a line each before it.
    pub fn entry(&mut self, entry: &Entry) -> Result<(), Memory>
        ensures { OnOk result (self.new ≡ self.old ++ entry_lines entry.now) }
    {
        match entry {
            Entry::Start { code, status } => {
                self.word("start ")?;
                self.code(*code)?;
                self.word(" ")?;
                self.status(*status)?;
                self.line_feed()
            }
            Entry::Bytes { offset, piece } => {
                self.word("data ")?;
                self.decimal(*offset)?;
                self.word(" ")?;
                self.hex(piece.as_slice())?;
                self.line_feed()
            }
            Entry::Stop { status, trailers } => {
                self.trailers(trailers)?;
                self.status_line("stop", *status)
            }
        }
    }

    /// Prints the trailers of a stop.
    fn trailers(&mut self, trailers: &Fields) -> Result<(), Memory>
        ensures { OnOk result (self.new ≡ self.old ++ flat_map trailer_line trailers.now) }
    {
        for i in 0..trailers.len() {
            self.trailer(trailers.get(i))?;
        }
        Ok(())
    }

    /// Prints a trailer.
    fn trailer(&mut self, trailer: &Field) -> Result<(), Memory>
        ensures { OnOk result (self.new ≡ self.old ++ trailer_line trailer.now) }
    {
        self.word("trailer ")?;
        self.bytes(trailer.name.as_slice())?;
        self.word(" ")?;
        self.bytes(trailer.value.as_slice())?;
        self.line_feed()
    }

    /// Prints readers, numbered from 1.
    fn readers(&mut self, readers: &Readers) -> Result<(), Memory>
        ensures { OnOk result (self.new ≡ self.old ++ reader_lines 1 readers.now) }
    {
        for (i, reader) in readers.as_slice().iter().enumerate() {
            self.reader(i as u64 + 1, reader)?;
        }
        Ok(())
    }

    /// Prints a reader.
    fn reader(&mut self, number: u64, reader: &ReaderEnd) -> Result<(), Memory>
        ensures { OnOk result (self.new ≡ self.old ++ reader_line number reader.now) }
    {
        self.word("reader ")?;
        self.decimal(number)?;
        self.word(" ")?;
        self.given(reader.bytes.as_slice())?;
        self.word(" ")?;
        self.stop(reader.status)?;
        self.line_feed()
    }

    /// Prints how many bytes a reader was given, and the bytes.
    fn given(&mut self, bytes: &[u8]) -> Result<(), Memory>
        ensures { OnOk result (self.new ≡ self.old ++ words (decimal (length bytes.now) ∷ bytes_text bytes.now ∷ [])) }
    {
        self.decimal(bytes.len() as u64)?;
        self.word(" ")?;
        if bytes.is_empty() {
            self.word("-")
        } else {
            self.hex(bytes)
        }
    }

    /// Prints how a reader's pump stopped.
    fn stop(&mut self, status: Option<Status>) -> Result<(), Memory>
        ensures { OnOk result (self.new ≡ self.old ++ stop_text status) }
    {
        match status {
            None => self.word("open"),
            Some(status) => self.status(status),
        }
    }

    /// Prints how a channel ended; nothing where it is still going.
    pub fn ending(&mut self, ending: Ending) -> Result<(), Memory>
        ensures { OnOk result (self.new ≡ self.old ++ end_line ending) }
    {
        match ending {
            Ending::Stopped => self.word("end stopped\n"),
            Ending::Suspended => self.word("end suspended\n"),
            Ending::Unopened => self.word("end unopened\n"),
            Ending::Going => Ok(()),
        }
    }
}

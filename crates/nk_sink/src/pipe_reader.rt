// One reader of a pipe, as a stream.

ghost use Rattle.std.specs.Prelude.{◌≡◌, ◌<◌, ◌^◌, length, take, drop, true};
ghost use Rattle.nk_base.specs.Status.{is_failure};
ghost use Rattle.nk_pipe.specs.Pipe.{Pipe as PipeModel, numbered, read_from, without_reader};
ghost use Rattle.nk_pipe.specs.Kept.{Stands, count};
ghost use Rattle.nk_pump.specs.Stream.{answer_of, closed_with};
ghost use Rattle.nk_sink.specs.Lent.{stream_in, IsThere, read_shown};

use nk_base::Status;
use nk_pipe::{Pipe, Read};
use nk_pump::{PumpStream, Read as PumpRead};

/// One reader of a lent pipe, as the stream that a pump reads. After Firefox's nsPipeInputStream.
#[derive(Drop)]
pub struct PipeReader<'a> {
    pipe: &'a mut Pipe,
    reader: u32,
    ghost there: { IsThere pipe.now.readers reader },
}

impl<'a> PipeReader<'a> {
    /// The stream of a reader whose number was given.
    pub fn new(pipe: &'a mut Pipe, reader: u32) -> PipeReader<'a>
        requires { IsThere pipe.old.readers reader }
        ensures same_reference { result.pipe.ghost_name ≡ pipe.entry.ghost_name }
        ensures pipe { result.pipe.now ≡ pipe.old }
        ensures reader { result.reader ≡ reader }
    {
        PipeReader { pipe, reader }
    }
}

impl<'a> PumpStream for PipeReader<'a> {
    ghost left = { λ s. (stream_in s.reader s.pipe.now).left };

    ghost end = { λ s. (stream_in s.reader s.pipe.now).end };

    ghost closed = { λ s. (stream_in s.reader s.pipe.now).closed };

    fn read_into(&mut self, buffer: &mut [u8]) -> PumpRead
        requires not_empty { 0 < length buffer.old }
        requires small { length buffer.old < 2 ^ 32 }
        ensures answer { result ≡ answer_of (length buffer.old) (stream_in self.old.reader self.old.pipe.now).left (stream_in self.old.reader self.old.pipe.now).end }
        ensures bytes { take (length (take (length buffer.old) (stream_in self.old.reader self.old.pipe.now).left)) buffer.new ≡ take (length buffer.old) (stream_in self.old.reader self.old.pipe.now).left }
        ensures left { (stream_in self.new.reader self.new.pipe.now).left ≡ drop (length buffer.old) (stream_in self.old.reader self.old.pipe.now).left }
        ensures end { (stream_in self.new.reader self.new.pipe.now).end ≡ (stream_in self.old.reader self.old.pipe.now).end }
        ensures closed { (stream_in self.new.reader self.new.pipe.now).closed ≡ (stream_in self.old.reader self.old.pipe.now).closed }
        ensures pipe { (p : PipeModel) → Stands self.old.pipe.now p → Stands self.new.pipe.now (read_from (numbered p.readers self.old.reader) self.old.reader (length buffer.old) p) }
        ensures count { count self.new.pipe.now ≡ count self.old.pipe.now }
        ensures reader { self.new.reader ≡ self.old.reader }
        ensures same_reference { self.new.pipe.ghost_name ≡ self.old.pipe.ghost_name }
    {
        let read = self.pipe.read_into(self.reader, buffer);
        // It tells that what the pipe keeps reaches back to where the reader now stands.
        self.pipe.position(self.reader);
        match read {
            Ok(read) => pump_read(read),
            Err(_) => PumpRead::WouldBlock,
        }
    }

    fn close(&mut self, status: Status)
        requires { is_failure status ≡ true }
        ensures stream { stream_in self.new.reader self.new.pipe.now ≡ closed_with status (stream_in self.old.reader self.old.pipe.now) }
        ensures pipe { (p : PipeModel) → Stands self.old.pipe.now p → Stands self.new.pipe.now (without_reader (numbered p.readers self.old.reader) self.old.reader status p) }
        ensures count { count self.new.pipe.now ≡ count self.old.pipe.now }
        ensures reader { self.new.reader ≡ self.old.reader }
        ensures same_reference { self.new.pipe.ghost_name ≡ self.old.pipe.ghost_name }
    {
        let _ = self.pipe.close_reader(self.reader, status);
    }
}

/// The answer of a pipe, as that of a stream.
fn pump_read(read: Read) -> PumpRead
    ensures { result ≡ read_shown read }
{
    match read {
        Read::Read(count) => PumpRead::Read(count),
        Read::End => PumpRead::End,
        Read::WouldBlock => PumpRead::WouldBlock,
        Read::Failed(status) => PumpRead::Failed(status),
    }
}

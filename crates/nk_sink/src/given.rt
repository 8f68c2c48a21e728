// What one read of a pipe gave, for a pump to show.

ghost use Rattle.std.specs.Prelude.{◌≡◌, ◌<◌, ◌^◌, length, OnOk, IfOk, None, true};
ghost use Rattle.nk_pipe.specs.Pipe.{Pipe as PipeModel, numbered, read_from};
ghost use Rattle.nk_pipe.specs.Kept.{Stands, count};
ghost use Rattle.nk_pump.specs.Shown.{turned, turn_answer};
ghost use Rattle.nk_pump.specs.Stream.{Stream};
ghost use Rattle.nk_sink.specs.Listener.{stream_of, pipe_behind, has_done};
ghost use Rattle.nk_base.specs.Status.{moved_if};
ghost use Rattle.nk_sink.specs.Given.{end_behind, bytes_in, answered, IsGiven, ReadsNone};

use nk_base::{Memory, Moved, Status};
use nk_pipe::{NoReader, Pipe, Read};
use nk_pump::{Pump, PumpStream, Read as PumpRead, Turn};

/// The bytes of one read, and what was answered.
#[derive(Drop)]
pub(crate) struct Given<'a> {
    pub(crate) left: &'a [u8],
    pub(crate) answer: Read,
    pub(crate) closed: bool,
}

impl<'a> PumpStream for Given<'a> {
    ghost left = { λ s. s.left.now };

    ghost end = { λ s. end_behind s.answer };

    ghost closed = { λ s. s.closed };

    fn read_into(&mut self, buffer: &mut [u8]) -> PumpRead {
        let count = buffer.len().min(self.left.len());
        let (given, left) = self.left.split_at(count);
        buffer[..count].copy_from_slice(given);
        self.left = left;
        if count > 0 {
            return PumpRead::Read(count as u32);
        }
        match self.answer {
            Read::Read(_) | Read::WouldBlock => PumpRead::WouldBlock,
            Read::End => PumpRead::End,
            Read::Failed(status) => PumpRead::Failed(status),
        }
    }

    fn close(&mut self, status: Status) {
        if !self.closed {
            self.left = &[];
            self.answer = Read::Failed(status);
            self.closed = true;
        }
    }
}

/// How many bytes an answer says to stand in the buffer.
fn bytes_in(answer: Read) -> usize
    ensures { result ≡ bytes_in answer }
{
    match answer {
        Read::Read(count) => count as usize,
        Read::End | Read::WouldBlock | Read::Failed(_) => 0,
    }
}

/// The answer of a read. A reader that is not there has nothing to read.
fn answered(read: Result<Read, NoReader>) -> Read
    ensures { result ≡ answered read }
{
    match read {
        Ok(answer) => answer,
        Err(_) => Read::WouldBlock,
    }
}

/// Reads once, into the buffer.
fn give<'a>(pipe: &mut Pipe, reader: u32, buffer: &'a mut [u8]) -> Given<'a>
    requires { length buffer.old < 2 ^ 32 }
    ensures given { (p : PipeModel) → Stands pipe.old p → IsGiven (length buffer.old) (stream_of reader p) result.left.now (end_behind result.answer) }
    ensures pipe { (p : PipeModel) → Stands pipe.old p → Stands pipe.new (read_from (numbered p.readers reader) reader (length buffer.old) p) }
    ensures count { count pipe.new ≡ count pipe.old }
{
    let answer = answered(pipe.read_into(reader, buffer));
    Given {
        left: &buffer[..bytes_in(answer)],
        answer,
        closed: false,
    }
}

/// Whether a turn has shown something.
fn moved(turn: Turn) -> Moved
    ensures { result ≡ moved_if (has_done turn) }
{
    match turn {
        Turn::Did => Moved::Did,
        Turn::Waiting | Turn::Dead => Moved::Idle,
    }
}

/// A turn at which the pump reads nothing: its start, or one behind its stop.
fn turn_alone(pump: &mut Pump) -> Result<Moved, Memory>
    requires { ReadsNone pump.old }
    ensures pump { (from : Stream) → OnOk result (pump.new ≡ turned pump.old from) }
    ensures answer { (from : Stream) → IfOk result (λ r. r ≡ moved_if (has_done (turn_answer pump.old from))) }
{
    let mut nothing = Given {
        left: &[],
        answer: Read::WouldBlock,
        closed: false,
    };
    Ok(moved(pump.turn(&mut nothing)?))
}

/// A turn at which the pump reads.
fn turn_over(
    pump: &mut Pump,
    pipe: &mut Pipe,
    reader: u32,
    buffer: &mut [u8],
) -> Result<Moved, Memory>
    requires some { 0 < length buffer.old }
    requires few { length buffer.old < 2 ^ 32 }
    requires size { pump.old.size ≡ length buffer.old }
    requires free { pump.old.cancelled ≡ None }
    requires reads { (pump.old.stop ≡ None) × (pump.old.started ≡ true) }
    ensures pump { (p : PipeModel) → Stands pipe.old p → OnOk result (pump.new ≡ turned pump.old (stream_of reader p)) }
    ensures pipe { (p : PipeModel) → Stands pipe.old p → Stands pipe.new (pipe_behind pump.old reader p) }
    ensures answer { (p : PipeModel) → Stands pipe.old p → IfOk result (λ r. r ≡ moved_if (has_done (turn_answer pump.old (stream_of reader p)))) }
    ensures count { count pipe.new ≡ count pipe.old }
{
    let mut given = give(pipe, reader, buffer);
    Ok(moved(pump.turn(&mut given)?))
}

/// One turn of the pump of this reader.
pub(crate) fn turn(
    pump: &mut Pump,
    pipe: &mut Pipe,
    reader: u32,
    buffer: &mut [u8],
) -> Result<Moved, Memory>
    requires some { 0 < length buffer.old }
    requires few { length buffer.old < 2 ^ 32 }
    requires size { pump.old.size ≡ length buffer.old }
    requires free { pump.old.cancelled ≡ None }
    ensures pump { (p : PipeModel) → Stands pipe.old p → OnOk result (pump.new ≡ turned pump.old (stream_of reader p)) }
    ensures pipe { (p : PipeModel) → Stands pipe.old p → Stands pipe.new (pipe_behind pump.old reader p) }
    ensures answer { (p : PipeModel) → Stands pipe.old p → IfOk result (λ r. r ≡ moved_if (has_done (turn_answer pump.old (stream_of reader p)))) }
    ensures count { count pipe.new ≡ count pipe.old }
{
    if pump.stop().is_some() || !pump.started() {
        turn_alone(pump)
    } else {
        turn_over(pump, pipe, reader, buffer)
    }
}

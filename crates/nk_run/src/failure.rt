// Why a run prints no report: the status that it answers, and the line that it prints of it.

ghost use Rattle.std.specs.Prelude.{◌≡◌, ◌⊎◌, IfOk, IfErr};
ghost use Rattle.nk_io.specs.Faults.{Rose};
ghost use Rattle.nk_io.specs.Got.{Gains, GainsPart};
ghost use Rattle.nk_run.specs.Failures.{status_of, line_of, failure_of, IsFixed, TellsAny};
ghost use Rattle.nk_run.specs.Runs.{Told, told_of};

use crate::lines::{bad_frame, bad_line, bad_log};
use nk_base::Memory;
use nk_io::{Sink, WriteFault, write_all};
use nk_script::Cause;
use nk_wire::{DecodeError, FrameCause, FrameError};
use nk_words::usage_line;
use std::alloc::Global;

/// Why a run ended early.
#[derive(Clone, Copy, Debug, Drop, PartialEq, Eq)]
pub(crate) enum Failure {
    /// The text is no script: this line, counted from 1, is the first that cannot stand.
    Line { number: u32, cause: Cause },
    /// The bytes are no sequence of frames: this frame is the first that is wrong.
    Frame(FrameError),
    /// The log is none of the script's: this line, counted from 1, is the first that is not accepted.
    Log(u32),
    /// The input has more than 16,777,216 bytes.
    TooLarge,
    /// The words have no meaning.
    Usage,
    /// The input failed.
    Read,
    /// The output failed.
    Write,
    /// Want of memory.
    Memory,
}

impl Failure {
    /// What ends a run at this error of its frames.
    pub(crate) fn of_frame(error: FrameError) -> Failure
        ensures { result ≡ failure_of error }
    {
        match error.cause {
            FrameCause::Decode(DecodeError::Memory) => Failure::Memory,
            _ => Failure::Frame(error),
        }
    }

    /// The program's status.
    fn status(self) -> u8
        ensures { result ≡ status_of self }
    {
        match self {
            Failure::Line { .. } => 1,
            Failure::Frame(_) => 7,
            Failure::Log(_) => 6,
            Failure::TooLarge => 1,
            Failure::Usage => 2,
            Failure::Read => 3,
            Failure::Write => 4,
            Failure::Memory => 5,
        }
    }

    /// The line that is printed of any other failure, with its line feed.
    fn line(self) -> &'static [u8]
        requires { IsFixed self }
        ensures { result.now ≡ line_of self }
    {
        match self {
            Failure::Line { .. } => unreachable!(),
            Failure::Frame(_) => unreachable!(),
            Failure::Log(_) => unreachable!(),
            Failure::TooLarge => b"error: input too large\n",
            Failure::Usage => usage_line(),
            Failure::Read => b"error: read\n",
            Failure::Write => b"error: write\n",
            Failure::Memory => b"error: memory\n",
        }
    }

    /// Prints the line of a failure that has always the same, and answers the status. A fault of the sink changes no status.
    pub(crate) fn tell<E: Sink>(self, err: &mut E) -> u8
        requires { IsFixed self }
        ensures status { result ≡ status_of self }
        ensures told { Told (E.got err.old) (E.got err.new) (E.faults err.old) (E.faults err.new) (line_of self) }
    {
        let _ = write_all(err, self.line());
        self.status()
    }

    /// Prints the line and answers the status. Where memory is wanting for the line, it prints and answers that.
    pub(crate) fn tell_any<E: Sink>(self, alloc: Global, err: &mut E) -> u8
        ensures { TellsAny self result (Told (E.got err.old) (E.got err.new) (E.faults err.old) (E.faults err.new)) }
    {
        match self {
            Failure::Line { number, cause } => tell_line(1, bad_line(alloc, number, cause), err),
            Failure::Frame(error) => tell_line(7, bad_frame(alloc, error), err),
            Failure::Log(number) => tell_line(6, bad_log(alloc, number), err),
            Failure::TooLarge => Failure::TooLarge.tell(err),
            Failure::Usage => Failure::Usage.tell(err),
            Failure::Read => Failure::Read.tell(err),
            Failure::Write => Failure::Write.tell(err),
            Failure::Memory => Failure::Memory.tell(err),
        }
    }
}

/// Prints a text. A fault of the sink is no fault of the caller's.
fn tell_text<E: Sink>(err: &mut E, text: &[u8])
    ensures { Told (E.got err.old) (E.got err.new) (E.faults err.old) (E.faults err.new) text.now }
{
    let _ = write_all(err, text);
}

/// Prints a line and answers its status, or want of memory where there is no line.
fn tell_line<E: Sink>(status: u8, line: Result<Vec<u8>, Memory>, err: &mut E) -> u8
    ensures line { IfOk line (λ text. (result ≡ status)
        × Told (E.got err.old) (E.got err.new) (E.faults err.old) (E.faults err.new) text.items) }
    ensures memory { IfErr line (λ _. (result ≡ 5)
        × Told (E.got err.old) (E.got err.new) (E.faults err.old) (E.faults err.new) (line_of Failure.Memory)) }
{
    match line {
        Ok(text) => {
            tell_text(err, text.as_slice());
            status
        }
        Err(Memory) => Failure::Memory.tell(err),
    }
}

/// Writes what a run prints, and answers the status.
pub(crate) fn write_out<O: Sink, E: Sink>(text: &[u8], out: &mut O, err: &mut E) -> u8
    ensures statuses { (result ≡ 0) ⊎ (result ≡ 4) }
    ensures whole { result ≡ 0 → Gains (O.got out.old) (O.got out.new) text.now }
    ensures part { result ≡ 4 → GainsPart (O.got out.old) (O.got out.new) text.now }
    ensures fault { result ≡ 4 → Rose (O.faults out.old) (O.faults out.new) }
    ensures told { Told (E.got err.old) (E.got err.new) (E.faults err.old) (E.faults err.new) (told_of result) }
{
    match write_all(out, text) {
        Ok(()) => 0,
        Err(WriteFault) => Failure::Write.tell(err),
    }
}

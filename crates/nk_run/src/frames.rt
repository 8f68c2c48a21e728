// The command `frames`: one line for each frame of its input.

ghost use Rattle.std.specs.Prelude.{ℕ, List, ◌≡◌, ◌≢◌, ◌≤◌, ◌<◌, ◌+◌, ◌^◌, ◌++◌, None, [], true, false, length, IfOk, IfErr, OnOk};
ghost use Rattle.nk_wire.specs.Streams.{first, Part};
ghost use Rattle.nk_run.specs.Failures.{failure_of};
ghost use Rattle.nk_run.specs.Frames.{any_text, frame_line, AreLines};
ghost use Rattle.nk_run.specs.Listing.{AreBytes, Listed, Stops, RefusesFrames, FramesFail, FramesRun};
ghost use Rattle.nk_run.specs.Runs.{IsRead, IsRun, most_input, outcome};

use crate::failure::{Failure, write_out};
use crate::input::input_text;
use nk_base::Memory;
use nk_io::{Sink, Source};
use nk_trace::Printer;
use nk_wire::{AnyMsg, FrameError, Frames, frames_are_read, one_spelling, one_stands_first};
use std::alloc::Global;

/// The most bytes that are fed at once, so that only these and a part of a frame are held twice.
const MOST_FED: usize = 65_536;

/// Prints a message of any lane.
fn print_message(printer: &mut Printer, message: &AnyMsg) -> Result<(), Memory>
    ensures { OnOk result (printer.new ≡ printer.old ++ any_text message.now) }
{
    match message {
        AnyMsg::Main(message) => printer.main_message(message),
        AnyMsg::Back(message) => printer.back_message(message),
        AnyMsg::Up(message) => printer.up_message(message),
    }
}

/// Prints the line of a frame that stands behind so many bytes.
fn print_line(printer: &mut Printer, offset: u64, message: &AnyMsg) -> Result<(), Memory>
    ensures { OnOk result (printer.new ≡ printer.old ++ frame_line offset message.now) }
{
    printer.decimal(offset)?;
    printer.word(" ")?;
    print_message(printer, message)?;
    printer.line_feed()
}

/// A stream of frames, and the lines of those that it has given.
#[derive(Drop)]
struct Listing {
    frames: Frames,
    printer: Printer,
}

impl Listing {
    fn new(alloc: Global) -> Listing
        ensures listed { Listed [] result.frames result.printer }
        ensures part { first result.frames.unused ≡ Part }
        ensures total { result.frames.offset + length result.frames.unused ≡ 0 }
    {
        Listing {
            frames: Frames::new(alloc),
            printer: Printer::new(alloc),
        }
    }

    /// Adds the next bytes of the stream.
    fn feed(&mut self, piece: &[u8]) -> Result<(), Failure>
        ensures listed { (fed : List ℕ) → Listed fed self.old.frames self.old.printer
            → OnOk result (Listed (fed ++ piece.now) self.new.frames self.new.printer) }
        ensures total { (fed : List ℕ) → Listed fed self.old.frames self.old.printer → OnOk result
            (self.new.frames.offset + length self.new.frames.unused
            ≡ self.old.frames.offset + length self.old.frames.unused + length piece.now) }
        ensures memory { IfErr result (λ e. e ≡ Failure.Memory) }
    {
        match self.frames.feed(piece) {
            Ok(()) => Ok(()),
            Err(Memory) => Err(Failure::Memory),
        }
    }

    /// Prints the line of the next whole frame, where there is one.
    fn line(&mut self) -> Result<bool, Failure>
        requires { self.old.frames.offset < 2 ^ 62 }
        ensures listed { (fed : List ℕ) → AreBytes fed → Listed fed self.old.frames self.old.printer
            → IfOk result (λ _. Listed fed self.new.frames self.new.printer) }
        ensures part { IfOk result (λ more. more ≡ false → first self.new.frames.unused ≡ Part) }
        ensures shrinks { IfOk result (λ more. more ≡ true → length self.new.frames.unused < length self.old.frames.unused) }
        ensures total { self.new.frames.offset + length self.new.frames.unused
            ≡ self.old.frames.offset + length self.old.frames.unused }
        ensures stops { (fed more : List ℕ) → AreBytes (fed ++ more) → Listed fed self.old.frames self.old.printer
            → IfErr result (λ e. Stops e (fed ++ more)) }
    {
        one_spelling();
        frames_are_read();
        one_stands_first();
        let offset = self.frames.offset();
        match self.frames.next() {
            Ok(None) => Ok(false),
            Ok(Some(message)) => match print_line(&mut self.printer, offset, &message) {
                Ok(()) => Ok(true),
                Err(Memory) => Err(Failure::Memory),
            },
            Err(error) => Err(Failure::of_frame(error)),
        }
    }

    /// Prints the lines of all whole frames that stand first.
    fn lines(&mut self) -> Result<(), Failure>
        requires { self.old.frames.offset + length self.old.frames.unused < 2 ^ 62 }
        ensures listed { (fed : List ℕ) → AreBytes fed → Listed fed self.old.frames self.old.printer
            → OnOk result (Listed fed self.new.frames self.new.printer) }
        ensures part { OnOk result (first self.new.frames.unused ≡ Part) }
        ensures total { self.new.frames.offset + length self.new.frames.unused
            ≡ self.old.frames.offset + length self.old.frames.unused }
        ensures stops { (fed more : List ℕ) → AreBytes (fed ++ more) → Listed fed self.old.frames self.old.printer
            → IfErr result (λ e. Stops e (fed ++ more)) }
    {
        while self.line()? {}
        Ok(())
    }

    /// The lines, where the stream ends here.
    fn end(self) -> Result<Vec<u8>, Failure>
        requires { first self.frames.unused ≡ Part }
        ensures lines { (fed : List ℕ) → Listed fed self.frames self.printer → IfOk result (λ text. AreLines fed text.items) }
        ensures stops { (fed : List ℕ) → AreBytes fed → Listed fed self.frames self.printer → IfErr result (λ e. Stops e fed) }
    {
        one_stands_first();
        match self.frames.end() {
            Ok(()) => Ok(self.printer.into_bytes()),
            Err(error) => Err(Failure::of_frame(error)),
        }
    }
}

/// The lines of the frames that the bytes are.
fn list(alloc: Global, bytes: &[u8]) -> Result<Vec<u8>, Failure>
    requires { length bytes.now ≤ most_input }
    ensures lines { IfOk result (λ text. AreLines bytes.now text.items) }
    ensures refuses { IfErr result (λ e. RefusesFrames e bytes.now) }
{
    frames_are_read();
    one_stands_first();
    let mut listing = Listing::new(alloc);
    let mut rest = bytes;
    while !rest.is_empty() {
        let (piece, behind) = rest.split_at(rest.len().min(MOST_FED));
        listing.feed(piece)?;
        listing.lines()?;
        rest = behind;
    }
    listing.end()
}

/// The lines of the frames that the input is.
fn frames<I: Source>(alloc: Global, input: &mut I) -> Result<Vec<u8>, Failure>
    ensures lines { IfOk result (λ text. IsRead (I.left input.old) (I.left input.new) (λ all. AreLines all text.items)) }
    ensures fails { IfErr result (λ e. FramesFail e (I.left input.old) (I.left input.new) (I.faults input.old) (I.faults input.new)) }
{
    let bytes = input_text(alloc, input)?;
    list(alloc, bytes.as_slice())
}

/// Prints the lines of the frames that the input is, and answers the program's status.
pub(crate) fn run_frames<I: Source, O: Sink, E: Sink>(
    alloc: Global,
    input: &mut I,
    out: &mut O,
    err: &mut E,
) -> u8
    ensures answer { FramesRun (outcome result
        (I.left input.old) (I.left input.new) (I.faults input.old) (I.faults input.new)
        (O.got out.old) (O.got out.new) (O.faults out.old) (O.faults out.new)
        (E.got err.old) (E.got err.new) (E.faults err.old) (E.faults err.new)) }
    ensures run { IsRun (outcome result
        (I.left input.old) (I.left input.new) (I.faults input.old) (I.faults input.new)
        (O.got out.old) (O.got out.new) (O.faults out.old) (O.faults out.new)
        (E.got err.old) (E.got err.new) (E.faults err.old) (E.faults err.new)) }
    ensures out { result ≢ 0 → result ≢ 4 → out.new ≡ out.old }
{
    match frames(alloc, input) {
        Ok(text) => write_out(text.as_slice(), out, err),
        Err(failure) => failure.tell_any(alloc, err),
    }
}

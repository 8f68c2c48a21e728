// The lines that are printed of an input that is wrong: each says where.

ghost use Rattle.std.specs.Prelude.{◌≡◌, ◌++◌, ◌∷◌, decimal, OnOk, IfOk};
ghost use Rattle.nk_run.specs.Failures.{bad_line as line_text, bad_log as log_text, cause_text as text_of};
ghost use Rattle.nk_run.specs.Frames.{bad_frame as frame_text, decode_text, frame_cause_text};

use nk_base::Memory;
use nk_script::Cause;
use nk_trace::Printer;
use nk_wire::{DecodeError, FrameCause, FrameError};
use std::alloc::Global;

/// Prints a label and two numbers.
fn print_pair(printer: &mut Printer, label: &str, have: u32, need: u32) -> Result<(), Memory>
    ensures { OnOk result (printer.new ≡ printer.old ++ label.now ++ decimal have ++ 32 ∷ decimal need) }
{
    printer.word(label)?;
    printer.decimal(u64::from(have))?;
    printer.word(" ")?;
    printer.decimal(u64::from(need))
}

/// Prints a label and a number.
fn print_number(printer: &mut Printer, label: &str, number: u32) -> Result<(), Memory>
    ensures { OnOk result (printer.new ≡ printer.old ++ label.now ++ decimal number) }
{
    printer.word(label)?;
    printer.decimal(u64::from(number))
}

/// What is printed of a cause.
fn cause_text(cause: Cause) -> &'static str
    ensures { result.now ≡ text_of cause }
{
    match cause {
        Cause::Unexpected => "unexpected",
        Cause::Malformed => "malformed",
        Cause::Limit => "limit",
        Cause::EndsEarly => "ends early",
    }
}

/// The line that is printed of a script's first bad line.
pub(crate) fn bad_line(alloc: Global, number: u32, cause: Cause) -> Result<Vec<u8>, Memory>
    ensures { IfOk result (λ text. text.items ≡ line_text number cause) }
{
    let mut printer = Printer::new(alloc);
    print_number(&mut printer, "error: line ", number)?;
    printer.word(": ")?;
    printer.word(cause_text(cause))?;
    printer.line_feed()?;
    Ok(printer.into_bytes())
}

/// The line that is printed of a log's first line that is not accepted.
pub(crate) fn bad_log(alloc: Global, number: u32) -> Result<Vec<u8>, Memory>
    ensures { IfOk result (λ text. text.items ≡ log_text number) }
{
    let mut printer = Printer::new(alloc);
    print_number(&mut printer, "error: log line ", number)?;
    printer.line_feed()?;
    Ok(printer.into_bytes())
}

/// Prints why a rest is no message.
fn print_decode(printer: &mut Printer, error: DecodeError) -> Result<(), Memory>
    ensures { OnOk result (printer.new ≡ printer.old ++ decode_text error) }
{
    match error {
        DecodeError::Short { have, need } => print_pair(printer, "short ", have, need),
        DecodeError::Kind(kind) => {
            printer.word("kind ")?;
            printer.kind(kind)
        }
        DecodeError::BadField(place) => print_number(printer, "field ", place),
        DecodeError::Long { extra } => print_number(printer, "long ", extra),
        DecodeError::Memory => printer.word("memory"),
    }
}

/// Prints what is wrong with a frame.
fn print_cause(printer: &mut Printer, cause: FrameCause) -> Result<(), Memory>
    ensures { OnOk result (printer.new ≡ printer.old ++ frame_cause_text cause) }
{
    match cause {
        FrameCause::Length(length) => print_number(printer, "length ", length),
        FrameCause::Decode(error) => print_decode(printer, error),
        FrameCause::Cut { have, need } => print_pair(printer, "cut ", have, need),
    }
}

/// The line that is printed of the first frame that is wrong.
pub(crate) fn bad_frame(alloc: Global, error: FrameError) -> Result<Vec<u8>, Memory>
    ensures { IfOk result (λ text. text.items ≡ frame_text error) }
{
    let mut printer = Printer::new(alloc);
    printer.word("error: frame ")?;
    printer.decimal(error.offset)?;
    printer.word(": ")?;
    print_cause(&mut printer, error.cause)?;
    printer.line_feed()?;
    Ok(printer.into_bytes())
}

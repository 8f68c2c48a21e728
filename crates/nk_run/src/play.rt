// The commands `play` and `play log`: the report of the channels of a script.

ghost use Rattle.std.specs.Prelude.{ℕ, List, ◌≡◌, ◌≢◌, ◌≤◌, IfOk, IfErr, IsOkUnless, length, vec_len};
ghost use Rattle.nk_script.specs.Answers.{IsPlayable};
ghost use Rattle.nk_script.specs.Grammar.{IsTextOf};
ghost use Rattle.nk_run.specs.Ends.{IsReport};
ghost use Rattle.nk_run.specs.Playing.{Refuses, Fails, ScriptRun};
ghost use Rattle.nk_run.specs.Runs.{IsRead, IsRun, most_input, outcome};

use crate::ends::ends_of;
use crate::failure::{Failure, write_out};
use crate::input::input_text;
use bytes::Bytes;
use nk_base::Memory;
use nk_io::{Sink, Source};
use nk_script::{Script, ScriptError, read_shared};
use nk_trace::report;
use std::alloc::Global;

/// The script that these bytes stand for. Its pieces are parts of them.
fn script_in(alloc: Global, text: &Bytes) -> Result<Script, Failure>
    requires { length text.now ≤ most_input }
    ensures script { IfOk result (λ script. IsTextOf script text.now) }
    ensures playable { IfOk result IsPlayable }
    ensures refused { IfErr result (λ e. Refuses e text.now) }
{
    match read_shared(alloc, text) {
        Ok(script) => Ok(script),
        Err(ScriptError::Line { number, cause }) => Err(Failure::Line { number, cause }),
        Err(ScriptError::Memory) => Err(Failure::Memory),
    }
}

/// The script that the text stands for. The text is not copied.
fn script_of(alloc: Global, text: Vec<u8>) -> Result<Script, Failure>
    requires { vec_len text ≤ most_input }
    ensures script { IfOk result (λ script. IsTextOf script text.items) }
    ensures playable { IfOk result IsPlayable }
    ensures refused { IfErr result (λ e. Refuses e text.items) }
{
    let Ok(input) = Bytes::from_vec(text) else {
        return Err(Failure::Memory);
    };
    script_in(alloc, &input)
}

/// The script that the input is.
fn read<I: Source>(alloc: Global, input: &mut I) -> Result<Script, Failure>
    ensures script { IfOk result (λ script. IsRead (I.left input.old) (I.left input.new) (IsTextOf script)) }
    ensures playable { IfOk result IsPlayable }
    ensures fails { IfErr result (λ e. Fails e (I.left input.old) (I.left input.new) (I.faults input.old) (I.faults input.new)) }
{
    let text = input_text(alloc, input)?;
    script_of(alloc, text)
}

/// The report of the channels of a script, with their journals where there is a log.
fn report_of(alloc: Global, log: bool, script: Script) -> Result<Vec<u8>, Memory>
    requires { IsPlayable script }
    ensures { (text : List ℕ) → IsTextOf script text → IfOk result (λ bytes. IsReport log text bytes.items) }
{
    let ends = ends_of(alloc, script)?;
    report(alloc, &ends, log)
}

/// The report of the script that the input is.
fn play<I: Source>(alloc: Global, log: bool, input: &mut I) -> Result<Vec<u8>, Failure>
    ensures played { IfOk result (λ bytes. IsRead (I.left input.old) (I.left input.new) (λ all. IsReport log all bytes.items)) }
    ensures fails { IfErr result (λ e. Fails e (I.left input.old) (I.left input.new) (I.faults input.old) (I.faults input.new)) }
{
    let script = read(alloc, input)?;
    match report_of(alloc, log, script) {
        Ok(text) => Ok(text),
        Err(Memory) => Err(Failure::Memory),
    }
}

/// Plays the script that the input is, and answers the program's status.
pub(crate) fn run_play<I: Source, O: Sink, E: Sink>(
    alloc: Global,
    log: bool,
    input: &mut I,
    out: &mut O,
    err: &mut E,
) -> u8
    ensures answer { ScriptRun (IsReport log) (outcome result
        (I.left input.old) (I.left input.new) (I.faults input.old) (I.faults input.new)
        (O.got out.old) (O.got out.new) (O.faults out.old) (O.faults out.new)
        (E.got err.old) (E.got err.new) (E.faults err.old) (E.faults err.new)) }
    ensures run { IsRun (outcome result
        (I.left input.old) (I.left input.new) (I.faults input.old) (I.faults input.new)
        (O.got out.old) (O.got out.new) (O.faults out.old) (O.faults out.new)
        (E.got err.old) (E.got err.new) (E.faults err.old) (E.faults err.new)) }
    ensures out { result ≢ 0 → result ≢ 4 → out.new ≡ out.old }
{
    match play(alloc, log, input) {
        Ok(text) => write_out(text.as_slice(), out, err),
        Err(failure) => failure.tell_any(alloc, err),
    }
}

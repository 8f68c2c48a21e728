// The command `gen`: the summary of the channels of a made script.

ghost use Rattle.std.specs.Prelude.{ℕ, List, Option, ◌≡◌, ◌≢◌, IfOk};
ghost use Rattle.nk_gen.specs.Made.{made_script};
ghost use Rattle.nk_script.specs.Answers.{IsPlayable};
ghost use Rattle.nk_script.specs.Grammar.{IsTextOf};
ghost use Rattle.nk_run.specs.Making.{IsSummary, GenRun};
ghost use Rattle.nk_run.specs.Runs.{IsRun, outcome};

use crate::ends::ends_of;
use crate::failure::{Failure, write_out};
use nk_base::Memory;
use nk_gen::{make_script, summary};
use nk_gen_law::{made_script_law, sums_law};
use nk_io::Sink;
use nk_script::{Script, ScriptError, read_script};
use std::alloc::Global;

/// The script that a number makes. Its text is dropped.
fn made(alloc: Global, n: u32) -> Result<Script, Memory>
    ensures script { IfOk result (λ script. IsTextOf script (made_script n)) }
    ensures playable { IfOk result IsPlayable }
{
    made_script_law();
    let text = make_script(alloc, n)?;
    match read_script(alloc, text.as_slice()) {
        Ok(script) => Ok(script),
        Err(ScriptError::Line { .. }) => unreachable!(),
        Err(ScriptError::Memory) => Err(Memory),
    }
}

/// The summary of the channels of the script that a number makes.
fn summed(alloc: Global, n: u32) -> Result<Vec<u8>, Memory>
    ensures { IfOk result (λ text. IsSummary n text.items) }
{
    sums_law();
    let script = made(alloc, n)?;
    let ends = ends_of(alloc, script)?;
    summary(alloc, &ends)
}

/// Plays the script that a number makes, prints the summary, and answers the program's status. The input, whatever it is, stays.
pub(crate) fn run_gen<O: Sink, E: Sink>(alloc: Global, n: u32, out: &mut O, err: &mut E) -> u8
    ensures answer { (left : Option (List ℕ)) (faults : ℕ) → GenRun n (outcome result left left faults faults
        (O.got out.old) (O.got out.new) (O.faults out.old) (O.faults out.new)
        (E.got err.old) (E.got err.new) (E.faults err.old) (E.faults err.new)) }
    ensures run { (left : Option (List ℕ)) (faults : ℕ) → IsRun (outcome result left left faults faults
        (O.got out.old) (O.got out.new) (O.faults out.old) (O.faults out.new)
        (E.got err.old) (E.got err.new) (E.faults err.old) (E.faults err.new)) }
    ensures out { result ≢ 0 → result ≢ 4 → out.new ≡ out.old }
{
    match summed(alloc, n) {
        Ok(text) => write_out(text.as_slice(), out, err),
        Err(Memory) => Failure::Memory.tell(err),
    }
}

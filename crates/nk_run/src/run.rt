// The program, from its words and the bytes of its input to the bytes that it prints. A command is an arm of `run_alone`, and a
// line of specs/Commands.antt.

ghost use Rattle.std.specs.Prelude.{ℕ, ◌≡◌, ◌≢◌, ◌↔◌, map};
ghost use Rattle.nk_words.specs.declared.command.Command.{Command as Called};
ghost use Rattle.nk_words.specs.declared.command.Command.TheVariants as command;
ghost use Rattle.nk_words.specs.Words.{IsCallOf};
ghost use Rattle.nk_run.specs.Commands.{answer_of, HasMeaning};
ghost use Rattle.nk_run.specs.Runs.{IsRun, Told, told_of, outcome};

use crate::failure::Failure;
use crate::frames::run_frames;
use crate::made::run_gen;
use crate::play::run_play;
use nk_io::{Sink, Source};
use nk_words::{Command, Usage, read_words};
use std::alloc::Global;

/// Runs the commands that need no thread, and answers the program's status (this project's own).
///
/// With the word `play` the input is a script, and the output is the report of its channels; with `play log` their journals
/// stand in it too. With the word `frames` the input is a sequence of frames, and the output has a line for each. With
/// `gen N` the script is the one that N makes, the output is the summary of its channels, and nothing is read.
///
/// 0: the output was written whole. 1: the input of `play` is no script, or the input has more than 16,777,216 bytes.
/// 2: the words have no meaning. 3: the input failed. 4: the output failed, and a prefix of it was written. 5: want of
/// memory. 7: the input of `frames` is no sequence of frames. With a status other than 0, `err` gets one line that says so.
pub fn run_alone<I: Source, O: Sink, E: Sink>(
    alloc: Global,
    words: &[&str],
    input: &mut I,
    out: &mut O,
    err: &mut E,
) -> u8
    // What each command answers, and what every run does.
    ensures answer { (command : Called) → IsCallOf command (map (λ word. word.now) words.now) → answer_of command (outcome result
        (I.left input.old) (I.left input.new) (I.faults input.old) (I.faults input.new)
        (O.got out.old) (O.got out.new) (O.faults out.old) (O.faults out.new)
        (E.got err.old) (E.got err.new) (E.faults err.old) (E.faults err.new)) }
    ensures run { IsRun (outcome result
        (I.left input.old) (I.left input.new) (I.faults input.old) (I.faults input.new)
        (O.got out.old) (O.got out.new) (O.faults out.old) (O.faults out.new)
        (E.got err.old) (E.got err.new) (E.faults err.old) (E.faults err.new)) }

    // 2: the words have no meaning.
    ensures usage { (result ≡ 2) ↔ (¬ HasMeaning (map (λ word. word.now) words.now)) }

    // What stays as it was.
    ensures out { result ≢ 0 → result ≢ 4 → out.new ≡ out.old }
    ensures input { result ≡ 2 → input.new ≡ input.old }
    ensures gen_input { (n : ℕ) → IsCallOf (command.Gen n) (map (λ word. word.now) words.now) → input.new ≡ input.old }
{
    match read_words(words) {
        Ok(Command::Play { log }) => run_play(alloc, log, input, out, err),
        Ok(Command::Frames) => run_frames(alloc, input, out, err),
        Ok(Command::Gen(n)) => run_gen(alloc, n, out, err),
        Ok(Command::Divert(_)) | Ok(Command::Threads { .. }) | Ok(Command::Check) | Err(Usage) => {
            refuse_words(err)
        }
    }
}

/// Answers words without a meaning, and such as are no text: the usage line, and status 2 (this project's own).
pub fn refuse_words<E: Sink>(err: &mut E) -> u8
    ensures status { result ≡ 2 }
    ensures told { Told (E.got err.old) (E.got err.new) (E.faults err.old) (E.faults err.new) (told_of 2) }
{
    Failure::Usage.tell(err)
}

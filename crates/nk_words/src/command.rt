// The commands of the program, and the words that call each of them.

ghost use Rattle.std.specs.Prelude.{◌≡◌, ℕ, map, Ok, IfOk};
ghost use Rattle.nk_words.specs.Words.{IsCallOf, threads_words, usage_line};
ghost use Rattle.nk_words.specs.Decimal.{IsSpelledWithin};
ghost use Rattle.nk_words.specs.declared.command.Command.{Command as Called};

use crate::decimal::read_decimal;

/// The line that answers words without a meaning, with its line feed (this project's own).
pub fn usage_line() -> &'static [u8]
    ensures { result.now ≡ usage_line }
{
    b"usage: necklane play [log] | divert K | threads N [shared] [log] | frames | gen N | check\n"
}

// The most pieces that a page may see before its load is handed back.
const MOST_PIECES: u32 = 65_536;

// The most worker threads of a run.
const MOST_WORKERS: u32 = 16;

/// What the program is called for (this project's own).
#[derive(Clone, Copy, Debug, PartialEq, Eq)]
pub enum Command {
    /// Play a script's schedule and drain, and print the report, with the journals where `log` is set.
    Play {
        log: bool,
    },
    /// Play a script whose loads are handed back after so many pieces, 0 to 65,536.
    Divert(u32),
    /// Run a script on 1 to 16 worker threads, all channels over one set of lanes where `shared` is set.
    Threads {
        workers: u8,
        shared: bool,
        log: bool,
    },
    /// Print the messages of a sequence of frames.
    Frames,
    /// Play the script that is made from this number, and print its summary.
    Gen(u32),
    /// Judge the log of a run.
    Check,
}

/// The words are those of no command.
#[derive(Clone, Copy, Debug, PartialEq, Eq)]
pub struct Usage;

/// The command that the words call; `Usage` where they are those of no command (this project's own).
pub fn read_words(words: &[&str]) -> Result<Command, Usage>
    ensures command { IfOk result (λ command. IsCallOf command (map (λ word. word.now) words.now)) }

    // So `Usage` comes exactly where the words are those of no command, and no two commands have the same words.
    ensures each { (command : Called) → IsCallOf command (map (λ word. word.now) words.now) → result ≡ Ok command }
{
    match *words {
        ["play"] => Ok(Command::Play { log: false }),
        ["play", "log"] => Ok(Command::Play { log: true }),
        ["divert", pieces] => Ok(Command::Divert(read_number(pieces, 0, MOST_PIECES)?)),
        ["threads", workers] => read_threads(workers, false, false),
        ["threads", workers, "log"] => read_threads(workers, false, true),
        ["threads", workers, "shared"] => read_threads(workers, true, false),
        ["threads", workers, "shared", "log"] => read_threads(workers, true, true),
        ["frames"] => Ok(Command::Frames),
        ["gen", seed] => Ok(Command::Gen(read_number(seed, 0, u32::MAX)?)),
        ["check"] => Ok(Command::Check),
        _ => Err(Usage),
    }
}

// The command `threads` on this number of workers, with these of its other words.
fn read_threads(workers: &str, shared: bool, log: bool) -> Result<Command, Usage>
    ensures command { IfOk result (λ command. IsCallOf command (threads_words workers.now shared log)) }
    ensures each { (command : Called) → IsCallOf command (threads_words workers.now shared log) → result ≡ Ok command }
{
    let workers = read_number(workers, 1, MOST_WORKERS)? as u8;
    Ok(Command::Threads {
        workers,
        shared,
        log,
    })
}

// The number in this range that the text spells, without a sign or a leading zero.
fn read_number(text: &str, least: u32, most: u32) -> Result<u32, Usage>
    ensures number { IfOk result (IsSpelledWithin least most text.now) }
    ensures each { (n : ℕ) → IsSpelledWithin least most text.now n → result ≡ Ok n }
{
    match read_decimal(text) {
        Some(number) if least <= number && number <= most => Ok(number),
        _ => Err(Usage),
    }
}

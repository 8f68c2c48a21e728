// The words that call the program, and what they call it for.

use crate::rows::{Row, all_right, right};
use nk_words::{Command, Usage, read_words, usage_line};
use std::alloc::Global;

/// Words that are parted by one space each, and what they call for; `None` where that is nothing.
type Call = (&'static str, Option<Command>);

/// Words that call for threads: how many, whether the lanes are shared, and whether there is a log.
type Threads = (&'static str, u8, bool, bool);

// Whether the words of a line call for this.
fn is_call(alloc: Global, line: &str, command: Option<Command>) -> bool {
    let words: Result<Vec<&str>, _> = line.split(' ').collect(alloc);
    match words {
        Ok(words) => read_words(&words).ok() == command,
        Err(_) => false,
    }
}

impl Row for Call {
    fn is_right(&self, alloc: Global) -> bool {
        is_call(alloc, self.0, self.1)
    }
}

impl Row for Threads {
    fn is_right(&self, alloc: Global) -> bool {
        let (line, workers, shared, log) = *self;
        let command = Command::Threads {
            workers,
            shared,
            log,
        };
        is_call(alloc, line, Some(command))
    }
}

const NAMED: &[Call] = &[
    ("play", Some(Command::Play { log: false })),
    ("play log", Some(Command::Play { log: true })),
    ("divert 0", Some(Command::Divert(0))),
    ("divert 1", Some(Command::Divert(1))),
    ("divert 10", Some(Command::Divert(10))),
    ("divert 65536", Some(Command::Divert(65_536))),
    ("frames", Some(Command::Frames)),
    ("gen 0", Some(Command::Gen(0))),
    ("gen 7", Some(Command::Gen(7))),
    ("gen 2147483648", Some(Command::Gen(2_147_483_648))),
    ("gen 4294967295", Some(Command::Gen(4_294_967_295))),
    ("check", Some(Command::Check)),
];

const THREADS: &[Threads] = &[
    ("threads 1", 1, false, false),
    ("threads 9", 9, false, false),
    ("threads 16", 16, false, false),
    ("threads 10 log", 10, false, true),
    ("threads 16 log", 16, false, true),
    ("threads 1 shared", 1, true, false),
    ("threads 4 shared", 4, true, false),
    ("threads 4 shared log", 4, true, true),
    ("threads 16 shared log", 16, true, true),
];

#[test]
fn words_of_each_form_name_their_command(rt: HostRuntime) {
    all_right(&rt, rt.alloc(), NAMED);
    all_right(&rt, rt.alloc(), THREADS);
}

const REFUSED: &[Call] = &[
    ("", None),
    (" ", None),
    ("Play", None),
    ("plays", None),
    ("play ", None),
    (" play", None),
    ("play now", None),
    ("play Log", None),
    ("play log log", None),
    ("log", None),
    ("divert", None),
    ("divert ", None),
    ("divert 00", None),
    ("divert -1", None),
    ("divert 65537", None),
    ("divert 1 log", None),
    ("threads", None),
    ("threads ", None),
    ("threads 0", None),
    ("threads 17", None),
    ("threads 01", None),
    ("threads +4", None),
    ("threads 272", None),
    ("threads log", None),
    ("threads 0 log", None),
    ("threads 17 shared", None),
    ("threads 17 shared log", None),
    ("threads 4 log shared", None),
    ("threads 4 shared shared", None),
    ("threads 4 log log", None),
    ("threads 4 shared log log", None),
    ("frames log", None),
    ("gen", None),
    ("gen ", None),
    ("gen 07", None),
    ("gen 4294967296", None),
    ("gen 18446744073709551617", None),
    ("gen 99999999999999999999999", None),
    ("gen +7", None),
    ("gen 0x7", None),
    ("gen 7 7", None),
    ("check log", None),
    ("checks", None),
    ("usage", None),
];

#[test]
fn words_of_no_form_are_refused(rt: HostRuntime) {
    all_right(&rt, rt.alloc(), REFUSED);
    right(&rt, read_words(&[]) == Err(Usage));
}

// The line that answers them.
const LINE: &[u8] =
    b"usage: necklane play [log] | divert K | threads N [shared] [log] | frames | gen N | check\n";

#[test]
fn the_usage_line_has_each_form(rt: HostRuntime) {
    right(&rt, usage_line() == LINE);
}

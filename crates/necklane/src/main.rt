// The program: its words and streams, handed to the runs that decide. Nothing is decided here.
#![tactic(auto)]

use nk_io::{StdSink, StdSource};
use nk_run::{refuse_words, run_alone};
use std::process::ExitCode;
use std::{env, io};

/// The status of want of memory.
const WANT_OF_MEMORY: u8 = 5;

fn main(rt: HostRuntime) -> ExitCode {
    let alloc = rt.alloc();
    let mut err = StdSink::new(rt.stderr());
    let args = match env::args(&rt) {
        Ok(args) => args,
        Err(error) if error.kind() == io::ErrorKind::OutOfMemory => {
            return ExitCode::from(WANT_OF_MEMORY);
        }
        Err(_) => return ExitCode::from(refuse_words(&mut err)),
    };
    let args: Vec<String> = match args.skip(1).collect(alloc) {
        Ok(args) => args,
        Err(_) => return ExitCode::from(WANT_OF_MEMORY),
    };
    let words: Vec<&str> = match args.iter().map(|word| word.as_str()).collect(alloc) {
        Ok(words) => words,
        Err(_) => return ExitCode::from(WANT_OF_MEMORY),
    };
    let mut input = StdSource::new(rt.stdin());
    let mut out = StdSink::new(rt.stdout());
    ExitCode::from(run_alone(alloc, words.as_slice(), &mut input, &mut out, &mut err))
}

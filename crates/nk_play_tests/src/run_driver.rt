//! Runs of the program, over streams in memory.

use nk_io::{MemSink, MemSource, Source, SureSink, SureSource};
use nk_run::run_alone;
use std::alloc::Global;
use std::test::Fail;

/// What a run answers: its status, what it prints and what it tells.
pub(crate) type Answer<'a> = (u8, &'a [u8], &'a [u8]);

/// A run that has ended.
#[derive(Debug, Drop)]
struct Ran {
    status: u8,
    out: MemSink,
    err: SureSink,
}

/// Runs the program with these words.
fn run(alloc: Global, words: &[&str], input: &mut impl Source, mut out: MemSink) -> Ran {
    let mut err = SureSink::new(alloc);
    let status = run_alone(alloc, words, input, &mut out, &mut err);
    Ran { status, out, err }
}

/// Compares what a run answered.
fn compare(ran: Ran, (status, printed, told): Answer<'_>) -> Result<(), Fail> {
    if ran.status != status || ran.out.bytes() != printed || ran.err.bytes() != told {
        Err(ran)?
    }
    Ok(())
}

/// Runs the program with these words on an input, and compares what it answers.
pub(crate) fn answers(
    alloc: Global,
    words: &[&str],
    input: Vec<u8>,
    answer: Answer<'_>,
) -> Result<(), Fail> {
    let out = MemSink::new(alloc, usize::MAX, Vec::new(alloc));
    let ran = run(alloc, words, &mut SureSource::new(input), out);
    compare(ran, answer)
}

/// How many bytes a source gives and a sink takes in one call, and the calls that fail, counted from 1.
#[derive(Clone, Copy, Drop)]
pub(crate) struct Streams<'a> {
    pub given: usize,
    pub taken: usize,
    pub source_fails: &'a [u64],
    pub sink_fails: &'a [u64],
}

/// A source of this input.
fn source(alloc: Global, streams: Streams<'_>, input: Vec<u8>) -> Result<MemSource, Fail> {
    let fails = streams.source_fails.to_vec(alloc)?;
    Ok(MemSource::new(input, streams.given.max(1), fails))
}

/// A sink that got nothing yet.
fn sink(alloc: Global, streams: Streams<'_>) -> Result<MemSink, Fail> {
    let fails = streams.sink_fails.to_vec(alloc)?;
    Ok(MemSink::new(alloc, streams.taken.max(1), fails))
}

/// Runs the program over such streams, and compares what it answers.
pub(crate) fn answers_over(
    alloc: Global,
    streams: Streams<'_>,
    words: &[&str],
    input: Vec<u8>,
    answer: Answer<'_>,
) -> Result<(), Fail> {
    let mut input = source(alloc, streams, input)?;
    let ran = run(alloc, words, &mut input, sink(alloc, streams)?);
    compare(ran, answer)
}

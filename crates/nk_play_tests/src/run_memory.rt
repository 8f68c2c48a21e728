//! A run where memory is wanting: want of memory is told, and nothing is printed.
//!
//! With ample memory these tests pass. `rt try --test --fail-alloc N` refuses the N-th allocation of each. In the run, such a
//! test has to fail with the status 5, which `compare` answers last; what that run told and printed was compared before.

use crate::run_page::{WHOLE, page, report_of_page};
use nk_io::{StdSink, StdSource};
use nk_run::run_alone;
use std::alloc::Global;
use std::test::Fail;

/// Plays a script over streams that take no memory.
fn play(alloc: Global, script: &[u8], room: &mut [u8], told: &mut [u8]) -> u8 {
    run_alone(
        alloc,
        &["play"],
        &mut StdSource::new(script),
        &mut StdSink::new(room),
        &mut StdSink::new(told),
    )
}

/// Whether a room that was empty got this text and nothing else.
fn has_got(room: &[u8], text: &[u8]) -> bool {
    match room.strip_prefix(text) {
        Some(rest) => rest.iter().all(|byte| *byte == 0),
        None => false,
    }
}

/// Compares what was printed and told, and then the status.
fn compare(status: u8, room: &[u8], told: &[u8], report: &[u8]) -> Result<(), Fail> {
    let same = match status {
        5 => has_got(room, b"") && has_got(told, b"error: memory\n"),
        _ => has_got(room, report) && has_got(told, b""),
    };
    if !same {
        Err("another text was printed or told")?
    }
    if status != 0 {
        Err(status)?
    }
    Ok(())
}

/// Plays a script with so much room for what is printed, and compares that with the report.
fn has_memory(alloc: Global, script: &[u8], report: &[u8], room: &mut [u8]) -> Result<(), Fail> {
    let mut told = [0u8; 14];
    let status = play(alloc, script, room, &mut told);
    compare(status, room, &told, report)
}

#[test]
fn a_load_has_memory_or_prints_nothing(rt: HostRuntime) -> Result<(), Fail> {
    has_memory(
        rt.alloc(),
        b"script 1\nchannel\nhop response 200\npiece hello\nend ok\n",
        b"channel 1\nstart 200 00000000\ndata 0 68656c6c6f\nstop 00000000\nend stopped\n",
        &mut [0; 128],
    )
}

#[test]
fn a_page_has_memory_or_prints_nothing(rt: HostRuntime) -> Result<(), Fail> {
    let alloc = rt.alloc();
    let script = page(alloc, WHOLE)?;
    let report = report_of_page(alloc, WHOLE)?;
    let mut room = vec![in alloc; 0; 8_000_000]?;
    has_memory(alloc, &script, &report, &mut room)
}

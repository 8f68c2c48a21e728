//! A run whose source or sink fails at a call, for each of its calls in turn: nothing is printed of a script that was not
//! read whole, and a sink that fails has got what came before. The page has short pieces, since it is played for each call.

use crate::run_driver::{Answer, Streams, answers_over};
use crate::run_page::{SMALL, page, report_of_page};
use std::alloc::Global;
use std::test::Fail;

/// The most bytes of one call.
const PER_CALL: usize = 64;

/// How many calls of a run are failed at most.
const MOST_CALLS: usize = 40;

/// Scripts, and the report of each: one response; two redirects; two cancels, of which the first counts; and a worker whose
/// failure stands before the stop that waits.
const ROWS: [(&[u8], &[u8]); 4] = [
    (
        b"script 1\nchannel\nhop response 200\npiece hello\nend ok\n",
        b"channel 1\nstart 200 00000000\ndata 0 68656c6c6f\nstop 00000000\nend stopped\n",
    ),
    (
        b"script 1\n\
          channel\n\
          hop redirect 301 allow\nhop redirect 302 allow\nhop response 200\npiece z\nend ok\n",
        b"channel 1\nstart 200 00000000\ndata 0 7a\nstop 00000000\nend stopped\n",
    ),
    (
        b"script 1\n\
          channel\n\
          hop response 200\npiece ab\npiece cd\nend ok\n\
          when 1 cancel 804b0002\nwhen 1 cancel 80004005\n",
        b"channel 1\nstart 200 00000000\nstop 804b0002\nend stopped\n",
    ),
    (
        b"script 1\n\
          channel\n\
          hop response 200\npiece a\npiece b\nend ok\n\
          at start retarget w1\nat data 1 fail 80004005\n\
          schedule\n\
          1 act\n1 up\n1 fetch\n1 fetch\n1 fetch\n1 fetch\n\
          1 forward\n1 forward\n1 forward\n1 forward\n\
          1 main\n1 finish main\n1 back\n1 back\n1 back\n1 back\n1 release\n\
          1 begin main\n1 begin w1\n1 begin w1\n1 finish w1\n",
        b"channel 1\nstart 200 00000000\ndata 0 61\nstop 80004005\nend stopped\n",
    ),
];

/// Plays a script with a source and a sink that fail at these calls, and compares what is answered.
fn plays(
    alloc: Global,
    script: &[u8],
    source_fails: &[u64],
    sink_fails: &[u64],
    answer: Answer<'_>,
) -> Result<(), Fail> {
    let streams = Streams {
        given: PER_CALL,
        taken: PER_CALL,
        source_fails,
        sink_fails,
    };
    answers_over(alloc, streams, &["play"], script.to_vec(alloc)?, answer)
}

/// The source fails at each of its calls, of which the last finds the end. A fault behind it is never met.
fn fails_at_each_take(alloc: Global, script: &[u8], report: &[u8]) -> Result<(), Fail> {
    let calls = script.len().div_ceil(PER_CALL) + 1;
    for call in 1..=calls.min(MOST_CALLS) {
        plays(
            alloc,
            script,
            &[call as u64],
            &[],
            (3, b"", b"error: read\n"),
        )?;
    }
    plays(alloc, script, &[calls as u64 + 1], &[], (0, report, b""))
}

/// The sink fails at each of its calls, and has got what the calls before brought. A fault behind the last is never met.
fn fails_at_each_put(alloc: Global, script: &[u8], report: &[u8]) -> Result<(), Fail> {
    let calls = report.len().div_ceil(PER_CALL);
    for call in 1..=calls.min(MOST_CALLS) {
        let got = &report[..(call - 1) * PER_CALL];
        plays(
            alloc,
            script,
            &[],
            &[call as u64],
            (4, got, b"error: write\n"),
        )?;
    }
    plays(alloc, script, &[], &[calls as u64 + 1], (0, report, b""))
}

#[test]
fn a_source_that_fails_at_any_call_leaves_the_output_empty(rt: HostRuntime) -> Result<(), Fail> {
    for &(script, report) in &ROWS {
        fails_at_each_take(rt.alloc(), script, report)?;
    }
    Ok(())
}

#[test]
fn a_sink_that_fails_at_any_call_has_got_what_came_before(rt: HostRuntime) -> Result<(), Fail> {
    for &(script, report) in &ROWS {
        fails_at_each_put(rt.alloc(), script, report)?;
    }
    Ok(())
}

#[test]
fn a_page_is_not_played_where_its_source_fails(rt: HostRuntime) -> Result<(), Fail> {
    let alloc = rt.alloc();
    let report = report_of_page(alloc, SMALL)?;
    fails_at_each_take(alloc, &page(alloc, SMALL)?, &report)
}

#[test]
fn a_page_is_cut_where_its_sink_fails(rt: HostRuntime) -> Result<(), Fail> {
    let alloc = rt.alloc();
    let report = report_of_page(alloc, SMALL)?;
    fails_at_each_put(alloc, &page(alloc, SMALL)?, &report)
}

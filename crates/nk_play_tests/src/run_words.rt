//! Which status a run answers and what it tells: of scripts that are refused, of words that have no meaning, and where its
//! source or its sink fails.

use crate::run_driver::{Answer, Streams, answers, answers_over};
use nk_io::SureSink;
use nk_run::refuse_words;
use std::alloc::Global;
use std::test::Fail;

const USAGE: &[u8] =
    b"usage: necklane play [log] | divert K | threads N [shared] [log] | frames | gen N | check\n";

#[test]
fn channels_are_printed_in_order(rt: HostRuntime) -> Result<(), Fail> {
    let alloc = rt.alloc();
    let script = b"script 1\n\
          channel\nhop response 200\npiece hello\nend ok\n\
          channel\nhop response 204\nend ok";
    let printed = b"channel 1\nstart 200 00000000\ndata 0 68656c6c6f\nstop 00000000\nend stopped\n\
          channel 2\nstart 204 00000000\nstop 00000000\nend stopped\n";
    answers(alloc, &["play"], script.to_vec(alloc)?, (0, printed, b""))
}

/// Plays each of these texts, which are no scripts, and compares what is told.
fn refuses(alloc: Global, rows: &[(&[u8], &[u8])]) -> Result<(), Fail> {
    for &(text, told) in rows {
        answers(alloc, &["play"], text.to_vec(alloc)?, (1, b"", told))?;
    }
    Ok(())
}

#[test]
fn the_first_bad_line_of_a_text_is_named(rt: HostRuntime) -> Result<(), Fail> {
    const ROWS: &[(&[u8], &[u8])] = &[
        (b"", b"error: line 1: ends early\n"),
        (
            b"script 1\nchannel\nhop response 200\npiece\n",
            b"error: line 4: malformed\n",
        ),
        (
            b"script 1\nchannel\nhop response 200\npiece hello\n",
            b"error: line 5: ends early\n",
        ),
        (
            b"script 1\nchannel\nhop response 99\n",
            b"error: line 3: malformed\n",
        ),
        (
            b"script 1\nchannel\nhop redirect 302 allow\n",
            b"error: line 4: ends early\n",
        ),
        (
            b"script 1\nchannel\nhop fail 804b000d\nschedule\n2 act\n",
            b"error: line 5: malformed\n",
        ),
        (
            b"script 1\nchannel\nhop fail 00000000\n",
            b"error: line 3: malformed\n",
        ),
        (
            b"script 1\nchannel\nhop fail 804b000d\nhop fail 804b000d\n",
            b"error: line 4: unexpected\n",
        ),
    ];
    refuses(rt.alloc(), ROWS)
}

/// Plays a text of these lines, of which the last stands so many times, and compares what is told.
fn refuses_many(
    alloc: Global,
    lines: &[u8],
    last: &[u8],
    count: usize,
    told: &[u8],
) -> Result<(), Fail> {
    let last = last.repeat(alloc, count)?;
    let mut text = lines.to_vec(alloc)?;
    text.extend_from_slice(&last)?;
    answers(alloc, &["play"], text, (1, b"", told))
}

#[test]
fn a_redirect_as_32nd_hop_is_one_too_many(rt: HostRuntime) -> Result<(), Fail> {
    refuses_many(
        rt.alloc(),
        b"script 1\nchannel\n",
        b"hop redirect 302 allow\n",
        32,
        b"error: line 34: limit\n",
    )
}

#[test]
fn a_body_of_more_than_64_mib_is_too_large(rt: HostRuntime) -> Result<(), Fail> {
    refuses_many(
        rt.alloc(),
        b"script 1\nchannel\nhop response 200\n",
        b"fill 00 131072\n",
        513,
        b"error: line 516: limit\n",
    )
}

/// Runs the program with each of these lists of words, and compares what is told.
fn has_no_meaning(alloc: Global, lists: &[&[&str]]) -> Result<(), Fail> {
    for words in lists {
        answers(alloc, words, Vec::new(alloc), (2, b"", USAGE))?;
    }
    Ok(())
}

#[test]
fn words_without_a_meaning_get_the_usage_line(rt: HostRuntime) -> Result<(), Fail> {
    const LISTS: &[&[&str]] = &[
        &[],
        &["play", "now"],
        &["play", "log", "now"],
        &["threads", "0"],
        &["threads", "17"],
        &["gen"],
        &["gen", "07"],
        &["gen", "4294967296"],
    ];
    has_no_meaning(rt.alloc(), LISTS)
}

#[test]
fn words_that_are_no_text_get_the_usage_line(rt: HostRuntime) {
    let mut err = SureSink::new(rt.alloc());
    let status = refuse_words(&mut err);
    assert!(rt; status == 2 && err.bytes() == USAGE);
}

/// Plays one response where these calls fail, and compares what is answered.
fn plays_over(
    alloc: Global,
    source_fails: &[u64],
    sink_fails: &[u64],
    answer: Answer<'_>,
) -> Result<(), Fail> {
    let streams = Streams {
        given: 64,
        taken: 8,
        source_fails,
        sink_fails,
    };
    let script = b"script 1\nchannel\nhop response 200\npiece hello\nend ok\n";
    answers_over(alloc, streams, &["play"], script.to_vec(alloc)?, answer)
}

#[test]
fn a_sink_that_fails_keeps_what_it_got(rt: HostRuntime) -> Result<(), Fail> {
    plays_over(rt.alloc(), &[], &[2], (4, b"channel ", b"error: write\n"))
}

#[test]
fn a_source_that_fails_leaves_the_output_empty(rt: HostRuntime) -> Result<(), Fail> {
    plays_over(rt.alloc(), &[1], &[], (3, b"", b"error: read\n"))
}

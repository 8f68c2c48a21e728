//! What a listener is shown of a load, by the lines of its channel's script.

use crate::run_driver::answers;
use crate::scripts::joined;
use std::alloc::Global;
use std::test::Fail;

/// The hops of a channel, what its listener and its page do, and what is printed of it.
type Row = (&'static [u8], &'static [u8], &'static [u8]);

/// Plays a script of one channel for each of these rows, and compares what is printed.
fn shows(alloc: Global, rows: &[Row]) -> Result<(), Fail> {
    shows_with(alloc, b"", rows)
}

/// The same, and for a load that starts on the background lane.
fn shows_on_both_lanes(alloc: Global, rows: &[Row]) -> Result<(), Fail> {
    shows_with(alloc, b"", rows)?;
    shows_with(alloc, b"start back\n", rows)
}

/// The same with an option between the hops and the calls.
fn shows_with(alloc: Global, option: &'static [u8], rows: &[Row]) -> Result<(), Fail> {
    for &(hops, calls, shown) in rows {
        let script = joined(alloc, &[b"script 1\nchannel\n", hops, option, calls])?;
        answers(alloc, &["play"], script, (0, shown, b""))?;
    }
    Ok(())
}

const ONE_PIECE: &[u8] = b"hop response 200\npiece ab\nend ok\n";

const TWO_PIECES: &[u8] = b"hop response 200\npiece ab\npiece cd\nend ok\n";

const TRAILER: &[u8] = b"hop response 200\npiece ab\nend ok\ntrailer x-sum 17\n";

/// What is shown of one piece, and of two.
const ONE_SHOWN: &[u8] =
    b"channel 1\nstart 200 00000000\ndata 0 6162\nstop 00000000\nend stopped\n";

const TWO_SHOWN: &[u8] =
    b"channel 1\nstart 200 00000000\ndata 0 6162\ndata 2 6364\nstop 00000000\nend stopped\n";

#[test]
fn a_load_is_shown_from_its_start_to_its_stop(rt: HostRuntime) -> Result<(), Fail> {
    const ROWS: &[Row] = &[
        (
            b"hop response 200\npiece hello\nend ok\n",
            b"",
            b"channel 1\nstart 200 00000000\ndata 0 68656c6c6f\nstop 00000000\nend stopped\n",
        ),
        (
            b"hop response 999\nfield server example\npiece piece \nhex 00ff\nfill 2e 2\nend ok\n",
            b"",
            b"channel 1\n\
              start 999 00000000\n\
              data 0 706965636520\n\
              data 6 00ff\n\
              data 8 2e2e\n\
              stop 00000000\n\
              end stopped\n",
        ),
        (
            b"hop redirect 301 allow\nhop redirect 302 allow\nhop response 200\npiece z\nend ok\n",
            b"",
            b"channel 1\nstart 200 00000000\ndata 0 7a\nstop 00000000\nend stopped\n",
        ),
        (
            TRAILER,
            b"",
            b"channel 1\n\
              start 200 00000000\n\
              data 0 6162\n\
              trailer x-sum 17\n\
              stop 00000000\n\
              end stopped\n",
        ),
        (
            b"hop response 200\npiece ab\nend ok\nretargetable no\n",
            b"",
            ONE_SHOWN,
        ),
        (
            b"hop response 200\npiece ab\nend ok\nretargetable no\n",
            b"at start retarget w1\n",
            ONE_SHOWN,
        ),
        (TWO_PIECES, b"", TWO_SHOWN),
        (
            b"hop response 200\npiece ab\npiece cd\nend ok\nwindow 1\n",
            b"at start retarget w16\n",
            TWO_SHOWN,
        ),
    ];
    shows_on_both_lanes(rt.alloc(), ROWS)
}

#[test]
fn a_load_that_fails_ends_with_its_status(rt: HostRuntime) -> Result<(), Fail> {
    const ROWS: &[Row] = &[
        (
            b"hop fail 804b000d\n",
            b"",
            b"channel 1\nstart 000 804b000d\nstop 804b000d\nend stopped\n",
        ),
        (
            b"hop redirect 301 allow\nhop fail 804b000d\n",
            b"",
            b"channel 1\nstart 000 804b000d\nstop 804b000d\nend stopped\n",
        ),
        (
            b"hop response 200\npiece ab\nend fail 804b0014\n",
            b"",
            b"channel 1\nstart 200 00000000\ndata 0 6162\nstop 804b0014\nend stopped\n",
        ),
        (
            b"hop redirect 302 veto 804b0002\nhop response 200\npiece x\nend ok\n",
            b"",
            b"channel 1\nstart 302 804b0002\nstop 804b0002\nend stopped\n",
        ),
    ];
    shows_on_both_lanes(rt.alloc(), ROWS)
}

#[test]
fn the_21st_redirect_is_refused(rt: HostRuntime) -> Result<(), Fail> {
    const ROWS: &[Row] = &[
        (
            b"hop redirect 302 allow\nhop redirect 302 allow\nhop redirect 302 allow\n\
              hop redirect 302 allow\nhop redirect 302 allow\nhop redirect 302 allow\n\
              hop redirect 302 allow\nhop redirect 302 allow\nhop redirect 302 allow\n\
              hop redirect 302 allow\nhop redirect 302 allow\nhop redirect 302 allow\n\
              hop redirect 302 allow\nhop redirect 302 allow\nhop redirect 302 allow\n\
              hop redirect 302 allow\nhop redirect 302 allow\nhop redirect 302 allow\n\
              hop redirect 302 allow\nhop redirect 302 allow\n\
              hop response 200\npiece z\nend ok\n",
            b"",
            b"channel 1\nstart 200 00000000\ndata 0 7a\nstop 00000000\nend stopped\n",
        ),
        (
            b"hop redirect 302 allow\nhop redirect 302 allow\nhop redirect 302 allow\n\
              hop redirect 302 allow\nhop redirect 302 allow\nhop redirect 302 allow\n\
              hop redirect 302 allow\nhop redirect 302 allow\nhop redirect 302 allow\n\
              hop redirect 302 allow\nhop redirect 302 allow\nhop redirect 302 allow\n\
              hop redirect 302 allow\nhop redirect 302 allow\nhop redirect 302 allow\n\
              hop redirect 302 allow\nhop redirect 302 allow\nhop redirect 302 allow\n\
              hop redirect 302 allow\nhop redirect 302 allow\nhop redirect 302 allow\n\
              hop response 200\npiece z\nend ok\n",
            b"",
            b"channel 1\nstart 302 804b001f\nstop 804b001f\nend stopped\n",
        ),
    ];
    shows_on_both_lanes(rt.alloc(), ROWS)
}

#[test]
fn the_first_failure_ends_a_load(rt: HostRuntime) -> Result<(), Fail> {
    const ROWS: &[Row] = &[
        (
            TWO_PIECES,
            b"when 1 cancel 804b0002\nwhen 1 cancel 80004005\n",
            b"channel 1\nstart 200 00000000\nstop 804b0002\nend stopped\n",
        ),
        (
            TWO_PIECES,
            b"at data 1 fail 80004005\nat data 1 fail 804b0014\n",
            b"channel 1\nstart 200 00000000\ndata 0 6162\nstop 80004005\nend stopped\n",
        ),
        (
            ONE_PIECE,
            b"at start cancel 804b0002\nat start fail 80004005\n",
            b"channel 1\nstart 200 00000000\nstop 804b0002\nend stopped\n",
        ),
        (
            TWO_PIECES,
            b"at start cancel 804b0002\nat start fail 80004005\n",
            b"channel 1\nstart 200 00000000\nstop 804b0002\nend stopped\n",
        ),
        (
            TWO_PIECES,
            b"when 1 cancel 804b0002\nwhen 1 break 804b0014\n",
            b"channel 1\nstart 200 00000000\nstop 804b0002\nend stopped\n",
        ),
    ];
    shows_on_both_lanes(rt.alloc(), ROWS)
}

#[test]
fn a_page_suspends_breaks_and_drops_trailers(rt: HostRuntime) -> Result<(), Fail> {
    const ROWS: &[Row] = &[
        (
            ONE_PIECE,
            b"at start suspend\n",
            b"channel 1\nstart 200 00000000\nend suspended\n",
        ),
        (ONE_PIECE, b"at start suspend\nwhen 1 resume\n", ONE_SHOWN),
        (
            ONE_PIECE,
            b"at start suspend\nwhen 2 resume\n",
            b"channel 1\nstart 200 00000000\nend suspended\n",
        ),
        (
            TWO_PIECES,
            b"when 1 break 804b0014\n",
            b"channel 1\nstart 200 00000000\nstop 804b0014\nend stopped\n",
        ),
        (
            TWO_PIECES,
            b"when 0 break 804b0014\n",
            b"channel 1\nstart 000 804b0014\nstop 804b0014\nend stopped\n",
        ),
        (
            TRAILER,
            b"when 1 cancel 804b0002\n",
            b"channel 1\nstart 200 00000000\nstop 804b0002\nend stopped\n",
        ),
    ];
    shows_on_both_lanes(rt.alloc(), ROWS)
}

#[test]
fn readers_have_all_bytes(rt: HostRuntime) -> Result<(), Fail> {
    const ROWS: &[Row] = &[(
        b"hop response 200\nfill 61 20\nend ok\n",
        b"listener pipe 4 2 2\n",
        b"channel 1\n\
          start 200 00000000\n\
          data 0 6161616161616161616161616161616161616161\n\
          stop 00000000\n\
          reader 1 20 6161616161616161616161616161616161616161 00000000\n\
          reader 2 20 6161616161616161616161616161616161616161 00000000\n\
          end stopped\n",
    )];
    shows(rt.alloc(), ROWS)
}

#[test]
fn a_closed_channel_is_not_opened(rt: HostRuntime) -> Result<(), Fail> {
    const ROWS: &[Row] = &[
        (
            b"hop fail 804b000d\n",
            b"closed\n",
            b"channel 1\nend unopened\n",
        ),
        (
            b"hop fail 804b000d\n",
            b"listener pipe 4 2 2\nclosed\n",
            b"channel 1\nreader 1 0 - open\nreader 2 0 - open\nend unopened\n",
        ),
    ];
    shows(rt.alloc(), ROWS)
}

#[test]
fn steps_that_are_not_enabled_change_nothing(rt: HostRuntime) -> Result<(), Fail> {
    const ROWS: &[Row] = &[(
        b"hop response 200\npiece hello\nend ok\n",
        b"schedule\n1 main\n1 finish main\n1 read 1\n",
        b"channel 1\nstart 200 00000000\ndata 0 68656c6c6f\nstop 00000000\nend stopped\n",
    )];
    shows(rt.alloc(), ROWS)
}

#[test]
fn data_that_comes_before_its_start_is_held(rt: HostRuntime) -> Result<(), Fail> {
    const ROWS: &[Row] = &[(
        TWO_PIECES,
        b"schedule\n\
          1 act\n1 up\n1 fetch\n1 fetch\n1 fetch\n1 fetch\n\
          1 forward\n1 forward\n1 forward\n1 forward\n\
          1 back\n1 back\n1 back\n1 back\n1 main\n1 release\n",
        TWO_SHOWN,
    )];
    shows(rt.alloc(), ROWS)
}

#[test]
fn a_cancel_after_the_verdict_counts(rt: HostRuntime) -> Result<(), Fail> {
    const ROWS: &[Row] = &[(
        b"hop redirect 302 allow\nhop response 200\npiece x\nend ok\n",
        b"when 0 cancel 804b0002\n\
          schedule\n\
          1 act\n1 up\n1 fetch\n1 main\n1 verdict\n1 act\n1 up\n1 fetch\n1 up\n",
        b"channel 1\nstart 200 804b0002\nstop 804b0002\nend stopped\n",
    )];
    shows(rt.alloc(), ROWS)
}

#[test]
fn a_failure_on_a_worker_stands_before_what_waits(rt: HostRuntime) -> Result<(), Fail> {
    const ROWS: &[Row] = &[(
        b"hop response 200\npiece a\npiece b\nend ok\n",
        b"at start retarget w1\n\
          at data 1 fail 80004005\n\
          schedule\n\
          1 act\n1 up\n1 fetch\n1 fetch\n1 fetch\n1 fetch\n\
          1 forward\n1 forward\n1 forward\n1 forward\n\
          1 main\n1 finish main\n1 back\n1 back\n1 back\n1 back\n1 release\n\
          1 begin main\n1 begin w1\n1 begin w1\n1 finish w1\n",
        b"channel 1\nstart 200 00000000\ndata 0 61\nstop 80004005\nend stopped\n",
    )];
    shows(rt.alloc(), ROWS)
}

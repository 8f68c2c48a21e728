//! What a child enters in its journal, step by step, and what its listener is shown.

use crate::child_driver::{Do, MAIN, WORKER, enters};
use std::test::Fail;

#[test]
fn a_head_alone_is_a_start_and_a_stop(rt: HostRuntime) -> Result<(), Fail> {
    const STEPS: &[Do] = &[
        Do::Act,
        Do::Start(204),
        Do::StartSent,
        Do::Release,
        Do::Finish(MAIN),
        Do::Stop,
        Do::Begin(MAIN),
        Do::Finish(MAIN),
        Do::Begin(MAIN),
    ];
    enters(
        rt.alloc(),
        b"script 1\n\
          channel\n\
          hop response 204\nend ok\n",
        STEPS,
        b"start 204 00000000\n\
          stop 00000000\n\
          end stopped\n\
          c open\n\
          c main start 0 00000000 204 0\n\
          c run main start 204 00000000\n\
          c back sent 0\n\
          c release 0\n\
          c finish main\n\
          c back stop 0 00000000\n\
          c run main stop 00000000\n\
          c finish main\n\
          c ended main\n",
    )
}

#[test]
fn data_that_comes_first_waits_for_its_start(rt: HostRuntime) -> Result<(), Fail> {
    const STEPS: &[Do] = &[
        Do::Act,
        Do::StartSent,
        Do::Bytes(0, b"ab"),
        Do::Bytes(2, b"cd"),
        Do::Stop,
        Do::Start(200),
        Do::Release,
        Do::Finish(MAIN),
        Do::Begin(MAIN),
        Do::Finish(MAIN),
        Do::Begin(MAIN),
        Do::Finish(MAIN),
        Do::Begin(MAIN),
        Do::Finish(MAIN),
        Do::Begin(MAIN),
    ];
    enters(
        rt.alloc(),
        b"script 1\n\
          channel\n\
          hop response 200\npiece ab\npiece cd\nend ok\n",
        STEPS,
        b"start 200 00000000\n\
          data 0 6162\n\
          data 2 6364\n\
          stop 00000000\n\
          end stopped\n\
          c open\n\
          c back sent 0\n\
          c back bytes 0 00000000 0 2\n\
          c back bytes 0 00000000 2 2\n\
          c back stop 0 00000000\n\
          c main start 0 00000000 200 0\n\
          c run main start 200 00000000\n\
          c release 3\n\
          c finish main\n\
          c run main bytes 0 2\n\
          c finish main\n\
          c run main bytes 2 2\n\
          c finish main\n\
          c run main stop 00000000\n\
          c finish main\n\
          c ended main\n",
    )
}

#[test]
fn a_listener_that_fails_on_a_worker_cancels_in_front_of_what_waits(
    rt: HostRuntime,
) -> Result<(), Fail> {
    const STEPS: &[Do] = &[
        Do::Act,
        Do::Start(200),
        Do::Finish(MAIN),
        Do::StartSent,
        Do::Bytes(0, b"a"),
        Do::Bytes(1, b"b"),
        Do::Stop,
        Do::Release,
        Do::Begin(MAIN),
        Do::Begin(WORKER),
        Do::Begin(WORKER),
        Do::Finish(WORKER),
        Do::Begin(MAIN),
        Do::Begin(WORKER),
        Do::Begin(MAIN),
        Do::Begin(MAIN),
        Do::Begin(MAIN),
        Do::Begin(WORKER),
        Do::Begin(WORKER),
        Do::Begin(WORKER),
        Do::Begin(MAIN),
        Do::Begin(MAIN),
        Do::Finish(MAIN),
        Do::Begin(MAIN),
    ];
    enters(
        rt.alloc(),
        b"script 1\n\
          channel\n\
          hop response 200\npiece a\npiece b\nend ok\n\
          at start retarget w1\nat data 1 fail 80004005\n",
        STEPS,
        b"start 200 00000000\n\
          data 0 61\n\
          stop 80004005\n\
          end stopped\n\
          c open\n\
          c main start 0 00000000 200 0\n\
          c run main start 200 00000000\n\
          c finish main\n\
          c retarget w1\n\
          c back sent 0\n\
          c back bytes 0 00000000 0 1\n\
          c back bytes 0 00000000 1 1\n\
          c back stop 0 00000000\n\
          c release 3\n\
          c over main w1\n\
          c complete w1\n\
          c run w1 bytes 0 1\n\
          c finish w1\n\
          c prepend 80004005\n\
          c complete main\n\
          c over w1 main\n\
          c complete main\n\
          c run main cancel 80004005\n\
          c over main w1\n\
          c complete w1\n\
          c run w1 drop 1 80004005\n\
          c over w1 main\n\
          c complete main\n\
          c run main stop 80004005\n\
          c finish main\n\
          c ended main\n",
    )
}

#[test]
fn data_goes_to_a_worker_once_and_the_stop_stays_on_main(rt: HostRuntime) -> Result<(), Fail> {
    const STEPS: &[Do] = &[
        Do::Act,
        Do::Start(200),
        Do::StartSent,
        Do::Bytes(0, b"ab"),
        Do::Release,
        Do::Finish(MAIN),
        Do::Act,
        Do::Begin(MAIN),
        Do::Begin(WORKER),
        Do::Begin(WORKER),
        Do::Act,
        Do::Stop,
        Do::Finish(WORKER),
        Do::Begin(WORKER),
        Do::Begin(MAIN),
        Do::Begin(MAIN),
        Do::Finish(MAIN),
        Do::Begin(MAIN),
    ];
    enters(
        rt.alloc(),
        b"script 1\n\
          channel\n\
          hop response 200\npiece ab\nend ok\n\
          when 1 retarget w1\nwhen 1 retarget w2\n",
        STEPS,
        b"start 200 00000000\n\
          data 0 6162\n\
          stop 00000000\n\
          end stopped\n\
          c open\n\
          c main start 0 00000000 200 0\n\
          c run main start 200 00000000\n\
          c back sent 0\n\
          c back bytes 0 00000000 0 2\n\
          c release 1\n\
          c finish main\n\
          c retarget w1\n\
          c over main w1\n\
          c complete w1\n\
          c run w1 bytes 0 2\n\
          c refused already w1\n\
          c back stop 0 00000000\n\
          c finish w1\n\
          c over w1 main\n\
          c complete main\n\
          c run main stop 00000000\n\
          c finish main\n\
          c ended main\n",
    )
}

#[test]
fn a_break_before_the_start_is_a_start_and_a_stop_that_failed(rt: HostRuntime) -> Result<(), Fail> {
    const STEPS: &[Do] = &[
        Do::Act,
        Do::Act,
        Do::Start(200),
        Do::Finish(MAIN),
        Do::Begin(MAIN),
        Do::Finish(MAIN),
        Do::Begin(MAIN),
    ];
    enters(
        rt.alloc(),
        b"script 1\n\
          channel\n\
          hop response 200\npiece ab\npiece cd\nend ok\n\
          when 0 break 804b0014\n",
        STEPS,
        b"start 000 804b0014\n\
          stop 804b0014\n\
          end stopped\n\
          c open\n\
          c break 804b0014\n\
          c run main start 000 804b0014\n\
          c finish main\n\
          c run main stop 804b0014\n\
          c finish main\n\
          c ended main\n",
    )
}

#[test]
fn a_start_on_the_background_lane_is_posted_to_main(rt: HostRuntime) -> Result<(), Fail> {
    const STEPS: &[Do] = &[
        Do::Act,
        Do::BackStart(204),
        Do::Begin(MAIN),
        Do::Stop,
        Do::Begin(MAIN),
        Do::Finish(MAIN),
        Do::Begin(MAIN),
        Do::Finish(MAIN),
        Do::Begin(MAIN),
    ];
    enters(
        rt.alloc(),
        b"script 1\n\
          channel\n\
          hop response 204\nend ok\n\
          start back\n",
        STEPS,
        b"start 204 00000000\n\
          stop 00000000\n\
          end stopped\n\
          c open\n\
          c back bstart 0 00000000 204 0\n\
          c complete main\n\
          c back stop 0 00000000\n\
          c run main start 204 00000000\n\
          c finish main\n\
          c run main stop 00000000\n\
          c finish main\n\
          c ended main\n",
    )
}

#[test]
fn calls_that_come_too_late_have_no_effect(rt: HostRuntime) -> Result<(), Fail> {
    const STEPS: &[Do] = &[
        Do::Act,
        Do::Act,
        Do::Act,
        Do::Act,
        Do::Act,
        Do::Act,
        Do::Act,
        Do::Start(204),
        Do::StartSent,
        Do::Release,
        Do::Finish(MAIN),
        Do::Stop,
        Do::Begin(MAIN),
        Do::Finish(MAIN),
        Do::Begin(MAIN),
        Do::Act,
        Do::Act,
        Do::Act,
        Do::Act,
        Do::Act,
    ];
    enters(
        rt.alloc(),
        b"script 1\n\
          channel\n\
          hop response 204\nend ok\n\
          when 0 suspend\nwhen 0 resume\nwhen 0 resume\n\
          when 0 cancel 804b0002\nwhen 0 cancel 80004005\nwhen 0 retarget w1\n\
          when 2 suspend\nwhen 2 resume\nwhen 2 cancel 80004005\n\
          when 2 break 804b0014\nwhen 2 retarget w1\n",
        STEPS,
        b"start 204 804b0002\n\
          stop 804b0002\n\
          end stopped\n\
          c open\n\
          c suspend\n\
          c resume\n\
          c none\n\
          c cancel 804b0002\n\
          c none\n\
          c refused failed 804b0002\n\
          c main start 0 00000000 204 0\n\
          c run main start 204 804b0002\n\
          c back sent 0\n\
          c release 0\n\
          c finish main\n\
          c back stop 0 00000000\n\
          c run main stop 804b0002\n\
          c finish main\n\
          c ended main\n\
          c none\n\
          c none\n\
          c none\n\
          c none\n\
          c refused stopped\n",
    )
}

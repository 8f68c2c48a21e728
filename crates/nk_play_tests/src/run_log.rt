//! What `play log` prints of the journals: which message was sent and taken before which, and on which target each event
//! ran.

use crate::run_driver::answers;
use crate::scripts::joined;
use std::alloc::Global;
use std::test::Fail;

/// Plays a script of one channel with these lines, and compares what is printed: what its listener is shown, the parent's
/// journal, the number of messages that were moved on, and the child's journal.
fn logs(alloc: Global, lines: &[u8], printed: &[u8]) -> Result<(), Fail> {
    let script = joined(alloc, &[b"script 1\nchannel\n", lines])?;
    answers(alloc, &["play", "log"], script, (0, printed, b""))
}

#[test]
fn a_head_is_started_and_stopped(rt: HostRuntime) -> Result<(), Fail> {
    logs(
        rt.alloc(),
        b"hop response 204\nend ok\n",
        b"channel 1\n\
          start 204 00000000\n\
          stop 00000000\n\
          end stopped\n\
          p open\n\
          p send start 0 00000000 204 0\n\
          p send sent 0\n\
          p send stop 0 00000000\n\
          p deleting\n\
          forwarded 2\n\
          c open\n\
          c main start 0 00000000 204 0\n\
          c run main start 204 00000000\n\
          c back sent 0\n\
          c release 0\n\
          c finish main\n\
          c back stop 0 00000000\n\
          c run main stop 00000000\n\
          c finish main\n\
          c ended main\n",
    )
}

#[test]
fn a_start_may_come_on_the_background_lane(rt: HostRuntime) -> Result<(), Fail> {
    logs(
        rt.alloc(),
        b"hop response 204\nend ok\nstart back\n",
        b"channel 1\n\
          start 204 00000000\n\
          stop 00000000\n\
          end stopped\n\
          p open\n\
          p send bstart 0 00000000 204 0\n\
          p send stop 0 00000000\n\
          p deleting\n\
          forwarded 2\n\
          c open\n\
          c back bstart 0 00000000 204 0\n\
          c complete main\n\
          c back stop 0 00000000\n\
          c run main start 204 00000000\n\
          c finish main\n\
          c run main stop 00000000\n\
          c finish main\n\
          c ended main\n",
    )
}

#[test]
fn a_failed_opening_sends_nothing_on_the_background_lane(rt: HostRuntime) -> Result<(), Fail> {
    logs(
        rt.alloc(),
        b"hop fail 804b000d\n",
        b"channel 1\n\
          start 000 804b000d\n\
          stop 804b000d\n\
          end stopped\n\
          p open\n\
          p send failed 0 804b000d\n\
          p deleting\n\
          forwarded 0\n\
          c open\n\
          c main failed 0 804b000d\n\
          c run main start 000 804b000d\n\
          c finish main\n\
          c run main stop 804b000d\n\
          c finish main\n\
          c ended main\n",
    )
}

#[test]
fn what_is_held_is_released_behind_the_start(rt: HostRuntime) -> Result<(), Fail> {
    logs(
        rt.alloc(),
        b"hop response 200\npiece ab\npiece cd\nend ok\n\
          schedule\n\
          1 act\n1 up\n1 fetch\n1 fetch\n1 fetch\n1 fetch\n\
          1 forward\n1 forward\n1 forward\n1 forward\n\
          1 back\n1 back\n1 back\n1 back\n1 main\n1 release\n",
        b"channel 1\n\
          start 200 00000000\n\
          data 0 6162\n\
          data 2 6364\n\
          stop 00000000\n\
          end stopped\n\
          p open\n\
          p send start 0 00000000 200 0\n\
          p send sent 0\n\
          p send bytes 0 00000000 0 2\n\
          p send bytes 0 00000000 2 2\n\
          p send stop 0 00000000\n\
          p read 2\n\
          p read 2\n\
          p deleting\n\
          forwarded 4\n\
          c open\n\
          c back sent 0\n\
          c back bytes 0 00000000 0 2\n\
          c back bytes 0 00000000 2 2\n\
          c back stop 0 00000000\n\
          c main start 0 00000000 200 0\n\
          c run main start 200 00000000\n\
          c release 3\n\
          c finish main\n\
          c run main bytes 0 2\n\
          c finish main\n\
          c run main bytes 2 2\n\
          c finish main\n\
          c run main stop 00000000\n\
          c finish main\n\
          c ended main\n",
    )
}

#[test]
fn data_goes_to_the_first_worker(rt: HostRuntime) -> Result<(), Fail> {
    logs(
        rt.alloc(),
        b"hop response 200\npiece ab\nend ok\n\
          when 1 retarget w1\nwhen 1 retarget w2\n\
          schedule\n\
          1 act\n1 up\n1 fetch\n1 fetch\n1 forward\n1 forward\n\
          1 main\n1 back\n1 back\n1 release\n1 finish main\n\
          1 act\n1 begin main\n1 begin w1\n1 begin w1\n",
        b"channel 1\n\
          start 200 00000000\n\
          data 0 6162\n\
          stop 00000000\n\
          end stopped\n\
          p open\n\
          p send start 0 00000000 200 0\n\
          p send sent 0\n\
          p send bytes 0 00000000 0 2\n\
          p send stop 0 00000000\n\
          p read 2\n\
          p deleting\n\
          forwarded 3\n\
          c open\n\
          c main start 0 00000000 200 0\n\
          c run main start 200 00000000\n\
          c back sent 0\n\
          c back bytes 0 00000000 0 2\n\
          c release 1\n\
          c finish main\n\
          c retarget w1\n\
          c over main w1\n\
          c complete w1\n\
          c run w1 bytes 0 2\n\
          c refused already w1\n\
          c back stop 0 00000000\n\
          c finish w1\n\
          c over w1 main\n\
          c complete main\n\
          c run main stop 00000000\n\
          c finish main\n\
          c ended main\n",
    )
}

#[test]
fn a_channel_that_is_not_retargetable_refuses_a_worker(rt: HostRuntime) -> Result<(), Fail> {
    logs(
        rt.alloc(),
        b"hop response 200\npiece ab\nend ok\nretargetable no\nat start retarget w1\n",
        b"channel 1\n\
          start 200 00000000\n\
          data 0 6162\n\
          stop 00000000\n\
          end stopped\n\
          p open\n\
          p send start 0 00000000 200 0\n\
          p send sent 0\n\
          p send bytes 0 00000000 0 2\n\
          p send stop 0 00000000\n\
          p read 2\n\
          p deleting\n\
          forwarded 3\n\
          c open\n\
          c main start 0 00000000 200 0\n\
          c run main start 200 00000000\n\
          c back sent 0\n\
          c release 0\n\
          c finish main\n\
          c refused notretargetable\n\
          c back bytes 0 00000000 0 2\n\
          c run main bytes 0 2\n\
          c finish main\n\
          c back stop 0 00000000\n\
          c run main stop 00000000\n\
          c finish main\n\
          c ended main\n",
    )
}

#[test]
fn a_break_runs_a_start_and_a_stop(rt: HostRuntime) -> Result<(), Fail> {
    logs(
        rt.alloc(),
        b"hop response 200\npiece ab\npiece cd\nend ok\nwhen 0 break 804b0014\n",
        b"channel 1\n\
          start 000 804b0014\n\
          stop 804b0014\n\
          end stopped\n\
          p open\n\
          p send start 0 00000000 200 0\n\
          p send sent 0\n\
          p send bytes 0 00000000 0 2\n\
          p send bytes 0 00000000 2 2\n\
          p deleting\n\
          forwarded 3\n\
          c open\n\
          c break 804b0014\n\
          c run main start 000 804b0014\n\
          c finish main\n\
          c run main stop 804b0014\n\
          c finish main\n\
          c ended main\n",
    )
}

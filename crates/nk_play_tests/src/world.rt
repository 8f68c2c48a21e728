//! What the steps of a world answer, and what is left of a world that was played.

ghost use Rattle.std.specs.Prelude.{◌<◌, length, IfOk};

use crate::scripts::{compare, script};
use nk_base::{Moved, Target};
use nk_plan::{Ending, Ends, Step};
use nk_trace::report;
use nk_world::World;
use std::alloc::Global;
use std::test::Fail;

/// The world of a script.
fn world(alloc: Global, text: &[u8]) -> Result<World, Fail>
    ensures { IfOk result (λ w. 0 < length w.plays) }
{
    let plans = script(alloc, text)?.plans;
    Ok(World::new(alloc, plans)?)
}

/// The report of these ends, with their journals.
fn report_of(alloc: Global, ends: &Ends) -> Result<Vec<u8>, Fail> {
    if !ends
        .as_slice()
        .iter()
        .all(|end| end.ending != Ending::Going)
    {
        Err("a channel is still going")?
    }
    Ok(report(alloc, ends, true)?)
}

/// Makes these steps of the first channel, and compares what each answers.
fn make(world: &mut World, rows: &[(Step, Moved)]) -> Result<(), Fail>
    requires { 0 < length world.old.plays }
{
    for &(step, moved) in rows {
        if world.step(1, step)? != moved {
            Err(step)?
        }
    }
    Ok(())
}

/// Makes these steps, and then the drain.
fn play(world: &mut World, rows: &[(Step, Moved)]) -> Result<(), Fail>
    requires { 0 < length world.old.plays }
{
    make(world, rows)?;
    world.drain()?;
    Ok(())
}

/// The report of the world after these steps and the drain.
fn left(alloc: Global, mut world: World, rows: &[(Step, Moved)]) -> Result<Vec<u8>, Fail>
    requires { 0 < length world.plays }
{
    let played = play(&mut world, rows);
    let ends = world.into_ends();
    played?;
    report_of(alloc, &ends?)
}

/// Makes these steps of this script's first channel, drains it, and compares what they answer and what is left.
fn plays(alloc: Global, text: &[u8], rows: &[(Step, Moved)], want: &[u8]) -> Result<(), Fail> {
    let world = world(alloc, text)?;
    compare(left(alloc, world, rows)?, want)
}

/// A channel that loads one piece of twenty bytes.
const SCRIPT: &[u8] = b"script 1\nchannel\nhop response 200\nfill 61 20\nend ok\nwindow 1024\n";

/// What is left of it.
const REPORT: &[u8] = b"channel 1\n\
      start 200 00000000\n\
      data 0 6161616161616161616161616161616161616161\n\
      stop 00000000\n\
      end stopped\n\
      p open\n\
      p send start 0 00000000 200 0\n\
      p send sent 0\n\
      p send bytes 0 00000000 0 20\n\
      p send stop 0 00000000\n\
      p read 20\n\
      p deleting\n\
      forwarded 3\n\
      c open\n\
      c main start 0 00000000 200 0\n\
      c run main start 200 00000000\n\
      c back sent 0\n\
      c release 0\n\
      c finish main\n\
      c back bytes 0 00000000 0 20\n\
      c run main bytes 0 20\n\
      c finish main\n\
      c back stop 0 00000000\n\
      c run main stop 00000000\n\
      c finish main\n\
      c ended main\n";

#[test]
fn a_response_is_played_to_its_stop(rt: HostRuntime) -> Result<(), Fail> {
    plays(rt.alloc(), SCRIPT, &[], REPORT)
}

#[test]
fn a_step_that_is_not_enabled_is_idle(rt: HostRuntime) -> Result<(), Fail> {
    const STEPS: &[(Step, Moved)] = &[
        (Step::Main, Moved::Idle),
        (Step::Verdict, Moved::Idle),
        (Step::Fetch, Moved::Idle),
        (Step::Up, Moved::Idle),
        (Step::Forward, Moved::Idle),
        (Step::Back, Moved::Idle),
        (Step::Release, Moved::Idle),
        (Step::Begin(Target::Main), Moved::Idle),
        (Step::Finish(Target::Main), Moved::Idle),
        (Step::Act, Moved::Did),
        (Step::Act, Moved::Idle),
        (Step::Up, Moved::Did),
        (Step::Up, Moved::Idle),
        (Step::Read(1), Moved::Idle),
    ];
    plays(rt.alloc(), SCRIPT, STEPS, REPORT)
}

#[test]
fn both_readers_of_a_pipe_get_the_whole_body(rt: HostRuntime) -> Result<(), Fail> {
    plays(
        rt.alloc(),
        b"script 1\n\
          channel\n\
          hop response 200\nfill 61 20\nend ok\n\
          listener pipe 4 2 2\nwindow 1024\n",
        &[],
        b"channel 1\n\
          start 200 00000000\n\
          data 0 6161616161616161616161616161616161616161\n\
          stop 00000000\n\
          reader 1 20 6161616161616161616161616161616161616161 00000000\n\
          reader 2 20 6161616161616161616161616161616161616161 00000000\n\
          end stopped\n\
          p open\n\
          p send start 0 00000000 200 0\n\
          p send sent 0\n\
          p send bytes 0 00000000 0 20\n\
          p send stop 0 00000000\n\
          p read 20\n\
          p deleting\n\
          forwarded 3\n\
          c open\n\
          c main start 0 00000000 200 0\n\
          c run main start 200 00000000\n\
          c back sent 0\n\
          c release 0\n\
          c finish main\n\
          c back bytes 0 00000000 0 20\n\
          c run main bytes 0 20\n\
          c finish main\n\
          c back stop 0 00000000\n\
          c run main stop 00000000\n\
          c finish main\n\
          c ended main\n",
    )
}

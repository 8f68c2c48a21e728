// The world: the channels of some plans, at play.

ghost use Rattle.std.specs.Prelude.{◌≡◌, ◌≤◌, ◌++◌, ◌∷◌, [], length, map, false, true, All, IfOk, OnOk, OnErr};
ghost use Rattle.std.specs.List.{AllZip};
ghost use Rattle.nk_base.specs.declared.status.Moved.TheVariants as moved;
ghost use Rattle.nk_plan.specs.Accepted.{Accepted};
ghost use Rattle.nk_base.specs.Status.{moved_if};
ghost use Rattle.nk_world.specs.End.{end_of, IsEnd};
ghost use Rattle.nk_world.specs.Parts.{play_of, new_playing, IsSound, DrainsTo};
ghost use Rattle.nk_world.specs.Play.{IsQuiet};
ghost use Rattle.nk_world.specs.World.{new_world, world_step, world_enabled, plans_of, AreDrained};

use crate::laws::play_law;
use crate::playing::Playing;
use nk_base::{Memory, Moved};
use nk_half_laws::offsets::offsets_law;
use nk_laws::{calm_law, ending_law, merge_law, moves_law, order_law, state_law};
use nk_plan::{Ends, Plans, Step};
use nk_sink::readers_law;
use std::alloc::Global;
use std::marker::Model;

/// The channels of some plans, at play: a schedule of steps, then a drain of all. This project's own.
#[derive(Drop)]
pub struct World {
    channels: Vec<Playing>,
    // Whether a step met want of memory. Its channel's parts may then no longer fit together.
    failed: bool,
    alloc: Global,
}

impl Model for World {
    ghost use Rattle.std.specs.Prelude.{◌≡◌, false, map, All};
    ghost use Rattle.nk_world.specs.World.{WorldView};
    ghost use Rattle.nk_world.specs.Parts.{play_of, IsSound};

    ghost Value = { WorldView };

    ghost view = { λ s. record { plays = map play_of s.channels.items; failed = s.failed } };

    ghost invariant = { λ s. s.failed ≡ false → All IsSound s.channels.items };
}

impl World {
    /// The channels of these plans before their first step.
    pub fn new(alloc: Global, plans: Plans) -> Result<World, Memory>
        requires { length plans ≤ 1024 }
        ensures world { IfOk result (λ w. w ≡ new_world plans) }
        ensures plans { IfOk result (λ w. plans_of w ≡ plans) }
    {
        plans.accepted_law();
        let channels = play_all(alloc, &plans)?;
        Ok(World {
            channels,
            failed: false,
            alloc,
        })
    }

    /// Makes a step of a channel, counted from 1, where it is enabled; else it is `Idle` and changes nothing. After
    /// `Memory` every later call answers `Memory`.
    pub fn step(&mut self, channel: u32, step: Step) -> Result<Moved, Memory>
        requires first { 1 ≤ channel }
        requires last { channel ≤ length self.old.plays }
        ensures state { OnOk result (self.new ≡ record { plays = world_step channel step self.old.plays; failed = false }) }
        ensures answer { IfOk result (λ r. r ≡ moved_if (world_enabled channel step self.old.plays)) }
        ensures idle { IfOk result (λ r. r ≡ moved.Idle → self.new ≡ self.old) }
        ensures plans { OnOk result (plans_of self.new ≡ plans_of self.old) }
        ensures works { OnOk result (self.old.failed ≡ false) }
        ensures err { OnErr result (self.new.failed ≡ true) }
        ensures count { length self.new.plays ≡ length self.old.plays }
    {
        play_law();
        if self.failed {
            return Err(Memory);
        }
        match self.channels[channel as usize - 1].step(step) {
            Ok(moved) => Ok(moved),
            Err(e) => {
                self.failed = true;
                Err(e)
            }
        }
    }

    /// Goes on in rounds over all channels, until one in which every step was idle. Channels do not touch each other, so
    /// each is drained by itself. After `Memory` every later call answers `Memory`.
    pub fn drain(&mut self) -> Result<(), Memory>
        ensures drained { OnOk result (AreDrained self.old.plays self.new.plays) }
        ensures plans { OnOk result (plans_of self.new ≡ plans_of self.old) }
        ensures works { OnOk result (self.old.failed ≡ false) }
        ensures ok { OnOk result (self.new.failed ≡ false) }
        ensures err { OnErr result (self.new.failed ≡ true) }
        ensures count { length self.new.plays ≡ length self.old.plays }
    {
        play_law();
        if self.failed {
            return Err(Memory);
        }
        match drain_all(&mut self.channels) {
            Ok(()) => Ok(()),
            Err(e) => {
                self.failed = true;
                Err(e)
            }
        }
    }

    /// What each channel leaves, in their order, with what its listener was shown; and once the world was drained, all
    /// that is promised of it.
    pub fn into_ends(self) -> Result<Ends, Memory>
        ensures ends { IfOk result (λ r. r ≡ map end_of self.plays) }
        ensures works { OnOk result (self.failed ≡ false) }
        ensures promised { IfOk result (λ r. All IsQuiet self.plays → AllZip IsEnd (plans_of self) r) }
    {
        moves_law();
        order_law();
        merge_law();
        state_law();
        ending_law();
        calm_law();
        offsets_law();
        readers_law();
        let World {
            channels,
            failed,
            alloc,
        } = self;
        if failed {
            return Err(Memory);
        }
        take_ends(alloc, channels)
    }
}

/// The channels of these plans, before their first step.
fn play_all(alloc: Global, plans: &Plans) -> Result<Vec<Playing>, Memory>
    requires { All Accepted plans.now }
    ensures { IfOk result (λ r. r.items ≡ map new_playing plans.now) }
{
    let mut channels = Vec::new(alloc);
    for plan in plans.as_slice() {
        add(&mut channels, Playing::new(alloc, plan)?)?;
    }
    Ok(channels)
}

/// Adds a channel behind the others.
fn add(channels: &mut Vec<Playing>, channel: Playing) -> Result<(), Memory>
    ensures { OnOk result (channels.new.items ≡ channels.old.items ++ channel ∷ []) }
{
    match channels.push(channel) {
        Ok(()) => Ok(()),
        Err(_) => Err(Memory),
    }
}

/// What each channel leaves.
fn take_ends(alloc: Global, channels: Vec<Playing>) -> Result<Ends, Memory>
    ensures { IfOk result (λ r. r ≡ map end_of (map play_of channels.items)) }
{
    let mut ends = Ends::new(alloc);
    for channel in channels {
        ends.push(channel.into_end()?)?;
    }
    Ok(ends)
}

/// Drains each channel.
fn drain_all(channels: &mut [Playing]) -> Result<(), Memory>
    requires { All IsSound channels.old }
    ensures { OnOk result (AllZip DrainsTo channels.old channels.new) }
{
    for channel in channels {
        channel.drain()?;
    }
    Ok(())
}

// One channel of a world, and its listener.

ghost use Rattle.std.specs.Prelude.{◌≡◌, ◌+◌, ◌<◌, ◌^◌, [], length, IfOk, OnOk, not, false};
ghost use Rattle.nk_plan.specs.Accepted.{Accepted};
ghost use Rattle.nk_channel.specs.Parts.{parts_enabled};
ghost use Rattle.nk_base.specs.Status.{moved_if};
ghost use Rattle.nk_sink.specs.Listener.{entered_all};
ghost use Rattle.nk_world.specs.End.{end_of};
ghost use Rattle.nk_world.specs.Play.{play_step, play_enabled, tried, are_idle, either};
ghost use Rattle.nk_world.specs.Parts.{play_of, new_playing, lane, heard, advanced, HasRoom, IsSound, DrainsTo};

use crate::laws::play_law;
use crate::round::round_steps;
use nk_base::{Entry, Memory, Moved, OutList};
use nk_channel::Channel;
use nk_drain::falls_law;
use nk_plan::{ChannelEnd, ChannelPlan, Step};
use nk_sink::{Listener, reads_law};
use std::alloc::Global;

/// One channel of a world, and the listener that is shown the load.
#[derive(Drop)]
pub(crate) struct Playing {
    channel: Channel,
    listener: Listener,
    // Empty between two steps.
    delivery: OutList<Entry>,
}

impl Playing {
    /// The channel of a plan, before its first step.
    pub(crate) fn new(alloc: Global, plan: &ChannelPlan) -> Result<Playing, Memory>
        requires { Accepted plan.now }
        ensures { IfOk result (λ r. r ≡ new_playing plan.now) }
    {
        let listener = Listener::new(alloc, plan.listener)?;
        let channel = Channel::new(alloc, plan)?;
        Ok(Playing {
            channel,
            listener,
            delivery: OutList::new(alloc),
        })
    }

    /// The entries that were delivered are handed to the listener.
    fn hand_over(&mut self) -> Result<(), Memory>
        requires few { length self.old.listener.listener.entries + length self.old.delivery.held < 2 ^ 32 }
        requires staged { self.old.delivery.staged ≡ [] }
        requires works { self.old.listener.failed ≡ false }
        ensures { OnOk result (self.new ≡ record self.old { delivery = lane []; listener = heard (entered_all self.old.delivery.held self.old.listener.listener) }) }
    {
        while let Some(entry) = self.delivery.take() {
            self.listener.entry(entry)?;
        }
        Ok(())
    }

    /// A step of the channel: what the child shows is handed to the listener.
    fn advance(&mut self, step: Step) -> Result<Moved, Memory>
        requires { HasRoom step self.old }
        ensures state { OnOk result (self.new ≡ advanced step self.old) }
        ensures answer { IfOk result (λ r. r ≡ moved_if (parts_enabled step self.old.channel)) }
    {
        let moved = self.channel.step(step, &mut self.delivery)?;
        self.hand_over()?;
        Ok(moved)
    }

    /// Makes a step, where it is enabled; else it is `Idle` and changes nothing. After `Memory` the entries that were
    /// delivered may not all be handed over.
    pub(crate) fn step(&mut self, step: Step) -> Result<Moved, Memory>
        requires { IsSound self.old }
        ensures sound { OnOk result (IsSound self.new) }
        ensures state { OnOk result (play_of self.new ≡ play_step step (play_of self.old)) }
        ensures answer { IfOk result (λ r. r ≡ moved_if (play_enabled step (play_of self.old))) }
    {
        play_law();
        match step {
            Step::Read(reader) => self.listener.read(reader),
            _ => self.advance(step),
        }
    }

    /// Tries these steps, in their order. It has moved where one of them was not idle.
    fn try_all(&mut self, steps: &[Step]) -> Result<Moved, Memory>
        requires { IsSound self.old }
        ensures sound { OnOk result (IsSound self.new) }
        ensures state { OnOk result (play_of self.new ≡ tried steps.now (play_of self.old)) }
        ensures answer { IfOk result (λ r. r ≡ moved_if (not (are_idle steps.now (play_of self.old)))) }
    {
        play_law();
        let mut moved = Moved::Idle;
        for step in steps {
            moved = either(moved, self.step(*step)?);
        }
        Ok(moved)
    }

    /// Goes on in rounds, until one in which every step was idle.
    pub(crate) fn drain(&mut self) -> Result<(), Memory>
        requires { IsSound self.old }
        ensures { OnOk result (DrainsTo self.old self.new) }
    {
        play_law();
        falls_law();
        reads_law();
        loop {
            match self.try_all(round_steps())? {
                Moved::Did => {}
                Moved::Idle => return Ok(()),
            }
        }
    }

    /// What the channel leaves, with what its listener was shown.
    pub(crate) fn into_end(self) -> Result<ChannelEnd, Memory>
        ensures { IfOk result (λ r. r ≡ end_of (play_of self)) }
    {
        let ending = self.channel.ending();
        let forwarded = self.channel.forwarded();
        let (trace, readers) = self.listener.into_parts();
        let (parent, child) = self.channel.into_journals();
        Ok(ChannelEnd {
            trace,
            readers: readers?,
            ending,
            parent,
            child,
            forwarded,
        })
    }
}

/// Of two answers, whether one says that a step was made.
fn either(before: Moved, now: Moved) -> Moved
    ensures { result ≡ either before now }
{
    match now {
        Moved::Did => Moved::Did,
        Moved::Idle => before,
    }
}

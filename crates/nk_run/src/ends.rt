// What the channels of a script come to: the steps of its schedule, and then the drain.

ghost use Rattle.std.specs.Prelude.{IfOk};
ghost use Rattle.nk_script.specs.Answers.{IsPlayable};
ghost use Rattle.nk_run.specs.Ends.{AreEndsOf, AreEnds};

use nk_base::Memory;
use nk_plan::Ends;
use nk_script::Script;
use nk_world::World;
use std::alloc::Global;

/// The ends of the channels of a script: the steps of its schedule are tried in order, and then all channels are drained.
pub(crate) fn ends_of(alloc: Global, script: Script) -> Result<Ends, Memory>
    requires { IsPlayable script }
    ensures ends { IfOk result (λ ends. AreEndsOf script ends) }
    ensures promised { IfOk result (λ ends. AreEnds script.plans ends) }
{
    let Script { plans, schedule } = script;
    let mut world = World::new(alloc, plans)?;
    for item in schedule.as_slice() {
        world.step(item.channel, item.step)?;
    }
    world.drain()?;
    world.into_ends()
}

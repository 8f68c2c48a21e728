// The laws of the drain. A law is a function that does nothing: its contract is what is proved, for all plans and every
// schedule.

ghost use Rattle.nk_world.specs.Laws.{PlayLaws, NewLaw, StepLaw, EndsLaw, OneLaw};

use nk_channel::channel_law;
use nk_drain::{falls_law, idle_law};
use nk_sink::reads_law;

/// The drain of a world ends, whatever its schedule was, and what it leaves is one.
pub fn drain_law()
    ensures new { NewLaw }
    ensures step { StepLaw }
    ensures ends { EndsLaw }
    ensures one { OneLaw }
{
    play_law();
    falls_law();
    reads_law();
}

/// What the layers below say of a step of a channel at play.
pub(crate) fn play_law()
    ensures { PlayLaws }
{
    channel_law();
    idle_law();
    reads_law();
}

// The laws of the drain. A law is a function that does nothing: its contract is what is proved, for every plan and every
// order of steps.

ghost use Rattle.nk_drain.specs.Laws.{FallsLaw, IdleLaw, LeftLaw, RoundLaw};

use nk_half_laws::falls::{child_falls_law, combined_falls_law, parent_falls_law};
use nk_laws::moves_law;

/// Each step that is enabled leaves a channel less to do: its work falls, or stays while its queue's
/// number falls. So one number falls with each such step, and with each round that has one.
pub fn falls_law()
    ensures step { FallsLaw }
    ensures left { LeftLaw }
    ensures round { RoundLaw }
{
    moves_law();
    child_falls_law();
    parent_falls_law();
    combined_falls_law();
    idle_law();
}

/// A step that is not enabled changes nothing.
pub fn idle_law()
    ensures { IdleLaw }
{
    child_falls_law();
    parent_falls_law();
}

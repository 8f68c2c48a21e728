// The laws of a channel's parts. A law is a function that does nothing: its contract is what is proved.

ghost use Rattle.nk_channel.specs.Laws.{StepLaw, EnabledLaw, IdleLaw, GrowsLaw, RoomyLaw, ShownLaw};

use nk_half_laws::capacity::{child_sends_law, parent_sends_law};
use nk_half_laws::falls::{child_falls_law, parent_falls_law};
use nk_half_laws::growth::growth_law;
use nk_laws::moves_law;

/// Where the lists hold what the journals say, a step of the parts is the step of the whole channel, and is enabled exactly
/// where that one is; and such parts always have the room that a step asks for. Whatever the lists hold, a step that is not
/// enabled changes nothing, and what a step shows is the end of the trace.
pub fn channel_law()
    ensures step { StepLaw }
    ensures enabled { EnabledLaw }
    ensures idle { IdleLaw }
    ensures grows { GrowsLaw }
    ensures roomy { RoomyLaw }
    ensures shown { ShownLaw }
{
    moves_law();
    child_falls_law();
    parent_falls_law();
    growth_law();
    child_sends_law();
    parent_sends_law();
}

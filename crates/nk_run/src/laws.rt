// A law is a function that does nothing: its contract is what is proved, for every text, of any length.

ghost use Rattle.nk_run.specs.Laws.{PlayLaw};

use nk_script_law::script_law;
use nk_world::drain_law;

/// A text of a script has one play: its steps and the drain lead to the ends of its channels, and to no others. This project's
/// own.
pub fn play_law()
    ensures { PlayLaw }
{
    script_law();
    drain_law();
}

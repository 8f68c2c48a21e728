// What the walk over the entries of two journals says of the runs that left them. A law is a function that does nothing: its
// contract is what is proved.

ghost use Rattle.nk_walk_law.specs.Laws.{BlocksLaw, RunLaw, StepsLaw};

use nk_laws::{journal_law, state_law, walk_law};
use nk_walk::{cut_law, placed_law};

/// The entries of a journal are the blocks of its run, each cut into its entries: the first takes
/// what the block takes, and the others take nothing. So it is on either side, for all steps.
pub fn blocks_law()
    ensures { BlocksLaw }
{
    journal_law();
}

/// The walk over the entries of two journals places those that the steps of the placed blocks
/// entered, and as many forwards as the walk over the blocks.
pub fn steps_law()
    ensures { StepsLaw }
{
    journal_law();
    cut_law();
    placed_law();
}

/// A run of each half, of which the child took no more than was sent and moved, are a run of a whole
/// channel exactly where the parent took no more than the child's journal tells was sent, and the
/// walk over their entries places everything.
pub fn run_law()
    ensures { RunLaw }
{
    journal_law();
    state_law();
    walk_law();
}

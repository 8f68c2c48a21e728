// The laws over the definitions. A law is a function that does nothing: its contract is what is proved, for every plan,
// every run and every order of steps.

ghost use Rattle.nk_laws.specs.Laws.{LanesLaw, JoinedLaw, MovesLaw, MergeLaw, RunLaw, HopLaw, FailureLaw, CountsLaw, BoundsLaw, SendsLaw, StateLaw, OrderRunsLaw, RunOrderLaw, GreedyLaw, KeepLaw, StuckLaw, EntriesLaw, EndingToldLaw, EndingLaw, BrokenLaw, CalmLaw, ClosedLaw};

use nk_half_laws::growth::{growth_law, told_law};
use nk_half_laws::pieces::shown_law;
use nk_half_laws::settled::{child_queue_law, child_rest_law, parent_end_law, suspend_law};

/// What a parent sends obeys the lane law, whatever messages come from the page's side.
pub fn lanes_law()
    ensures { LanesLaw }
{}

/// In a whole channel each side took what begins what the other sent, and each step takes off a
/// lane's front and adds to a lane's end.
pub fn moves_law()
    ensures joined { JoinedLaw }
    ensures moves { MovesLaw }
{}

/// What a child shows, of what it took of a parent's two lanes, is the trace of one sequential
/// channel. Once its start has run, its final hop is the hop of that start.
pub fn merge_law()
    ensures down { MergeLaw }
    ensures run { RunLaw }
    ensures hop { HopLaw }
{}

/// What a child's journal says: its first failure, its final hop and its counts are those of the
/// child, no piece runs behind a failure, it bounds the counts of the queue, and its entries name
/// all that the child sent.
pub fn journal_law()
    ensures failure { FailureLaw }
    ensures counts { CountsLaw }
    ensures bounds { BoundsLaw }
    ensures sends { SendsLaw }
{
    child_queue_law();
    growth_law();
}

/// The state that a run leaves is a function of its journal, on each side.
pub fn state_law()
    ensures { StateLaw }
{}

/// Every order of steps of a whole channel gives a run, and every run comes from one.
pub fn order_law()
    ensures run { OrderRunsLaw }
    ensures order { RunOrderLaw }
{}

/// The greedy walk places everything exactly where some order does; whatever it places, nothing
/// is lost; and it may go entry by entry.
pub fn walk_law()
    ensures greedy { GreedyLaw }
    ensures keep { KeepLaw }
    ensures stuck { StuckLaw }
    ensures entries { EntriesLaw }
{
    growth_law();
}

/// Where no step that a drain tries is enabled, the ending is not `Going`. Once a channel is
/// broken, its stop was shown or waits.
pub fn ending_law()
    ensures told { EndingToldLaw }
    ensures ends { EndingLaw }
    ensures broken { BrokenLaw }
{
    growth_law();
    told_law();
    shown_law();
    child_rest_law();
    child_queue_law();
    parent_end_law();
    suspend_law();
}

/// What a run of a calm plan was shown, once it has stopped, is the plan's calm trace, and it is
/// never left suspended. A run of a closed plan does nothing.
pub fn calm_law()
    ensures calm { CalmLaw }
    ensures closed { ClosedLaw }
{
    growth_law();
    told_law();
    shown_law();
    child_rest_law();
    child_queue_law();
    parent_end_law();
    suspend_law();
}

// Changes of the segments from one on, and what becomes of those at the front.

ghost use Rattle.std.specs.Prelude.{◌≡◌};
ghost use Rattle.nk_chain.specs.Chain.{IsLive, PlacesDiffer};
ghost use Rattle.nk_segments.specs.Segments.{raised, lowered, changed_from, since, needed, AreBelowEight, AreHeld};

use crate::segment::Segment;
use nk_chain::{Chain, Place};

/// Raises the counts from this segment on.
pub(crate) fn raise_from(chain: &mut Chain<Segment>, place: Place)
    requires live { IsLive chain.old.items place }
    requires below { AreBelowEight (since chain.old.items place) }
    ensures items { chain.new.items ≡ changed_from raised chain.old.items place }
{
    let _ = chain.first();
    let mut at = Some(place);
    while let Some(here) = at {
        let after = chain.next(here);
        chain.get_mut(here).raise();
        at = after;
    }
}

/// Lowers the counts from this segment on.
pub(crate) fn lower_from(chain: &mut Chain<Segment>, place: Place)
    requires live { IsLive chain.old.items place }
    requires held { AreHeld (since chain.old.items place) }
    ensures items { chain.new.items ≡ changed_from lowered chain.old.items place }
{
    let _ = chain.first();
    let mut at = Some(place);
    while let Some(here) = at {
        let after = chain.next(here);
        chain.get_mut(here).lower();
        at = after;
    }
}

/// Gives the segments at the front back that no reader needs.
pub(crate) fn give_back(chain: &mut Chain<Segment>)
    ensures items { chain.new.items ≡ needed chain.old.items }
{
    while let Some(front) = chain.first() {
        if chain.get(front).is_needed() {
            return;
        }
        chain.pop_front();
    }
}

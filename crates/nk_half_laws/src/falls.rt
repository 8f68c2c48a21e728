// What each step lowers, for every accepted plan and every list of steps of a half. A law is a function that does nothing:
// its contract is what is proved.

ghost use Rattle.nk_half_laws.specs.Falls.{ChildFallsLaw, ChildIdleLaw, ChildKeepsLaw, CombinedChildLaw, CombinedFetchLaw, CombinedNumberLaw, CombinedQueueLaw, CombinedUpLaw, FetchFallsLaw, FetchIdleLaw, SystemFallsLaw, SystemRunLaw, UpFallsLaw};

/// A step of a child lowers its work by more than what it sends and shows weighs, but for the
/// message that it takes; or it lowers the queue's number alone.
pub fn child_falls_law()
    ensures falls { ChildFallsLaw }
    ensures keeps { ChildKeepsLaw }
    ensures idle { ChildIdleLaw }
{}

/// A fetch lowers the parent's work by more than what it sends weighs; a message of the up lane
/// adds nothing to it.
pub fn parent_falls_law()
    ensures fetch { FetchFallsLaw }
    ensures up { UpFallsLaw }
    ensures idle { FetchIdleLaw }
{}

/// Each move of the two halves falls, whatever the lanes hold, where what is taken is the first of
/// a lane and what is sent goes to its end. So one number falls, and no run of moves is longer.
pub fn system_falls_law()
    ensures falls { SystemFallsLaw }
    ensures run { SystemRunLaw }
{}

/// Any system of two halves falls by each of these steps, if what is on its way grows by no more
/// than what was sent and shown; and one number tells it.
pub fn combined_falls_law()
    ensures child { CombinedChildLaw }
    ensures fetch { CombinedFetchLaw }
    ensures up { CombinedUpLaw }
    ensures number { CombinedNumberLaw }
    ensures queue { CombinedQueueLaw }
{}

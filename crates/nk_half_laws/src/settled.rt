// Halves of which no step is enabled, what a child's queue stands at, and which suspend is in force. A law is a function
// that does nothing: its contract is what is proved.

ghost use Rattle.nk_half_laws.specs.Settled.{ChildQueueLaw, ChildRestLaw, ChildSuspendLaw, ParentEndLaw, ParentRestLaw, ParentSuspendLaw, SuspendsAgreeLaw};

/// No step of a child is enabled, but a call of the page and the taking of a message, exactly where
/// it is idle: nothing runs or is to run, and no question is open and no release noted, unless the
/// child is broken. Where an idle child is not suspended, no event waits.
pub fn child_rest_law()
    ensures { ChildRestLaw }
{}

/// The queue of a child is suspended as often as the child is, and forced while a start or a stop
/// runs. What runs is on the target of the flush.
pub fn child_queue_law()
    ensures { ChildQueueLaw }
{}

/// A parent that is not suspended may not fetch exactly where it waits for the page, to open the
/// channel, to answer on a redirect, or to read; or where its load is over.
pub fn parent_rest_law()
    ensures { ParentRestLaw }
{}

/// The load is over exactly where the parent has sent a stop or a failed opening, or has heard
/// that the page is done.
pub fn parent_end_law()
    ensures { ParentEndLaw }
{}

/// Each half is suspended exactly where the last suspend or resume that it took, or sent, is a
/// suspend. So a parent that has taken all that a child has sent is suspended exactly where the
/// child is.
pub fn suspend_law()
    ensures parent { ParentSuspendLaw }
    ensures child { ChildSuspendLaw }
    ensures both { SuspendsAgreeLaw }
{}

// How much each half sends and shows at most, for every accepted plan and every list of steps. A law is a function that
// does nothing: its contract is what is proved.

ghost use Rattle.nk_half_laws.specs.Capacity.{ChildLeftLaw, ChildRoomLaw, ChildSendsLaw, ChildShowsLaw, HalfRoomLaw, ParentRoomLaw, ParentSendsLaw};

/// A child sends no more messages than it took, and two for each call of the page, and four. It
/// shows no more than two entries for each message of the main lane, one for each of the background
/// lane, and two. Both stay so with what it may still send and show of what it has taken.
pub fn child_sends_law()
    ensures sends { ChildSendsLaw }
    ensures shows { ChildShowsLaw }
    ensures left { ChildLeftLaw }
{}

/// A child that took no more than its two rings can give has four free places on its up ring at
/// each moment, and one on its delivery ring.
pub fn child_room_law()
    ensures { ChildRoomLaw }
{}

/// A parent sends fewer than two messages for each hop on the main lane, and hands no more than one
/// for each piece of the plan's body, and two, to its background half, whatever it hears.
pub fn parent_sends_law()
    ensures { ParentSendsLaw }
{}

/// The two rings of a parent have two free places at each moment, and the ring from its background
/// half to the child has three.
pub fn parent_room_law()
    ensures parent { ParentRoomLaw }
    ensures half { HalfRoomLaw }
{}

// What each half sends is in range, for every accepted plan and every list of steps. A law is a function that does
// nothing: its contract is what is proved.

ghost use Rattle.nk_half_laws.specs.Ranges.{ChannelRangeLaw, ChildRangeLaw, JournalRangeLaw, ParentRangeLaw};

/// Each message that a parent sends is in range, where the plan's heads and pieces are good ones.
pub fn parent_range_law()
    ensures { ParentRangeLaw }
{}

/// Each message that a child sends is in range, where those are that its steps bring, or those that
/// its journal says it took.
pub fn child_range_law()
    ensures steps { ChildRangeLaw }
    ensures journal { JournalRangeLaw }
{}

/// Each message that a half of a whole channel sends is in range, where the plan's heads and pieces
/// are good ones.
pub fn channel_range_law()
    ensures { ChannelRangeLaw }
{}

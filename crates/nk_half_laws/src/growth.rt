// What a step of a child adds. A law is a function that does nothing: its contract is what is proved.

ghost use Rattle.nk_half_laws.specs.Growth.{GrowthLaw, ToldLaw};

/// A step of a child, from any state, adds to the ends of the journal, of what was sent and of what
/// was shown, as its entries say, and takes its own message or none.
pub fn growth_law()
    ensures { GrowthLaw }
{}

/// The trace of a child is, entry for entry, what its journal says, but for the bytes of pieces.
pub fn told_law()
    ensures { ToldLaw }
{}

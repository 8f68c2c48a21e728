// The laws of what a walk leaves. A law is a function that does nothing: its contract is what is proved.

ghost use Rattle.nk_walk.specs.CutLaws.{AllCutLaw, CountLaw, CutLaw};
ghost use Rattle.nk_walk.specs.DownLaws.{DownLaw, FirstLaw};
ghost use Rattle.nk_walk.specs.Laws.{AllLaw, FrontLaw, KeepLaw, LeftLaw, PlacedLaw, WaitLaw};

/// What a walk leaves does not depend on the order in which the items are placed. Where it ends, the
/// next item of each list takes a message that was not sent.
pub fn placed_law()
    ensures placed { PlacedLaw }
    ensures left { LeftLaw }
    ensures keep { KeepLaw }
    ensures all { AllLaw }
    ensures wait { WaitLaw }
    ensures front { FrontLaw }
{}

/// The walk over blocks and the walk over their entries, one by one, leave the same: the entries that
/// are left are those of the blocks that are left, and those that are placed those of the blocks that
/// are placed. So one places everything exactly where the other does.
pub fn cut_law()
    ensures left { CutLaw }
    ensures placed { CountLaw }
    ensures all { AllCutLaw }
{}

/// Where the forwards move no more than the parent sent, and the child took no more than was sent and
/// moved, and the walk does not place everything, a block of the parent is left.
pub fn first_law()
    ensures blocks { FirstLaw }
    ensures down { DownLaw }
{}

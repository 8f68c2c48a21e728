// What the definitions of a lane say by themselves: the contract of a function that does nothing, which is called for the fact.

ghost use Rattle.std.specs.Prelude.{◌≡◌, ◌++◌, ◌∷◌, [], ℕ, List, Some};
ghost use Rattle.nk_lane.specs.Spelling.{messages};

use nk_wire::Framed;

/// A frame of a message behind other frames spells this message behind theirs.
pub fn frames_grow<M: Framed>()
    ensures { (frames : List (List ℕ)) (frame : List ℕ) (m : M) → M.read frame ≡ Some m → messages M.read (frames ++ frame ∷ []) ≡ messages M.read frames ++ m ∷ [] }
{}

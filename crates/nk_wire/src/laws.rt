// What the definitions of the wire say by themselves: each is the contract of a function that does nothing, which is
// called for the fact.

ghost use Rattle.std.specs.Prelude.{◌≡◌, ◌<◌, ◌++◌, ℕ, List, [], Some, slice_index};
ghost use Rattle.nk_base.specs.declared.message.MainMsg.{MainMsg};
ghost use Rattle.nk_base.specs.declared.message.BackMsg.{BackMsg};
ghost use Rattle.nk_base.specs.declared.message.UpMsg.{UpMsg};
ghost use Rattle.nk_wire.specs.declared.message.AnyMsg.{AnyMsg};
ghost use Rattle.nk_wire.specs.Spelling.{IsAnyInRange, AnyFits, SpellsMain, SpellsBack, SpellsUp, SpellsAny, any_rest, frame, IsFrameOf};
ghost use Rattle.nk_wire.specs.Streams.{First, IsFirst, IsRest, AreFrames, AreRead, first};
ghost use Rattle.nk_wire.specs.OneFrame.{AreBytes, main_of_frame, back_of_frame, up_of_frame};

/// Each message in range has exactly one spelling, of a length that a frame may have.
pub fn one_spelling()
    ensures spelled { (m : AnyMsg) → IsAnyInRange m → AnyFits m → SpellsAny m (any_rest m) }
    ensures only { (m : AnyMsg) (rest : List ℕ) → SpellsAny m rest → rest ≡ any_rest m }
    ensures length { (m : AnyMsg) (rest : List ℕ) → SpellsAny m rest → IsRest rest }
{}

/// No spelling is a proper prefix of another, neither as a rest nor as a frame; and each is of one message.
pub fn none_begins_another()
    ensures rests { (m n : AnyMsg) (a b more : List ℕ) → SpellsAny m a → SpellsAny n b → a ++ more ≡ b → (more ≡ []) × (m ≡ n) }
    ensures frames { (m n : AnyMsg) (a b more : List ℕ) → SpellsAny m a → SpellsAny n b → frame a ++ more ≡ frame b → (more ≡ []) × (m ≡ n) }
{}

/// What stands first in a stream of bytes is a part frame, a frame whose length is out of range, or a whole frame: one of
/// these, and no two.
pub fn one_stands_first()
    ensures is { (bytes : List ℕ) → ((i : ℕ) → slice_index bytes i < 256) → IsFirst bytes (first bytes) }
    ensures only { (bytes : List ℕ) (f : First) → IsFirst bytes f → first bytes ≡ f }
{}

/// A stream is read as the messages whose frames it is, and as no others, whatever is left behind them. So it does not
/// matter in which pieces it comes.
pub fn frames_are_read()
    ensures read { (ms : List AnyMsg) (bytes left : List ℕ) → AreFrames ms bytes left → AreRead ms bytes left }
    ensures only { (ms : List AnyMsg) (bytes left : List ℕ) → ((i : ℕ) → slice_index bytes i < 256) → AreRead ms bytes left → AreFrames ms bytes left }
{}

/// Each lane by itself: a frame of one of its messages is read as this message, and bytes that are read as a message are its
/// frame. The bytes of every frame are below 256, as the second asks; of larger numbers it says nothing.
pub fn each_lane_is_read()
    ensures main { (m : MainMsg) (f : List ℕ) → IsFrameOf SpellsMain m f → main_of_frame f ≡ Some m }
    ensures main_only { (m : MainMsg) (f : List ℕ) → AreBytes f → main_of_frame f ≡ Some m → IsFrameOf SpellsMain m f }
    ensures back { (m : BackMsg) (f : List ℕ) → IsFrameOf SpellsBack m f → back_of_frame f ≡ Some m }
    ensures back_only { (m : BackMsg) (f : List ℕ) → AreBytes f → back_of_frame f ≡ Some m → IsFrameOf SpellsBack m f }
    ensures up { (m : UpMsg) (f : List ℕ) → IsFrameOf SpellsUp m f → up_of_frame f ≡ Some m }
    ensures up_only { (m : UpMsg) (f : List ℕ) → AreBytes f → up_of_frame f ≡ Some m → IsFrameOf SpellsUp m f }
{}

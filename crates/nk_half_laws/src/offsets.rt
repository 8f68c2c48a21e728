// How far the data of a trace reaches. A law is a function that does nothing: its contract is what is proved.

ghost use Rattle.nk_half_laws.specs.Offsets.{BodyLaw, OffsetsLaw};

/// A trace of a sequential channel, and so of every run, shows no byte behind the end of its plan's body, which has at
/// most 67,108,864 bytes.
pub fn offsets_law()
    ensures within { OffsetsLaw }
    ensures bounded { BodyLaw }
{}

// The laws over the generator and over the sums. A law is a function that does nothing: its contract is what is proved.

ghost use Rattle.nk_gen_law.specs.Laws.{MadeScriptLaw, MadeSizeLaw, SumsLaw};

/// The text that a number makes is a text of the script's grammar, and no longer than an input may be.
pub fn made_script_law()
    ensures script { MadeScriptLaw }
    ensures size { MadeSizeLaw }
{}

/// The sums over the ends of at most 1,024 channels, each of an accepted plan, can be counted: each is below 2^64, as
/// nk_gen's `summary` asks.
pub fn sums_law()
    ensures { SumsLaw }
{}

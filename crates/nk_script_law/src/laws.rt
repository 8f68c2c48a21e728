// A law is a function that does nothing: its contract is what is proved, for every text, of any length.

ghost use Rattle.nk_script_law.specs.Laws.{AnswerLaw, DecisionLaw, RefusalLaw, ScriptLaw};

use nk_script::line_law;

/// A text is the text of at most one script. This project's own.
pub fn script_law()
    ensures { ScriptLaw }
{
    line_law();
}

/// A text that is the text of no script has one first bad line, with one cause, and no other text has one. This project's
/// own.
pub fn bad_line_law()
    ensures one { RefusalLaw }
    ensures none { AnswerLaw }
    ensures either { DecisionLaw }
{
    line_law();
}

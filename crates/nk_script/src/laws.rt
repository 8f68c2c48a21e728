// What holds of every line of a text. A law is a function that does nothing: its contract is what is proved.

ghost use Rattle.nk_script.specs.LineLaws.{LineLaws};

/// A word is at most one keyword, a field's text is cut at its first space, and no line brings a reading over the channels
/// that a script may have. This project's own.
pub fn line_law()
    ensures { LineLaws }
{}

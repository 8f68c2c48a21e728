// Decimal numbers, as the program's words and the lines of a script spell them.

ghost use Rattle.std.specs.Prelude.{◌≡◌, ◌^◌, ◌<◌, ◌↔◌, ℕ, Some, IsTrue};
ghost use Rattle.std.specs.Fmt.{decimal};
ghost use Rattle.nk_words.specs.Decimal.{HasPlainStart};

/// The number of 32 bits that the text spells in decimal, without a sign or a leading zero; none elsewhere (this project's own).
pub fn read_decimal(text: &str) -> Option<u32>
    ensures { (n : ℕ) → n < 2 ^ 32 → (result ≡ Some n) ↔ (text.now ≡ decimal n) }
{
    if has_plain_start(text.as_bytes()) {
        text.parse().ok()
    } else {
        None
    }
}

// The text has no sign and no leading zero.
fn has_plain_start(text: &[u8]) -> bool
    ensures { IsTrue result ↔ HasPlainStart text.now }
{
    match text {
        [b'0'] | [b'1'..=b'9', ..] => true,
        _ => false,
    }
}

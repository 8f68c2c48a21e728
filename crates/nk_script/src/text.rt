// How a text is cut at a byte, and a line into words.

ghost use Rattle.std.specs.Prelude.{◌≡◌, ◌≤◌, ℕ, map, length, All, IfOk, MatchOption};
ghost use Rattle.std.specs.Option.{option_copied};
ghost use Rattle.std.specs.Str.{IsUtf8};
ghost use Rattle.nk_script.specs.Texts.{before, behind, words};

use nk_base::Memory;
use std::alloc::Global;

/// The most words that a line has whose words are read one by one.
const MOST_WORDS: u8 = 5;

// What stands before the first such byte, or the whole text, and what stands behind it, where there is one.
pub(crate) fn cut(text: &[u8], mark: u8) -> (&[u8], Option<&[u8]>)
    ensures front { result.0.now ≡ before mark text.now }
    ensures rest { option_copied result.1 ≡ behind mark text.now }
{
    for i in 0..text.len() {
        if text[i] == mark {
            return (&text[..i], Some(&text[i + 1..]));
        }
    }
    (text, None)
}

// The words of a line; none where they are more than five, or one of them is no UTF-8.
pub(crate) fn words_of(alloc: Global, line: &[u8]) -> Result<Option<Vec<&str>>, Memory>
    ensures { IfOk result (λ found. MatchOption found (length (words line.now) ≤ 5 → ¬ All IsUtf8 (words line.now)) (λ all. map (λ word. word.now) all.items ≡ words line.now)) }
{
    let mut all = Vec::new(alloc);
    let mut rest = line;
    for _ in 0..MOST_WORDS {
        let (word, behind) = cut(rest, b' ');
        let Ok(word) = str::from_utf8(word) else {
            return Ok(None);
        };
        match all.push(word) {
            Ok(()) => {}
            Err(_) => return Err(Memory),
        }
        match behind {
            Some(more) => rest = more,
            None => return Ok(Some(all)),
        }
    }
    Ok(None)
}

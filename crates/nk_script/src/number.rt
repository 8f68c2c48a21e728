// The numbers of a script: decimal, or of hexadecimal digits.

ghost use Rattle.std.specs.Prelude.{◌≡◌, ◌^◌, ◌<◌, ◌↔◌, ℕ, length, true, Some, IsTrue, IfSome};
ghost use Rattle.std.specs.List.{list_all};
ghost use Rattle.std.specs.Str.Parse.{digits_value};
ghost use Rattle.nk_base.specs.declared.status.Status.{Status as AnyStatus};
ghost use Rattle.nk_script.specs.Numbers.{IsDecimal, IsCount, IsStatus, IsByte, is_digit, is_hex_digit};

use nk_base::Status;
use nk_words::read_decimal;

// The number in this range that the word spells, without a sign or a leading zero.
pub(crate) fn read_number(word: &str, least: u32, most: u32) -> Option<u32>
    ensures number { IfSome result (IsDecimal least most word.now) }
    ensures each { (n : ℕ) → IsDecimal least most word.now n → result ≡ Some n }
{
    match read_decimal(word) {
        Some(number) if least <= number && number <= most => Some(number),
        _ => None,
    }
}

// The word spells a number from 1 on, of any size.
pub(crate) fn is_count(word: &[u8]) -> bool
    ensures { IsTrue result ↔ IsCount word.now }
{
    match word {
        [] | [b'0', ..] => false,
        digits => are_digits(digits),
    }
}

// Each byte is a decimal digit.
fn are_digits(word: &[u8]) -> bool
    ensures { result ≡ list_all is_digit word.now }
{
    word.iter().all(|byte| (b'0'..=b'9').contains(byte))
}

// Each byte is a lower-case hexadecimal digit.
fn are_hex_digits(word: &[u8]) -> bool
    ensures { result ≡ list_all is_hex_digit word.now }
{
    word.iter().all(|&byte| is_hex_digit(byte))
}

// The byte is a lower-case hexadecimal digit.
fn is_hex_digit(byte: u8) -> bool
    ensures { result ≡ is_hex_digit byte }
{
    matches!(byte, b'0'..=b'9' | b'a'..=b'f')
}

// The failure that eight hexadecimal digits spell.
pub(crate) fn read_status(word: &[u8]) -> Option<Status>
    ensures status { IfSome result (IsStatus word.now) }
    ensures each { (status : AnyStatus) → IsStatus word.now status → result ≡ Some status }
{
    if word.len() != 8 {
        return None;
    }
    let status = Status(read_hex(word)?);
    if status.is_failure() {
        Some(status)
    } else {
        None
    }
}

// The byte that two hexadecimal digits spell.
pub(crate) fn read_byte(word: &[u8]) -> Option<u8>
    ensures byte { IfSome result (IsByte word.now) }
    ensures each { (byte : ℕ) → IsByte word.now byte → result ≡ Some byte }
{
    if word.len() != 2 {
        return None;
    }
    Some(read_hex(word)? as u8)
}

// The number that 1 to 8 hexadecimal digits spell.
fn read_hex(word: &[u8]) -> Option<u32>
    requires some { 0 < length word.now }
    requires few { length word.now < 9 }
    ensures digits { IfSome result (λ n. list_all is_hex_digit word.now ≡ true) }
    ensures bound { IfSome result (λ n. n < 16 ^ length word.now) }
    ensures each { list_all is_hex_digit word.now ≡ true → result ≡ Some (digits_value 16 word.now) }
{
    if !are_hex_digits(word) {
        return None;
    }
    match str::from_utf8(word) {
        Ok(text) => u32::from_str_radix(text, 16).ok(),
        Err(_) => None,
    }
}

// Bytes that are written as pairs of hexadecimal digits.

ghost use Rattle.std.specs.Prelude.{◌≡◌, ℕ, List, IfOk, MatchOption};
ghost use Rattle.nk_script.specs.Numbers.{IsBytes};

use crate::number::read_byte;
use nk_base::Memory;
use std::alloc::Global;

// The bytes that pairs of hexadecimal digits spell.
pub(crate) fn read_bytes(alloc: Global, digits: &[u8]) -> Result<Option<Vec<u8>>, Memory>
    ensures { IfOk result (λ found. MatchOption found ((bytes : List ℕ) → ¬ IsBytes digits.now bytes) (λ all. IsBytes digits.now all.items × ((bytes : List ℕ) → IsBytes digits.now bytes → all.items ≡ bytes))) }
{
    let Ok(mut all) = Vec::with_capacity(alloc, digits.len() / 2) else {
        return Err(Memory);
    };
    let mut rest = digits;
    while rest.len() > 1 {
        let (pair, more) = rest.split_at(2);
        let Some(byte) = read_byte(pair) else {
            return Ok(None);
        };
        match all.push(byte) {
            Ok(()) => {}
            Err(_) => return Err(Memory),
        }
        rest = more;
    }
    if rest.is_empty() {
        Ok(Some(all))
    } else {
        Ok(None)
    }
}

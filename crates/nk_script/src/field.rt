// What stands behind a prefix, the field that a text is, and the piece that bytes are.

ghost use Rattle.std.specs.Prelude.{◌≡◌, ◌++◌, ℕ, List, None, Some, IfSome, IfOk, MatchOption};
ghost use Rattle.std.specs.Option.{option_copied};
ghost use Rattle.nk_base.specs.Pieces.{IsPiece};
ghost use Rattle.nk_base.specs.declared.field.Field.{Field as AnyField};
ghost use Rattle.nk_script.specs.Lines.{IsField};
ghost use Rattle.nk_script.specs.Numbers.{IsBytes};

use crate::text::cut;
use nk_base::{Field, Memory, Name, Piece, PieceError, Value};
use std::alloc::Global;

// What stands behind the prefix, where the text begins with it.
pub(crate) fn behind_prefix<'a>(text: &'a [u8], prefix: &[u8]) -> Option<&'a [u8]>
    ensures found { IfSome result (λ rest. text.now ≡ prefix.now ++ rest.now) }
    ensures each { (rest : List ℕ) → text.now ≡ prefix.now ++ rest → option_copied result ≡ Some rest }
{
    text.strip_prefix(prefix)
}

// The field `NAME VALUE`, where it is good.
pub(crate) fn read_field(alloc: Global, rest: &[u8]) -> Result<Option<Field>, Memory>
    ensures field { IfOk result (λ found. IfSome found (IsField rest.now)) }
    ensures each { (field : AnyField) → IsField rest.now field → IfOk result (λ found. found ≡ Some field) }
{
    let (name, value) = cut(rest, b' ');
    let Some(value) = value else {
        return Ok(None);
    };
    let field = make_field(alloc, name, value)?;
    if field.is_good() {
        Ok(Some(field))
    } else {
        Ok(None)
    }
}

// The field of this name and this value, good or not.
fn make_field(alloc: Global, name: &[u8], value: &[u8]) -> Result<Field, Memory>
    ensures { IfOk result (λ field. field ≡ record { name = name.now; value = value.now }) }
{
    let name = Name::new(alloc, name)?;
    let value = Value::new(alloc, value)?;
    Ok(Field { name, value })
}

// The piece of these bytes, which has a block of its own, where they are neither none nor too many.
pub(crate) fn piece_of(bytes: Vec<u8>) -> Result<Option<Piece>, Memory>
    ensures { IfOk result (λ found. MatchOption found (¬ IsPiece bytes.items) (λ piece. (piece ≡ bytes.items) × IsPiece bytes.items)) }
{
    match Piece::from_vec(bytes) {
        Ok(piece) => Ok(Some(piece)),
        Err(PieceError::Empty) => Ok(None),
        Err(PieceError::TooLong) => Ok(None),
        Err(PieceError::Memory) => Err(Memory),
    }
}

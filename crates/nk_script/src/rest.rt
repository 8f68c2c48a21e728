// Lines whose last part is the rest of the line, whole.

ghost use Rattle.std.specs.Prelude.{◌≡◌, Some, IfSome, IfOk};
ghost use Rattle.nk_script.specs.declared.line.Line.{Line as AnyLine};
ghost use Rattle.nk_script.specs.Lines.{IsFieldLine, IsTrailerLine, IsPieceLine, IsHexLine};

use crate::field::{behind_prefix, piece_of, read_field};
use crate::line::Line;
use crate::piece::read_bytes;
use crate::placed::PlacedText;
use nk_base::Memory;
use std::alloc::Global;

// `field NAME VALUE`
pub(crate) fn read_field_line(alloc: Global, text: &[u8]) -> Result<Option<Line>, Memory>
    ensures line { IfOk result (λ found. IfSome found (IsFieldLine text.now)) }
    ensures each { (line : AnyLine) → IsFieldLine text.now line → IfOk result (λ found. found ≡ Some line) }
{
    let Some(rest) = behind_prefix(text, b"field ") else {
        return Ok(None);
    };
    match read_field(alloc, rest)? {
        Some(field) => Ok(Some(Line::Field(field))),
        None => Ok(None),
    }
}

// `trailer NAME VALUE`
pub(crate) fn read_trailer_line(alloc: Global, text: &[u8]) -> Result<Option<Line>, Memory>
    ensures line { IfOk result (λ found. IfSome found (IsTrailerLine text.now)) }
    ensures each { (line : AnyLine) → IsTrailerLine text.now line → IfOk result (λ found. found ≡ Some line) }
{
    let Some(rest) = behind_prefix(text, b"trailer ") else {
        return Ok(None);
    };
    match read_field(alloc, rest)? {
        Some(field) => Ok(Some(Line::Trailer(field))),
        None => Ok(None),
    }
}

// `piece TEXT`; the piece is a part of the block that the line stands in.
#[tactic(auto, using(crate::proofs::Placing::behind_prefix))]
pub(crate) fn read_piece_line(text: &PlacedText) -> Result<Option<Line>, Memory>
    ensures line { IfOk result (λ found. IfSome found (IsPieceLine text.now)) }
    ensures each { (line : AnyLine) → IsPieceLine text.now line → IfOk result (λ found. found ≡ Some line) }
{
    let Some(bytes) = behind_prefix(text.as_slice(), b"piece ") else {
        return Ok(None);
    };
    match text.piece_behind(text.as_slice().len() - bytes.len())? {
        Some(piece) => Ok(Some(Line::Piece(piece))),
        None => Ok(None),
    }
}

// `hex HH..`
pub(crate) fn read_hex_line(alloc: Global, text: &[u8]) -> Result<Option<Line>, Memory>
    ensures line { IfOk result (λ found. IfSome found (IsHexLine text.now)) }
    ensures each { (line : AnyLine) → IsHexLine text.now line → IfOk result (λ found. found ≡ Some line) }
{
    let Some(digits) = behind_prefix(text, b"hex ") else {
        return Ok(None);
    };
    let Some(bytes) = read_bytes(alloc, digits)? else {
        return Ok(None);
    };
    match piece_of(bytes)? {
        Some(piece) => Ok(Some(Line::Piece(piece))),
        None => Ok(None),
    }
}

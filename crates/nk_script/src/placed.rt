// The text of a line, and where it stands in the block of which the pieces of its response are parts.

ghost use Rattle.std.specs.Prelude.{◌≡◌, ◌≤◌, length, drop, IfOk, MatchOption};
ghost use Rattle.nk_base.specs.Pieces.{IsPiece};
ghost use Rattle.nk_script.specs.Placed.{IsPlaced};

use bytes::Bytes;
use nk_base::{Memory, Piece};
use std::alloc::Global;
use std::marker::Model;
use std::sync::Arc;

/// The text of a line, which stands in a shared block. This project's own.
#[derive(Drop)]
pub(crate) struct PlacedText<'a> {
    text: &'a [u8],
    block: &'a Arc<Bytes, Global>,
    // How many bytes of the block come before the text.
    from: u32,
}

impl<'a> Model for PlacedText<'a> {
    ghost use Rattle.std.specs.Prelude.{List, ℕ};
    ghost use Rattle.nk_script.specs.Placed.{IsPlaced};

    ghost Value = { List ℕ };

    ghost view = { λ s. s.text.now };

    ghost invariant = { λ s. IsPlaced s.block.now.value s.from s.text.now };
}

impl<'a> PlacedText<'a> {
    /// This text, which stands in the block behind so many bytes.
    pub(crate) fn new(text: &'a [u8], block: &'a Arc<Bytes, Global>, from: u32) -> PlacedText<'a>
        requires { IsPlaced block.now.value from text.now }
        ensures { result ≡ text.now }
    {
        PlacedText { text, block, from }
    }

    /// Its bytes.
    pub(crate) fn as_slice(&self) -> &'a [u8]
        ensures { result.now ≡ self.now }
    {
        self.text
    }

    /// The piece of its bytes behind the first so many, where they are neither none nor too many: a part of the block.
    pub(crate) fn piece_behind(&self, count: usize) -> Result<Option<Piece>, Memory>
        requires { count ≤ length self.now }
        ensures { IfOk result (λ found. MatchOption found (¬ IsPiece (drop count self.now)) (λ piece. (piece ≡ drop count self.now) × IsPiece (drop count self.now))) }
    {
        let size = self.text.len() - count;
        if size == 0 || size > Piece::MOST {
            return Ok(None);
        }
        let piece = Piece::of_block(self.block, self.from + count as u32, size as u32)?;
        Ok(Some(piece))
    }
}

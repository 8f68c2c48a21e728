// A piece of a body, shared by all that hold it.

ghost use Rattle.std.specs.Prelude.{◌≡◌, ◌+◌, ◌≤◌, ◌↔◌, length, IsTrue, IfOk};
ghost use Rattle.nk_base.specs.Pieces.{part_of, IsPart, IsPiece, IsPieceAnswer};

use crate::list::Share;
use crate::status::Memory;
use bytes::Bytes;
use std::alloc::Global;
use std::marker::Model;
use std::sync::Arc;

/// A piece of a body: 1 to 131,072 bytes, shared by all that hold it. After the data of Firefox's
/// `OnTransportAndData`; the bounds are this project's own.
#[derive(Drop)]
pub struct Piece {
    // The bytes that it is a part of. The parts of one block share it; a piece that is made alone has a block of its own.
    block: Arc<Bytes, Global>,
    // How many bytes of the block come before the piece.
    from: u32,
    size: u32,
}

impl Model for Piece {
    ghost use Rattle.std.specs.Prelude.{List, ℕ};
    ghost use Rattle.nk_base.specs.Pieces.{part_of, IsPart};

    ghost Value = { List ℕ };

    ghost view = { λ s. part_of s.block.value s.from s.size };

    ghost invariant = { λ s. IsPart s.block.value s.from s.size };
}

/// Why bytes are no piece.
#[derive(Clone, Copy, Debug, Drop, PartialEq, Eq)]
pub enum PieceError {
    /// There are none.
    Empty,
    /// There are more than 131,072.
    TooLong,
    /// Want of memory.
    Memory,
}

impl Piece {
    /// The most bytes that a piece has.
    pub const MOST: usize = 131_072;

    /// The piece with these bytes, which are copied once.
    pub fn new(alloc: Global, source: &[u8]) -> Result<Piece, PieceError>
        ensures { IsPieceAnswer source.now result }
    {
        if source.is_empty() {
            return Err(PieceError::Empty);
        }
        if source.len() > Piece::MOST {
            return Err(PieceError::TooLong);
        }
        match Bytes::copy_from_slice(alloc, source) {
            Ok(block) => Piece::whole(alloc, block),
            Err(_) => Err(PieceError::Memory),
        }
    }

    /// The piece with the bytes of this vector, which are not copied.
    pub fn from_vec(source: Vec<u8>) -> Result<Piece, PieceError>
        ensures { IsPieceAnswer source.items result }
    {
        let size = source.len();
        if size == 0 {
            return Err(PieceError::Empty);
        }
        if size > Piece::MOST {
            return Err(PieceError::TooLong);
        }
        let alloc = *source.allocator();
        match Bytes::from_vec(source) {
            Ok(block) => Piece::whole(alloc, block),
            Err(_) => Err(PieceError::Memory),
        }
    }

    /// The piece that is the whole of a block.
    fn whole(alloc: Global, block: Bytes) -> Result<Piece, PieceError>
        requires { IsPiece block }
        ensures { IsPieceAnswer block result }
    {
        let size = block.len() as u32;
        match Arc::new(alloc, block) {
            Ok(block) => Ok(Piece {
                block,
                from: 0,
                size,
            }),
            Err(_) => Err(PieceError::Memory),
        }
    }

    /// The piece of so many bytes of a block that others share, behind so many others.
    pub fn of_block(block: &Arc<Bytes, Global>, from: u32, size: u32) -> Result<Piece, Memory>
        requires { IsPart block.now.value from size }
        ensures { IfOk result (λ r. r ≡ part_of block.now.value from size) }
    {
        match Arc::try_clone(block) {
            Ok(block) => Ok(Piece { block, from, size }),
            Err(_) => Err(Memory),
        }
    }

    /// The piece of so many of its bytes, behind so many others, over the same block.
    #[tactic(auto, using(crate::proofs::Parts::part_length, crate::proofs::Parts::part_of_part))]
    pub fn part(&self, from: u32, size: u32) -> Result<Piece, Memory>
        requires not_empty { 1 ≤ size }
        requires inside { from + size ≤ length self.now }
        ensures { IfOk result (λ r. r ≡ part_of self.now from size) }
    {
        match Arc::try_clone(&self.block) {
            Ok(block) => Ok(Piece {
                block,
                from: self.from + from,
                size,
            }),
            Err(_) => Err(Memory),
        }
    }

    /// An equal piece over the same bytes.
    pub fn share(&self) -> Result<Piece, Memory>
        ensures { IfOk result (λ r. r ≡ self.now) }
    {
        match Arc::try_clone(&self.block) {
            Ok(block) => Ok(Piece {
                block,
                from: self.from,
                size: self.size,
            }),
            Err(_) => Err(Memory),
        }
    }

    /// Whether the two have the same bytes.
    pub fn same(&self, other: &Piece) -> bool
        ensures { IsTrue result ↔ (self.now ≡ other.now) }
    {
        self.as_slice() == other.as_slice()
    }

    /// The number of its bytes.
    pub fn size(&self) -> u32
        ensures size { result ≡ length self.now }
        ensures not_empty { 1 ≤ result }
        ensures bounded { result ≤ 131072 }
    {
        self.size
    }

    /// Its bytes.
    pub fn as_slice(&self) -> &[u8]
        ensures { result.now ≡ self.now }
    {
        let all = self.block.as_slice();
        &all[self.from as usize..self.from as usize + self.size as usize]
    }
}

impl Share for Piece {
    fn shared(&self) -> Result<Piece, Memory> {
        self.share()
    }

    fn is(&self, other: &Piece) -> bool {
        self.same(other)
    }
}

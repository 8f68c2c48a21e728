// The lock round a book.

use crate::book::SinkBook;
use nk_base::{Memory, Moved};
use std::sync::{Mutex, Wait};

/// A sink book that one thread at a time uses. Its calls wait for the lock, and no clause says what they did to the book;
/// what its type keeps holds whenever the lock is free. This project's own.
#[derive(Drop)]
pub struct SinkCell {
    book: Mutex<SinkBook>,
}

impl SinkCell {
    /// A lock round this book.
    pub fn new(book: SinkBook) -> SinkCell {
        SinkCell {
            book: Mutex::new(book),
        }
    }

    /// `SinkBook::deliver`, under the lock.
    pub fn deliver<W: Wait>(&self, rt: &W) -> Result<Moved, Memory> {
        self.book.lock(rt).deliver()
    }

    /// `SinkBook::read`, under the lock.
    pub fn read<W: Wait>(&self, rt: &W, reader: u8) -> Result<Moved, Memory> {
        self.book.lock(rt).read(reader)
    }

    /// The book, once no thread uses the cell any more.
    pub fn into_book(self) -> SinkBook {
        let SinkCell { book } = self;
        book.into_inner()
    }
}

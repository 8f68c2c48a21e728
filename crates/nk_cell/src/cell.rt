// The lock round a child's book.

ghost use Rattle.nk_cell.specs.Books.{IsOfChild};

use crate::book::ChildBook;
use nk_base::{Memory, Moved, Target};
use nk_plan::{Ending, Step};
use std::sync::{Mutex, Wait};

/// A child's book that one thread at a time uses. This project's own.
#[derive(Drop)]
pub struct ChildCell {
    book: Mutex<ChildBook>,
}

impl ChildCell {
    /// The cell of this book.
    pub fn new(book: ChildBook) -> ChildCell {
        ChildCell {
            book: Mutex::new(book),
        }
    }

    /// The book, given away.
    pub fn into_book(self) -> ChildBook {
        let ChildCell { book } = self;
        book.into_inner()
    }

    /// Makes a step of the child, as `ChildBook::step`.
    pub fn step<W: Wait>(&self, rt: &W, step: Step) -> Result<Moved, Memory>
        requires { IsOfChild step }
    {
        self.book.lock(rt).step(step)
    }

    /// How the load stands: it is never opened, has stopped, is left suspended, or goes on.
    pub fn ending<W: Wait>(&self, rt: &W) -> Ending {
        self.book.lock(rt).child().ending()
    }

    /// The target on which a callback runs.
    pub fn running<W: Wait>(&self, rt: &W) -> Option<Target> {
        self.book.lock(rt).child().running()
    }
}

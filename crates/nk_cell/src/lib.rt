//! A child with the ends of its four lanes, kept together, and the lock round them.
//!
//! On threads several roles make steps of one child: the page's main thread, the thread of the background lane and the
//! workers. A `ChildBook` keeps its child and the ends of its lanes in step: a message is taken from its lane in the same
//! call that enters it in the journal, and what a step sends and shows is on its lanes when that call returns. So at each
//! moment when the lock of a `ChildCell` is free, the child is what its journal tells, what the journal took was taken, and
//! what it tells was sent and shown.
//!
//! A step never finds its sending ends full, whatever messages come: a child sends and shows no more than what it took and
//! its plan allow, and a taking end gives no more items than its ring's capacity.
//!
//! Firefox guards its child's state by the main thread, and its event queue by a lock; that all of a child stands under one
//! lock is this project's own.
#![tactic(auto)]

mod book;
mod cell;

pub use book::ChildBook;
pub use cell::ChildCell;

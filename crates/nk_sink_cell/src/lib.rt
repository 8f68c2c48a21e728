//! A listener and the end of the delivery lane from which it is fed, kept together, and the lock round them. So no
//! listener's work is done under the lock of a child.
//!
//! Whenever the lock is free, what the listener was shown is what was taken from the lane. After the delivery to
//! Firefox's nsIStreamListener on the target of the data; the book and its lock are this project's own.
#![tactic(auto)]

mod book;
mod cell;

pub use book::SinkBook;
pub use cell::SinkCell;

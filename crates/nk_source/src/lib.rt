// Where the body of a response comes from: its pieces, one after another, and then its end. It stands in the place of
// the transaction pump of Firefox's nsHttpChannel; the forms are this project's own.
#![tactic(auto)]

mod source;

pub use source::{Next, ResponseSource};

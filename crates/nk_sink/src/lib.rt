//! The listener of a channel: it keeps what it is shown, and may feed a pipe with the body, from which the pumps of its
//! readers read. After Firefox's nsIStreamListener; the pipe behind it is this project's own.
#![tactic(auto)]

mod feed;
mod given;
mod laws;
mod listener;
mod pipe_reader;
mod writer;

pub use laws::{kept_law, readers_law, reads_law};
pub use listener::Listener;
pub use pipe_reader::PipeReader;

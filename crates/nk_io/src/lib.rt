//! Bytes in and out: a source that gives bytes in pieces, a sink that takes them, and the two calls
//! that read all of one and write all to the other. Each fault is counted, so that a contract can
//! say that an answer came of a fault, or that there was none.
#![tactic(auto)]

mod calls;
mod memory_sink;
mod memory_source;
mod retrying;
mod sink;
mod source;
mod standard_sink;
mod standard_source;
mod whole;

pub use memory_sink::{MemSink, SureSink};
pub use memory_source::{MemSource, SureSource};
pub use sink::{Put, Sink};
pub use source::{Source, Take};
pub use standard_sink::StdSink;
pub use standard_source::StdSource;
pub use whole::{ReadError, WriteFault, read_all, write_all};

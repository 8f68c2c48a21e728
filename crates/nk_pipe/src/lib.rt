//! A pipe: what the writer puts in, each of up to eight readers gets from its own place on, at its own pace. The
//! bytes stand in segments, which are given back as soon as no reader needs them. After Firefox's nsPipe3.
//!
//! ```text
//! let (mut pipe, first) = Pipe::new(alloc, 4096, 16)?;
//! let second = pipe.clone_reader(first)?;
//! pipe.write(b"abc")?;                               // Write::Wrote(3)
//! pipe.close_writer(Status::OK);
//! let mut buffer = [0; 8];
//! pipe.read_into(first, &mut buffer)?;               // Read::Read(3), and then Read::End
//! pipe.read_into(second, &mut buffer)?;              // Read::Read(3) too: a reader moves no other
//! ```
#![tactic(auto)]

mod answer;
mod cursor;
mod pipe;
mod reader;
mod readers;
mod single;
mod status;
mod steps;
mod store;

pub use answer::{CloneError, NoReader, Read, Write};
pub use pipe::Pipe;

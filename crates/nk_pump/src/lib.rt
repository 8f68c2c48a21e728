// The pump of an input stream: it reads the stream in turns and shows a start, the bytes and a stop. After Firefox's
// nsInputStreamPump.
#![tactic(auto)]

mod pump;
mod stream;

pub use pump::{Pump, Turn};
pub use stream::{PumpStream, Read};

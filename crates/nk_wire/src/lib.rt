// The bytes that messages travel as: a frame is a length and the rest, a kind and the fields in order, all numbers
// little-endian. Encoders write the one spelling of a message, decoders read it back and name the first fault, and
// `Frames` finds the frames in a stream that comes in any pieces. In the place of the serialization that Firefox's IPDL
// makes for PHttpChannel and PHttpBackgroundChannel; the format is this project's own.
#![tactic(auto)]

mod cursor;
mod decode;
mod encode;
mod error;
mod frame;
mod framed;
mod frames;
mod kind;
mod laws;
mod look;
mod message;
mod read_any;
mod read_back;
mod read_main;
mod read_up;
mod start;
mod write_back;
mod write_main;
mod write_start;
mod write_up;

pub use decode::{decode_any, decode_back, decode_main, decode_up};
pub use encode::{encode_back, encode_main, encode_up};
pub use error::{DecodeError, FrameCause, FrameError};
pub use frame::Frame;
pub use framed::Framed;
pub use frames::Frames;
pub use laws::{
    each_lane_is_read, frames_are_read, none_begins_another, one_spelling, one_stands_first,
};
pub use message::AnyMsg;

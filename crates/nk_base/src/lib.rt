// What every layer speaks of: statuses and targets, lists, header fields and heads, pieces of a body, the messages of
// the three lanes, what a listener sees, and where a part sends. The queue machine, over which the child's events run,
// is defined in specs/Queue.antt.
#![tactic(auto)]

mod field;
mod grow;
mod list;
mod message;
mod out;
mod piece;
mod queue;
mod status;

pub use field::{Field, Fields, Head, HeadError, Name, Value};
pub use grow::Grow;
pub use list::{ByteList, Items, Share, Shared};
pub use message::{BackMsg, Entry, MainMsg, UpMsg};
pub use out::{Out, OutList, Ranged};
pub use piece::{Piece, PieceError};
pub use queue::{Class, Classed};
pub use status::{Memory, Moved, RetargetError, Status, Target};

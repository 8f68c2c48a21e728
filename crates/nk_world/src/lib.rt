// A world: the channels of some plans, each with its two halves, the lanes between them and its listener. It plays a
// schedule of steps, and then drains all channels in rounds. This project's own.
#![tactic(auto)]

mod laws;
mod playing;
mod round;
mod world;

pub use laws::drain_law;
pub use world::World;

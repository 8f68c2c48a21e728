//! One lane of each kind for all channels: each frame goes with the id of its channel.
//!
//! Of the frames that came in under one id, none is lost, doubled or moved before another: a mux sends for each id what it
//! took from the end of that id, in order, and a router sends on the end of each live id the first frames that came under
//! it, as many as the end's capacity. What a router makes of a frame does not depend on the frames of other ids. Both keep
//! this over every list of their calls, so a frame whose id is unknown, has left, or is full changes nothing for any other id.
//!
//! In the place of Firefox's PNecko, under which all channels of a page's process share one connection, and of the routing
//! of its messages by the id of their actor.
#![tactic(auto)]

mod desk;
mod moves;
mod mux;
mod routed;
mod router;
mod settled;
mod tagged;

pub use desk::{Desk, Stray};
pub use mux::Mux;
pub use routed::Routed;
pub use router::Router;
pub use settled::settle_lanes;
pub use tagged::{Tagged, TaggedAs, Tags};

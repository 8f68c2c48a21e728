// Where the data of a channel is delivered: on the main thread, or on a worker once the page has asked for it. After
// Firefox's HttpChannelChild::RetargetDeliveryTo; the order of the refusals is this project's own.
#![tactic(auto)]

mod delivery;
mod view;

pub use delivery::Delivery;
pub use view::ChannelView;

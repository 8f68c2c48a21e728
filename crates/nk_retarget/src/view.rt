// What a retarget asks of a channel.

use nk_base::Status;

/// How a channel stands when it is asked to deliver its data elsewhere.
#[derive(Clone, Copy, Debug, Drop, PartialEq, Eq)]
pub struct ChannelView {
    /// The page has opened it.
    pub opened: bool,
    /// Its listener has seen the stop.
    pub stopped: bool,
    /// The failure that it keeps, or 0.
    pub status: Status,
}

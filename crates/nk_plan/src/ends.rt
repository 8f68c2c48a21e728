// What a run leaves of its channels: what each listener saw, how each load ended, and the journals.

use crate::journal::{ChildJournal, ParentJournal};
use nk_base::{ByteList, Entry, Items, Status};

/// How a channel ended. This project's own.
#[derive(Clone, Copy, Debug, Drop, PartialEq, Eq)]
pub enum Ending {
    /// Its load has stopped.
    Stopped,
    /// The page has left it suspended.
    Suspended,
    /// The page never opens it.
    Unopened,
    /// It has more to do.
    Going,
}

/// What a listener saw, in order. This project's own.
pub type Trace = Items<Entry>;

/// What a reader of a pipe was given, and how its pump stopped. This project's own.
#[derive(Drop)]
pub struct ReaderEnd {
    /// The bytes, in order.
    pub bytes: ByteList,
    /// The status of its pump's stop (nsInputStreamPump), or none where there was no stop.
    pub status: Option<Status>,
}

/// The ends of a listener's readers, in their order. This project's own.
pub type Readers = Items<ReaderEnd>;

/// What a run leaves of one channel. This project's own.
#[derive(Drop)]
pub struct ChannelEnd {
    /// What the listener saw.
    pub trace: Trace,
    /// The readers of a listener with a pipe; none of a plain one.
    pub readers: Readers,
    /// How the channel ended.
    pub ending: Ending,
    /// What its parent did.
    pub parent: ParentJournal,
    /// What its child did.
    pub child: ChildJournal,
    /// How many messages the parent's background half has moved on.
    pub forwarded: usize,
}

/// The ends of a run's channels, in their order. This project's own.
pub type Ends = Items<ChannelEnd>;

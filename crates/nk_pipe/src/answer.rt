// What the calls of a pipe answer.

use nk_base::Status;

/// What became of a write. After the results of Firefox's `nsPipeOutputStream::Write`.
#[derive(Clone, Copy, Debug, Drop, PartialEq, Eq)]
pub enum Write {
    /// So many of the bytes, from the first on, were written.
    Wrote(u32),
    /// There is no room for now.
    WouldBlock,
    /// The pipe was closed with this status.
    Closed(Status),
}

/// What a read gave. After the results of Firefox's `nsPipeInputStream::Read`.
#[derive(Clone, Copy, Debug, Drop, PartialEq, Eq)]
pub enum Read {
    /// So many bytes stand first in the buffer.
    Read(u32),
    /// All was read, and the pipe was closed in good order.
    End,
    /// There is nothing to read for now.
    WouldBlock,
    /// The reader was closed with this status, or all was read and the pipe was closed with it.
    Failed(Status),
}

/// The number of a reader that was never given. This project's own.
#[derive(Clone, Copy, Debug, Drop, PartialEq, Eq)]
pub struct NoReader(pub u32);

/// Why a reader was not cloned. This project's own.
#[derive(Clone, Copy, Debug, Drop, PartialEq, Eq)]
pub enum CloneError {
    /// That number was never given.
    NoReader(u32),
    /// That reader was closed with this status.
    Closed(Status),
    /// Eight readers were made already.
    TooManyReaders,
    /// Want of memory.
    Memory,
}

// What a pump reads.

ghost use Rattle.std.specs.Prelude.{◌≡◌, ◌<◌, ◌^◌, List, ℕ, Bool, length, take, drop, true};
ghost use Rattle.nk_base.specs.Status.{is_failure};
ghost use Rattle.nk_pump.specs.Stream.{StreamEnd, answer_of, closed_with};

use nk_base::Status;

/// What a read answers. After Firefox's `nsIInputStream`.
#[derive(Clone, Copy, Debug, Drop, PartialEq, Eq)]
pub enum Read {
    /// So many bytes, at least one, stand first in the buffer.
    Read(u32),
    /// The stream has ended well.
    End,
    /// Nothing is left for now.
    WouldBlock,
    /// The stream has failed, with this status.
    Failed(Status),
}

/// A stream that a pump reads. After Firefox's `nsIAsyncInputStream`.
pub trait PumpStream {
    /// The bytes that are left to read.
    ghost left: { Self → List ℕ };

    /// What comes behind them.
    ghost end: { Self → StreamEnd };

    /// Whether its reader has closed it.
    ghost closed: { Self → Bool };

    /// Reads as many bytes as are left and go into the buffer; where none are left, answers the end.
    fn read_into(&mut self, buffer: &mut [u8]) -> Read
        requires not_empty { 0 < length buffer.old }
        requires small { length buffer.old < 2 ^ 32 }
        ensures answer { result ≡ answer_of (length buffer.old) (left self.old) (end self.old) }
        ensures bytes { take (length (take (length buffer.old) (left self.old))) buffer.new ≡ take (length buffer.old) (left self.old) }
        ensures left { left self.new ≡ drop (length buffer.old) (left self.old) }
        ensures end { end self.new ≡ end self.old }
        ensures closed { closed self.new ≡ closed self.old };

    /// Closes the stream with this status, unless it was closed before.
    fn close(&mut self, status: Status)
        requires { is_failure status ≡ true }
        ensures { record { left = left self.new; end = end self.new; closed = closed self.new } ≡ closed_with status (record { left = left self.old; end = end self.old; closed = closed self.old }) };
}

// The results that loads end with, the threads that events run on, what a step answers, and want of memory.

ghost use Rattle.std.specs.Prelude.{◌≡◌, ◌↔◌, IsTrue};
ghost use Rattle.nk_base.specs.Status.{is_failure, is_legal_status};
ghost use Rattle.nk_base.specs.Queue.{same_target};

/// Want of memory: the one answer that no clause ties to a cause. This project's own.
#[derive(Clone, Copy, Debug, Drop, PartialEq, Eq)]
pub struct Memory;

/// What a step did: it was made, or it was not enabled and changed nothing. This project's own.
#[derive(Clone, Copy, Debug, Drop, PartialEq, Eq)]
pub enum Moved {
    /// It was made.
    Did,
    /// It was not enabled, and nothing changed.
    Idle,
}

/// A result code. A status is legal where it is 0 or a failure. After Firefox's `nsresult`; the numbers are this
/// project's own.
#[derive(Clone, Copy, Debug, Drop, PartialEq, Eq)]
pub struct Status(pub u32);

impl Status {
    /// The load went well.
    pub const OK: Status = Status(0);

    /// A failure of no closer kind.
    pub const FAILURE: Status = Status(0x8000_4005);

    /// The page gave the load up.
    pub const BINDING_ABORTED: Status = Status(0x804b_0002);

    /// The server refused the connection.
    pub const CONNECTION_REFUSED: Status = Status(0x804b_000d);

    /// The connection broke.
    pub const NET_RESET: Status = Status(0x804b_0014);

    /// A redirect came after the most that are followed.
    pub const REDIRECT_LOOP: Status = Status(0x804b_001f);

    /// A stream was closed in good order.
    pub const STREAM_CLOSED: Status = Status(0x8047_0002);

    /// A stream has nothing to read, or no room to write, for now.
    pub const STREAM_WOULD_BLOCK: Status = Status(0x8047_0007);

    /// Whether the number is at least 0x80000000.
    pub fn is_failure(self) -> bool
        ensures { result ≡ is_failure self }
    {
        self.0 >= 0x8000_0000
    }

    /// Whether it is 0 or a failure.
    pub fn is_legal(self) -> bool
        ensures { result ≡ is_legal_status self }
    {
        self.0 == 0 || self.is_failure()
    }
}

/// The thread that an event of a channel runs on: the page's main thread, a worker, numbered 1 to 16, or the thread of
/// the background lane. After Firefox's event targets.
#[derive(Clone, Copy, Debug, Drop, PartialEq, Eq)]
pub enum Target {
    /// The page's main thread.
    Main,
    /// The worker of this number, from 1 to 16.
    Worker(u8),
    /// The thread of the background lane.
    Back,
}

impl Target {
    /// Whether the two are one thread.
    pub fn is(self, other: Target) -> bool
        ensures { result ≡ same_target self other }
    {
        match (self, other) {
            (Target::Main, Target::Main) | (Target::Back, Target::Back) => true,
            (Target::Worker(a), Target::Worker(b)) => a == b,
            _ => false,
        }
    }
}

/// Why a channel's data was not sent to a worker. After the refusals of Firefox's `HttpChannelChild::RetargetDeliveryTo`
/// in outline.
#[derive(Clone, Copy, Debug, Drop, PartialEq, Eq)]
pub enum RetargetError {
    /// The channel was not opened.
    NotOpened,
    /// The listener has seen its stop.
    Stopped,
    /// The channel has failed, with this status.
    Failed(Status),
    /// The listener allows no other thread.
    NotRetargetable,
    /// The data goes to this worker already.
    AlreadyRetargeted(u8),
}

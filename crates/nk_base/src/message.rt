// The messages of the three lanes, and what a listener sees. Hops are numbered from 0.

ghost use Rattle.std.specs.Prelude.{◌≡◌, ◌↔◌, IsTrue, IfOk, Ok};

use crate::field::{Fields, Head};
use crate::out::Ranged;
use crate::piece::Piece;
use crate::status::{Memory, Status};

/// A message of the main lane, from the parent to the child. After Firefox's PHttpChannel in outline.
#[derive(Drop)]
pub enum MainMsg {
    /// The response of this hop begins.
    Start {
        hop: u32,
        status: Status,
        head: Head,
    },
    /// The channel could not be opened. The status is a failure.
    FailedOpen {
        hop: u32,
        status: Status,
    },
    /// The response of this hop is a redirect; the page is asked about it. The code is 300 to 399.
    Redirect1 {
        hop: u32,
        code: u16,
    },
    /// The redirect of this hop was followed.
    Redirect3 {
        hop: u32,
    },
}

/// A message of the background lane, from the parent's background half to the child's. After Firefox's
/// PHttpBackgroundChannel in outline.
#[derive(Drop)]
pub enum BackMsg {
    /// The response of this hop begins, where the plan starts on this lane.
    Start {
        hop: u32,
        status: Status,
        head: Head,
    },
    /// The start of this hop was sent on the main lane.
    StartSent {
        hop: u32,
    },
    /// A piece of the body, and the number of its bytes that come before it.
    Bytes {
        hop: u32,
        status: Status,
        offset: u64,
        piece: Piece,
    },
    /// The response ended. There are trailers only where the status is 0.
    Stop {
        hop: u32,
        status: Status,
        trailers: Fields,
    },
}

/// A message of the up lane, from the child to the parent. After Firefox's PHttpChannel in outline.
#[derive(Clone, Copy, Debug, Drop, PartialEq, Eq)]
pub enum UpMsg {
    /// The page opens the channel.
    Open,
    /// Send nothing more for now.
    Suspend,
    /// Send again.
    Resume,
    /// The page gives the load up. The status is a failure.
    Cancel { status: Status },
    /// The page's answer on the redirect of this hop: 0, or why it is refused.
    Verify { hop: u32, status: Status },
    /// The page has read so many bytes, 1 to 131,072.
    BytesRead { count: u32 },
    /// The child is done.
    Deleting,
}

/// What a listener sees: a start, the data and a stop. After Firefox's nsIStreamListener.
#[derive(Drop)]
pub enum Entry {
    /// The response's code, 0 where there is none, and the status.
    Start { code: u16, status: Status },
    /// A piece, and the number of the body's bytes before it.
    Bytes { offset: u64, piece: Piece },
    /// The status, and the trailers where it is 0.
    Stop { status: Status, trailers: Fields },
}

impl Ranged for MainMsg {
    ghost use Rattle.nk_base.specs.Ranges.{IsMainInRange};

    ghost IsInRange = { IsMainInRange };
}

impl Ranged for BackMsg {
    ghost use Rattle.nk_base.specs.Ranges.{IsBackInRange};

    ghost IsInRange = { IsBackInRange };
}

impl Ranged for UpMsg {
    ghost use Rattle.nk_base.specs.Ranges.{IsUpInRange};

    ghost IsInRange = { IsUpInRange };
}

impl Ranged for Entry {
    ghost IsInRange = { λ _. Unit {0} };
}

impl MainMsg {
    /// An equal message over the same bytes.
    pub fn share(&self) -> Result<MainMsg, Memory>
        ensures { IfOk result (λ r. r ≡ self.now) }
    {
        match self {
            MainMsg::Start { hop, status, head } => {
                let head = head.share()?;
                Ok(MainMsg::Start {
                    hop: *hop,
                    status: *status,
                    head,
                })
            }
            MainMsg::FailedOpen { hop, status } => Ok(MainMsg::FailedOpen {
                hop: *hop,
                status: *status,
            }),
            MainMsg::Redirect1 { hop, code } => Ok(MainMsg::Redirect1 {
                hop: *hop,
                code: *code,
            }),
            MainMsg::Redirect3 { hop } => Ok(MainMsg::Redirect3 { hop: *hop }),
        }
    }

    /// Whether the two are one message.
    pub fn same(&self, other: &MainMsg) -> bool
        ensures { IsTrue result ↔ (self.now ≡ other.now) }
    {
        match (self, other) {
            (
                MainMsg::Start { hop, status, head },
                MainMsg::Start {
                    hop: other_hop,
                    status: other_status,
                    head: other_head,
                },
            ) => hop == other_hop && status == other_status && head.same(other_head),
            (
                MainMsg::FailedOpen { hop, status },
                MainMsg::FailedOpen {
                    hop: other_hop,
                    status: other_status,
                },
            ) => hop == other_hop && status == other_status,
            (
                MainMsg::Redirect1 { hop, code },
                MainMsg::Redirect1 {
                    hop: other_hop,
                    code: other_code,
                },
            ) => hop == other_hop && code == other_code,
            (MainMsg::Redirect3 { hop }, MainMsg::Redirect3 { hop: other_hop }) => hop == other_hop,
            _ => false,
        }
    }
}

impl BackMsg {
    /// An equal message over the same bytes.
    pub fn share(&self) -> Result<BackMsg, Memory>
        ensures { IfOk result (λ r. r ≡ self.now) }
    {
        match self {
            BackMsg::Start { hop, status, head } => {
                let head = head.share()?;
                Ok(BackMsg::Start {
                    hop: *hop,
                    status: *status,
                    head,
                })
            }
            BackMsg::StartSent { hop } => Ok(BackMsg::StartSent { hop: *hop }),
            BackMsg::Bytes {
                hop,
                status,
                offset,
                piece,
            } => {
                let piece = piece.share()?;
                Ok(BackMsg::Bytes {
                    hop: *hop,
                    status: *status,
                    offset: *offset,
                    piece,
                })
            }
            BackMsg::Stop {
                hop,
                status,
                trailers,
            } => {
                let trailers = trailers.share()?;
                Ok(BackMsg::Stop {
                    hop: *hop,
                    status: *status,
                    trailers,
                })
            }
        }
    }

    /// Whether the two are one message.
    pub fn same(&self, other: &BackMsg) -> bool
        ensures { IsTrue result ↔ (self.now ≡ other.now) }
    {
        match (self, other) {
            (
                BackMsg::Start { hop, status, head },
                BackMsg::Start {
                    hop: other_hop,
                    status: other_status,
                    head: other_head,
                },
            ) => hop == other_hop && status == other_status && head.same(other_head),
            (BackMsg::StartSent { hop }, BackMsg::StartSent { hop: other_hop }) => hop == other_hop,
            (
                BackMsg::Bytes {
                    hop,
                    status,
                    offset,
                    piece,
                },
                BackMsg::Bytes {
                    hop: other_hop,
                    status: other_status,
                    offset: other_offset,
                    piece: other_piece,
                },
            ) => hop == other_hop
                && status == other_status
                && offset == other_offset
                && piece.same(other_piece),
            (
                BackMsg::Stop {
                    hop,
                    status,
                    trailers,
                },
                BackMsg::Stop {
                    hop: other_hop,
                    status: other_status,
                    trailers: other_trailers,
                },
            ) => hop == other_hop && status == other_status && trailers.same(other_trailers),
            _ => false,
        }
    }
}

impl UpMsg {
    /// An equal message. It takes no memory.
    pub fn share(&self) -> Result<UpMsg, Memory>
        ensures { result ≡ Ok self.now }
    {
        Ok(*self)
    }

    /// Whether the two are one message.
    pub fn same(&self, other: &UpMsg) -> bool
        ensures { IsTrue result ↔ (self.now ≡ other.now) }
    {
        self == other
    }
}

impl Entry {
    /// An equal entry over the same bytes.
    pub fn share(&self) -> Result<Entry, Memory>
        ensures { IfOk result (λ r. r ≡ self.now) }
    {
        match self {
            Entry::Start { code, status } => Ok(Entry::Start {
                code: *code,
                status: *status,
            }),
            Entry::Bytes { offset, piece } => {
                let piece = piece.share()?;
                Ok(Entry::Bytes {
                    offset: *offset,
                    piece,
                })
            }
            Entry::Stop { status, trailers } => {
                let trailers = trailers.share()?;
                Ok(Entry::Stop {
                    status: *status,
                    trailers,
                })
            }
        }
    }

    /// Whether the two are one entry.
    pub fn same(&self, other: &Entry) -> bool
        ensures { IsTrue result ↔ (self.now ≡ other.now) }
    {
        match (self, other) {
            (
                Entry::Start { code, status },
                Entry::Start {
                    code: other_code,
                    status: other_status,
                },
            ) => code == other_code && status == other_status,
            (
                Entry::Bytes { offset, piece },
                Entry::Bytes {
                    offset: other_offset,
                    piece: other_piece,
                },
            ) => offset == other_offset && piece.same(other_piece),
            (
                Entry::Stop { status, trailers },
                Entry::Stop {
                    status: other_status,
                    trailers: other_trailers,
                },
            ) => status == other_status && trailers.same(other_trailers),
            _ => false,
        }
    }
}

// Messages, as they are shared and compared.

use super::fields;
use crate::rows::none_wrong;
use nk_base::{BackMsg, Entry, Fields, Head, MainMsg, Memory, Piece, Status, UpMsg};
use std::alloc::Global;

const OK: Status = Status::OK;

const RESET: Status = Status::NET_RESET;

/// What is made by a number, so that no two numbers make the same.
pub(crate) trait Numbered: Drop {
    fn numbered(alloc: Global, number: usize) -> Option<Self>;

    fn shared(&self) -> Result<Self, Memory>;

    fn is(&self, other: &Self) -> bool;
}

/// A share of what is made by this number.
pub(crate) fn share_of<M: Numbered>(alloc: Global, number: usize) -> Option<M> {
    M::numbered(alloc, number)?.shared().ok()
}

/// Whether what is made by one number is as a share of what is made by another.
pub(crate) fn is_as<M: Numbered>(alloc: Global, one: usize, other: usize) -> Option<bool> {
    let share = share_of::<M>(alloc, other)?;
    let made = M::numbered(alloc, one)?;
    Some(made.is(&share))
}

/// The first of so many that is not as its share, or is as the share of another.
pub(crate) fn first_confused<M: Numbered>(alloc: Global, count: usize) -> Option<usize> {
    for i in 0..count {
        for j in 0..count {
            if is_as::<M>(alloc, i, j) != Some(i == j) {
                return Some(i);
            }
        }
    }
    None
}

fn head(alloc: Global) -> Option<Head> {
    let fields = fields(alloc, 1, b"content-type", b"text/html")?;
    Head::new(200, fields).ok()
}

impl Numbered for MainMsg {
    fn numbered(alloc: Global, number: usize) -> Option<MainMsg> {
        let (hop, status) = (0, OK);
        Some(match number {
            0 => MainMsg::Redirect1 { hop, code: 302 },
            1 => MainMsg::Start {
                hop,
                status,
                head: head(alloc)?,
            },
            2 => MainMsg::Start {
                hop,
                status,
                head: Head::new(200, Fields::new(alloc)).ok()?,
            },
            3 => MainMsg::FailedOpen { hop, status: RESET },
            _ => MainMsg::Redirect3 { hop },
        })
    }

    fn shared(&self) -> Result<MainMsg, Memory> {
        self.share()
    }

    fn is(&self, other: &MainMsg) -> bool {
        self.same(other)
    }
}

impl Numbered for BackMsg {
    fn numbered(alloc: Global, number: usize) -> Option<BackMsg> {
        let (hop, status, offset) = (0, OK, 0);
        Some(match number {
            0 => BackMsg::Stop {
                hop,
                status,
                trailers: fields(alloc, 1, b"expires", b"0")?,
            },
            1 => BackMsg::Stop {
                hop,
                status,
                trailers: Fields::new(alloc),
            },
            2 => BackMsg::Start {
                hop,
                status,
                head: head(alloc)?,
            },
            3 => BackMsg::Bytes {
                hop,
                status,
                offset,
                piece: Piece::new(alloc, b"a").ok()?,
            },
            4 => BackMsg::Bytes {
                hop,
                status,
                offset,
                piece: Piece::new(alloc, b"b").ok()?,
            },
            _ => BackMsg::StartSent { hop },
        })
    }

    fn shared(&self) -> Result<BackMsg, Memory> {
        self.share()
    }

    fn is(&self, other: &BackMsg) -> bool {
        self.same(other)
    }
}

impl Numbered for UpMsg {
    fn numbered(_alloc: Global, number: usize) -> Option<UpMsg> {
        Some(match number {
            0 => UpMsg::Open,
            1 => UpMsg::Suspend,
            2 => UpMsg::Resume,
            3 => UpMsg::Cancel { status: RESET },
            4 => UpMsg::Verify { hop: 0, status: OK },
            5 => UpMsg::BytesRead { count: 1 },
            _ => UpMsg::Deleting,
        })
    }

    fn shared(&self) -> Result<UpMsg, Memory> {
        self.share()
    }

    fn is(&self, other: &UpMsg) -> bool {
        self.same(other)
    }
}

impl Numbered for Entry {
    fn numbered(alloc: Global, number: usize) -> Option<Entry> {
        Some(match number {
            0 => Entry::Start {
                code: 200,
                status: OK,
            },
            1 => Entry::Bytes {
                offset: 3,
                piece: Piece::new(alloc, b"hello").ok()?,
            },
            2 => Entry::Stop {
                status: OK,
                trailers: fields(alloc, 1, b"expires", b"0")?,
            },
            _ => Entry::Stop {
                status: OK,
                trailers: fields(alloc, 1, b"expires", b"1")?,
            },
        })
    }

    fn shared(&self) -> Result<Entry, Memory> {
        self.share()
    }

    fn is(&self, other: &Entry) -> bool {
        self.same(other)
    }
}

#[test]
fn messages_are_shared_whole(rt: HostRuntime) {
    let alloc = rt.alloc();
    none_wrong(&rt, first_confused::<MainMsg>(alloc, 5));
    none_wrong(&rt, first_confused::<BackMsg>(alloc, 6));
    none_wrong(&rt, first_confused::<UpMsg>(alloc, 7));
    none_wrong(&rt, first_confused::<Entry>(alloc, 4));
}

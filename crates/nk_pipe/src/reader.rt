// One reader of a pipe.

use crate::cursor::Cursor;
use nk_base::Status;

/// Where a reader began, how far it is, its closing status, and where it stands.
#[derive(Clone, Copy, Drop)]
pub(crate) struct Reader {
    pub(crate) start: u64,
    pub(crate) position: u64,
    pub(crate) closed: Option<Status>,
    pub(crate) cursor: Cursor,
}

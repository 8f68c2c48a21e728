// Which closing status is kept.

ghost use Rattle.std.specs.Prelude.{◌≡◌, if◌then◌else◌};
ghost use Rattle.nk_pipe.specs.Pipe.{kept_status, first_close};

use nk_base::Status;

/// A status of 0 is kept as that of a stream that was closed in good order.
pub(crate) fn kept_status(status: Status) -> Status
    ensures { result ≡ kept_status status }
{
    if status.0 == Status::OK.0 {
        Status::STREAM_CLOSED
    } else {
        status
    }
}

/// The first close is kept.
pub(crate) fn first_close(kept: Option<Status>, status: Status) -> Option<Status>
    ensures { result ≡ first_close kept status }
{
    match kept {
        Some(first) => Some(first),
        None => Some(kept_status(status)),
    }
}

/// What is kept of the pipe's status when a reader is closed: the close of the last open one closes the pipe.
pub(crate) fn close_of_reader(is_open: bool, kept: Option<Status>, status: Status) -> Option<Status>
    ensures { result ≡ (if is_open then kept else first_close kept status) }
{
    if is_open {
        kept
    } else {
        first_close(kept, status)
    }
}

// The messages of the up lane, written to the rest of a frame.

ghost use Rattle.std.specs.Prelude.{◌≡◌, ◌++◌, ◌≤◌, length, OnOk};
ghost use Rattle.nk_wire.specs.Spelling.{UpFits, up_rest};

use crate::frame::Frame;
use crate::kind;
use nk_base::{Memory, UpMsg};

/// How many bytes the rest has.
pub fn size(m: &UpMsg) -> u32
    ensures size { result ≡ length (up_rest m.now) }
    ensures bounded { result ≤ 9 }
{
    match m {
        UpMsg::Open | UpMsg::Suspend | UpMsg::Resume | UpMsg::Deleting => 1,
        UpMsg::Cancel { .. } | UpMsg::BytesRead { .. } => 5,
        UpMsg::Verify { .. } => 9,
    }
}

/// Writes the rest at the end.
pub fn write(out: &mut Frame, m: &UpMsg) -> Result<(), Memory>
    ensures written { OnOk result (out.new ≡ out.old ++ up_rest m.now) }
    ensures fits { OnOk result (UpFits m.now) }
{
    match m {
        UpMsg::Open => out.kind(kind::OPEN),
        UpMsg::Suspend => out.kind(kind::SUSPEND),
        UpMsg::Resume => out.kind(kind::RESUME),
        UpMsg::Cancel { status } => {
            out.kind(kind::CANCEL)?;
            out.u32(status.0)
        }
        UpMsg::Verify { hop, status } => {
            out.kind(kind::VERIFY)?;
            out.u32(*hop)?;
            out.u32(status.0)
        }
        UpMsg::BytesRead { count } => {
            out.kind(kind::BYTES_READ)?;
            out.u32(*count)
        }
        UpMsg::Deleting => out.kind(kind::DELETING),
    }
}

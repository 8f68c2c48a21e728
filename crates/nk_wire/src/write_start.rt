// A start, written to the rest of a frame on either lane.

ghost use Rattle.std.specs.Prelude.{◌≡◌, ◌++◌, ◌≤◌, ◌+◌, length, OnOk};
ghost use Rattle.nk_base.specs.Heads.{IsGoodHead};
ghost use Rattle.std.specs.List.{flat_map};
ghost use Rattle.nk_wire.specs.Spelling.{HasFourBytes, field, start};

use crate::frame::{Frame, headers_size};
use nk_base::{Head, Memory, Status};

/// How many bytes the fields of a start with this head have.
pub fn size(head: &Head) -> u32
    requires { IsGoodHead head.now }
    ensures size { result ≡ 12 + length (flat_map field head.now.fields) }
    ensures bounded { result ≤ 528652 }
{
    12 + headers_size(&head.fields) as u32
}

/// Writes the fields of a start at the end.
pub fn write(out: &mut Frame, hop: u32, status: Status, head: &Head) -> Result<(), Memory>
    requires { IsGoodHead head.now }
    ensures written { OnOk result (out.new ≡ out.old ++ start hop status head.now) }
    ensures fits { OnOk result (HasFourBytes status) }
{
    out.u32(hop)?;
    out.u32(status.0)?;
    out.u16(head.code)?;
    out.headers(&head.fields)?;
    Ok(())
}

// The messages of the main lane, written to the rest of a frame.

ghost use Rattle.std.specs.Prelude.{◌≡◌, ◌++◌, ◌≤◌, length, OnOk};
ghost use Rattle.nk_base.specs.Ranges.{IsMainInRange};
ghost use Rattle.nk_wire.specs.Spelling.{MainFits, main_rest};
ghost use Rattle.nk_wire.specs.Kinds.{longest_rest};

use crate::frame::Frame;
use crate::{kind, write_start};
use nk_base::{MainMsg, Memory};

/// How many bytes the rest has.
pub fn size(m: &MainMsg) -> u32
    requires { IsMainInRange m.now }
    ensures size { result ≡ length (main_rest m.now) }
    ensures bounded { result ≤ longest_rest }
{
    match m {
        MainMsg::Start { head, .. } => 1 + write_start::size(head),
        MainMsg::FailedOpen { .. } => 9,
        MainMsg::Redirect1 { .. } => 7,
        MainMsg::Redirect3 { .. } => 5,
    }
}

/// Writes the rest at the end.
pub fn write(out: &mut Frame, m: &MainMsg) -> Result<(), Memory>
    requires { IsMainInRange m.now }
    ensures written { OnOk result (out.new ≡ out.old ++ main_rest m.now) }
    ensures fits { OnOk result (MainFits m.now) }
{
    match m {
        MainMsg::Start { hop, status, head } => {
            out.kind(kind::START)?;
            write_start::write(out, *hop, *status, head)?;
            Ok(())
        }
        MainMsg::FailedOpen { hop, status } => {
            out.kind(kind::FAILED_OPEN)?;
            out.u32(*hop)?;
            out.u32(status.0)
        }
        MainMsg::Redirect1 { hop, code } => {
            out.kind(kind::REDIRECT1)?;
            out.u32(*hop)?;
            out.u16(*code)
        }
        MainMsg::Redirect3 { hop } => {
            out.kind(kind::REDIRECT3)?;
            out.u32(*hop)
        }
    }
}

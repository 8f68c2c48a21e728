// The messages of the background lane, written to the rest of a frame.

ghost use Rattle.std.specs.Prelude.{◌≡◌, ◌++◌, ◌≤◌, ◌<◌, ◌^◌, ℕ, true, length, OnOk};
ghost use Rattle.nk_base.specs.declared.status.Status.{Status as SpecStatus};
ghost use Rattle.nk_base.specs.declared.message.BackMsg.TheVariants.{Bytes as SpecBytes};
ghost use Rattle.nk_base.specs.Fields.{are_good_fields};
ghost use Rattle.nk_base.specs.Ranges.{IsBackInRange};
ghost use Rattle.nk_wire.specs.Spelling.{BackFits, HasFourBytes, stop, back_rest};
ghost use Rattle.nk_wire.specs.Kinds.{longest_rest};

use crate::frame::{Frame, headers_size};
use crate::{kind, write_start};
use nk_base::{BackMsg, Fields, Memory, Piece, Status};

/// How many bytes the rest of a stop has.
fn stop_size(trailers: &Fields) -> u32
    requires count { length trailers.now ≤ 64 }
    requires good { are_good_fields trailers.now ≡ true }
    ensures size { (hop : ℕ) (status : SpecStatus) → result ≡ length (stop hop status trailers.now) }
    ensures bounded { result ≤ longest_rest }
{
    if trailers.len() == 0 {
        return 9;
    }
    12 + headers_size(trailers) as u32
}

/// How many bytes the rest has.
pub fn size(m: &BackMsg) -> u32
    requires { IsBackInRange m.now }
    ensures size { result ≡ length (back_rest m.now) }
    ensures bounded { result ≤ longest_rest }
{
    match m {
        BackMsg::StartSent { .. } => 5,
        BackMsg::Bytes { piece, .. } => 21 + piece.size(),
        BackMsg::Stop { trailers, .. } => stop_size(trailers),
        BackMsg::Start { head, .. } => 1 + write_start::size(head),
    }
}

/// Writes the rest of a stop at the end: the second version where there are trailers.
fn stop(out: &mut Frame, hop: u32, status: Status, trailers: &Fields) -> Result<(), Memory>
    requires count { length trailers.now ≤ 64 }
    requires good { are_good_fields trailers.now ≡ true }
    ensures written { OnOk result (out.new ≡ out.old ++ stop hop status trailers.now) }
    ensures fits { OnOk result (HasFourBytes status) }
{
    if trailers.len() == 0 {
        out.kind(kind::STOP)?;
        out.u32(hop)?;
        return out.u32(status.0);
    }
    out.kind(kind::SECOND_VERSION)?;
    out.kind(kind::STOP)?;
    out.u32(hop)?;
    out.u32(status.0)?;
    out.headers(trailers)?;
    Ok(())
}

/// Writes the rest of a piece's message at the end.
fn bytes(
    out: &mut Frame,
    hop: u32,
    status: Status,
    offset: u64,
    piece: &Piece,
) -> Result<(), Memory>
    ensures written { OnOk result (out.new ≡ out.old ++ back_rest (SpecBytes hop status offset piece.now)) }
    ensures fits { OnOk result (HasFourBytes status × (offset < 2 ^ 64)) }
{
    out.kind(kind::BYTES)?;
    out.u32(hop)?;
    out.u32(status.0)?;
    out.u64(offset)?;
    out.u32(piece.size())?;
    out.put(piece.as_slice())?;
    Ok(())
}

/// Writes the rest at the end.
pub fn write(out: &mut Frame, m: &BackMsg) -> Result<(), Memory>
    requires { IsBackInRange m.now }
    ensures written { OnOk result (out.new ≡ out.old ++ back_rest m.now) }
    ensures fits { OnOk result (BackFits m.now) }
{
    match m {
        BackMsg::StartSent { hop } => {
            out.kind(kind::START_SENT)?;
            out.u32(*hop)
        }
        BackMsg::Bytes {
            hop,
            status,
            offset,
            piece,
        } => bytes(out, *hop, *status, *offset, piece),
        BackMsg::Stop {
            hop,
            status,
            trailers,
        } => stop(out, *hop, *status, trailers),
        BackMsg::Start { hop, status, head } => {
            out.kind(kind::BACK_START)?;
            write_start::write(out, *hop, *status, head)?;
            Ok(())
        }
    }
}

// The messages of the up lane, read from the rest of a frame.

ghost use Rattle.std.specs.Prelude.{◌≡◌, ◌≤◌, length};
ghost use Rattle.nk_wire.specs.Kinds.{cancel, verify, bytes_read, up_kinds, longest_rest};
ghost use Rattle.nk_wire.specs.Reading.{Gives, read, read_kind, up_answer};

use crate::cursor::Cursor;
use crate::error::DecodeError;
use crate::kind;
use nk_base::UpMsg;

fn cancel(cursor: &mut Cursor) -> Result<UpMsg, DecodeError>
    ensures { Gives (λ m. (m, cursor.new)) result (read cancel cursor.old) }
{
    let status = cursor.failure()?;
    Ok(UpMsg::Cancel { status })
}

fn verify(cursor: &mut Cursor) -> Result<UpMsg, DecodeError>
    ensures { Gives (λ m. (m, cursor.new)) result (read verify cursor.old) }
{
    let hop = cursor.hop()?;
    let status = cursor.status()?;
    Ok(UpMsg::Verify { hop, status })
}

fn bytes_read(cursor: &mut Cursor) -> Result<UpMsg, DecodeError>
    ensures { Gives (λ m. (m, cursor.new)) result (read bytes_read cursor.old) }
{
    let count = cursor.u32_within(1, 131_072)?;
    Ok(UpMsg::BytesRead { count })
}

/// The fields behind a kind.
fn message(kind: u8, cursor: &mut Cursor) -> Result<UpMsg, DecodeError>
    ensures { Gives (λ m. (m, cursor.new)) result (read_kind up_kinds kind cursor.old) }
{
    match kind {
        kind::OPEN => Ok(UpMsg::Open),
        kind::SUSPEND => Ok(UpMsg::Suspend),
        kind::RESUME => Ok(UpMsg::Resume),
        kind::CANCEL => cancel(cursor),
        kind::VERIFY => verify(cursor),
        kind::BYTES_READ => bytes_read(cursor),
        kind::DELETING => Ok(UpMsg::Deleting),
        _ => Err(DecodeError::Kind(kind)),
    }
}

/// What the rest says, or its first fault.
pub fn answer(rest: &[u8]) -> Result<UpMsg, DecodeError>
    requires { length rest.now ≤ longest_rest }
    ensures { Gives (λ m. m) result (up_answer rest.now) }
{
    let mut cursor = Cursor::new(rest);
    let kind = cursor.kind()?;
    let message = message(kind, &mut cursor)?;
    cursor.end(message)
}

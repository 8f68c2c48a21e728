// The messages of the background lane, read from the rest of a frame.

ghost use Rattle.std.specs.Prelude.{◌≡◌, ◌≤◌, length};
ghost use Rattle.nk_wire.specs.Kinds.{back_start, start_sent, bytes, stop, stop_with_trailers, back_kinds, second_kinds, longest_rest};
ghost use Rattle.nk_wire.specs.Reading.{Gives, read, read_kind, second_message, back_message, back_answer};

use crate::cursor::Cursor;
use crate::error::DecodeError;
use crate::kind;
use crate::start::{Start, read_start};
use nk_base::{BackMsg, Fields};
use std::alloc::Global;

#[tactic(auto, using(crate::proofs::Starts::read_back_start))]
fn back_start(alloc: Global, cursor: &mut Cursor) -> Result<BackMsg, DecodeError>
    ensures { Gives (λ m. (m, cursor.new)) result (read back_start cursor.old) }
{
    let Start { hop, status, head } = read_start(alloc, cursor)?;
    Ok(BackMsg::Start { hop, status, head })
}

fn start_sent(cursor: &mut Cursor) -> Result<BackMsg, DecodeError>
    ensures { Gives (λ m. (m, cursor.new)) result (read start_sent cursor.old) }
{
    let hop = cursor.hop()?;
    Ok(BackMsg::StartSent { hop })
}

fn bytes(alloc: Global, cursor: &mut Cursor) -> Result<BackMsg, DecodeError>
    ensures { Gives (λ m. (m, cursor.new)) result (read bytes cursor.old) }
{
    let hop = cursor.hop()?;
    let status = cursor.status()?;
    let offset = cursor.offset()?;
    let length = cursor.u32_within(1, 131_072)?;
    let piece = cursor.piece(alloc, length)?;
    Ok(BackMsg::Bytes {
        hop,
        status,
        offset,
        piece,
    })
}

fn stop(alloc: Global, cursor: &mut Cursor) -> Result<BackMsg, DecodeError>
    ensures { Gives (λ m. (m, cursor.new)) result (read stop cursor.old) }
{
    let hop = cursor.hop()?;
    let status = cursor.status()?;
    Ok(BackMsg::Stop {
        hop,
        status,
        trailers: Fields::new(alloc),
    })
}

fn stop_with_trailers(alloc: Global, cursor: &mut Cursor) -> Result<BackMsg, DecodeError>
    ensures { Gives (λ m. (m, cursor.new)) result (read stop_with_trailers cursor.old) }
{
    let hop = cursor.hop()?;
    let status = cursor.ok_status()?;
    let count = cursor.u16_within(1, 64)?;
    let trailers = cursor.headers(alloc, count)?;
    Ok(BackMsg::Stop {
        hop,
        status,
        trailers,
    })
}

/// The kind and the fields behind the byte of the second version.
fn second_message(alloc: Global, cursor: &mut Cursor) -> Result<BackMsg, DecodeError>
    ensures { Gives (λ m. (m, cursor.new)) result (second_message cursor.old) }
{
    match cursor.kind()? {
        kind::STOP => stop_with_trailers(alloc, cursor),
        kind => Err(DecodeError::Kind(kind)),
    }
}

/// What stands behind the first byte.
fn message(alloc: Global, kind: u8, cursor: &mut Cursor) -> Result<BackMsg, DecodeError>
    ensures { Gives (λ m. (m, cursor.new)) result (back_message kind cursor.old) }
{
    match kind {
        kind::START_SENT => start_sent(cursor),
        kind::BYTES => bytes(alloc, cursor),
        kind::STOP => stop(alloc, cursor),
        kind::BACK_START => back_start(alloc, cursor),
        kind::SECOND_VERSION => second_message(alloc, cursor),
        _ => Err(DecodeError::Kind(kind)),
    }
}

/// What the rest says, or its first fault.
pub fn answer(alloc: Global, rest: &[u8]) -> Result<BackMsg, DecodeError>
    requires { length rest.now ≤ longest_rest }
    ensures { Gives (λ m. m) result (back_answer rest.now) }
{
    let mut cursor = Cursor::new(rest);
    let kind = cursor.kind()?;
    let message = message(alloc, kind, &mut cursor)?;
    cursor.end(message)
}

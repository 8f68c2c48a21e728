// The messages of the main lane, read from the rest of a frame.

ghost use Rattle.std.specs.Prelude.{◌≡◌, ◌≤◌, length};
ghost use Rattle.nk_wire.specs.Kinds.{main_start, failed_open, redirect1, redirect3, main_kinds, longest_rest};
ghost use Rattle.nk_wire.specs.Reading.{Gives, read, read_kind, main_answer};

use crate::cursor::Cursor;
use crate::error::DecodeError;
use crate::kind;
use crate::start::{Start, read_start};
use nk_base::MainMsg;
use std::alloc::Global;

#[tactic(auto, using(crate::proofs::Starts::read_main_start))]
fn main_start(alloc: Global, cursor: &mut Cursor) -> Result<MainMsg, DecodeError>
    ensures { Gives (λ m. (m, cursor.new)) result (read main_start cursor.old) }
{
    let Start { hop, status, head } = read_start(alloc, cursor)?;
    Ok(MainMsg::Start { hop, status, head })
}

fn failed_open(cursor: &mut Cursor) -> Result<MainMsg, DecodeError>
    ensures { Gives (λ m. (m, cursor.new)) result (read failed_open cursor.old) }
{
    let hop = cursor.hop()?;
    let status = cursor.failure()?;
    Ok(MainMsg::FailedOpen { hop, status })
}

fn redirect1(cursor: &mut Cursor) -> Result<MainMsg, DecodeError>
    ensures { Gives (λ m. (m, cursor.new)) result (read redirect1 cursor.old) }
{
    let hop = cursor.hop()?;
    let code = cursor.u16_within(300, 399)?;
    Ok(MainMsg::Redirect1 { hop, code })
}

fn redirect3(cursor: &mut Cursor) -> Result<MainMsg, DecodeError>
    ensures { Gives (λ m. (m, cursor.new)) result (read redirect3 cursor.old) }
{
    let hop = cursor.hop()?;
    Ok(MainMsg::Redirect3 { hop })
}

/// The fields behind a kind.
fn message(alloc: Global, kind: u8, cursor: &mut Cursor) -> Result<MainMsg, DecodeError>
    ensures { Gives (λ m. (m, cursor.new)) result (read_kind main_kinds kind cursor.old) }
{
    match kind {
        kind::START => main_start(alloc, cursor),
        kind::FAILED_OPEN => failed_open(cursor),
        kind::REDIRECT1 => redirect1(cursor),
        kind::REDIRECT3 => redirect3(cursor),
        _ => Err(DecodeError::Kind(kind)),
    }
}

/// What the rest says, or its first fault.
pub fn answer(alloc: Global, rest: &[u8]) -> Result<MainMsg, DecodeError>
    requires { length rest.now ≤ longest_rest }
    ensures { Gives (λ m. m) result (main_answer rest.now) }
{
    let mut cursor = Cursor::new(rest);
    let kind = cursor.kind()?;
    let message = message(alloc, kind, &mut cursor)?;
    cursor.end(message)
}

// A start, which both lanes down have.

ghost use Rattle.std.specs.Prelude.{◌≡◌, ◌≤◌, length, true};
ghost use Rattle.nk_base.specs.Fields.{are_good_fields};
ghost use Rattle.nk_base.specs.Heads.{is_status_code};
ghost use Rattle.nk_wire.specs.Kinds.{start};
ghost use Rattle.nk_wire.specs.Reading.{Gives, read};

use crate::cursor::Cursor;
use crate::error::DecodeError;
use nk_base::{Fields, Head, Status};
use std::alloc::Global;

/// The fields of a start.
#[derive(Drop)]
pub struct Start {
    /// The hop that it is of.
    pub hop: u32,
    /// How it stands with the load.
    pub status: Status,
    /// The head of the response.
    pub head: Head,
}

/// The head of a code and fields that are in range.
#[tactic(auto, using(crate::proofs::Heads::head_answer_good))]
fn head_of(code: u16, fields: Fields) -> Head
    requires code { is_status_code code ≡ true }
    requires count { length fields ≤ 64 }
    requires good { are_good_fields fields ≡ true }
    ensures { result ≡ record { code = code; fields = fields } }
{
    match Head::new(code, fields) {
        Ok(head) => head,
        Err(_) => unreachable!(),
    }
}

/// The fields of a start.
pub fn read_start(alloc: Global, cursor: &mut Cursor) -> Result<Start, DecodeError>
    ensures { Gives (λ s. (s, cursor.new)) result (read (start (λ hop status head. record { hop = hop; status = status; head = head })) cursor.old) }
{
    let hop = cursor.hop()?;
    let status = cursor.status()?;
    let code = cursor.u16_within(100, 999)?;
    let count = cursor.u16_within(0, 64)?;
    let fields = cursor.headers(alloc, count)?;
    let head = head_of(code, fields);
    Ok(Start { hop, status, head })
}

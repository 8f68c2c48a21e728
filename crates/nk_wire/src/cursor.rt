// Reading the fields of a message one after the other.

ghost use Rattle.std.specs.Prelude.{◌≡◌, ◌≤◌, ◌+◌, length, true, IfOk};
ghost use Rattle.nk_base.specs.Fields.{is_good_name, is_good_value, is_good_field, are_good_fields};
ghost use Rattle.nk_wire.specs.Layouts.{U16, U32, U64};
ghost use Rattle.nk_wire.specs.Kinds.{within, any_number, any_bytes, is_hop, is_status, is_failing, is_ok, longest_rest};
ghost use Rattle.nk_wire.specs.Reading.{Gives, begin, bytes_at, in_range_at, whole_number_at, number_at, text_at, header_at, headers_at, kind_at, at_end};

use crate::error::DecodeError;
use nk_base::{Field, Fields, Name, Piece, PieceError, Status, Value};
use std::alloc::Global;
use std::marker::Model;

/// A place in the rest of a frame: how many bytes stand before it, and those behind it.
#[derive(Drop)]
pub struct Cursor<'a> {
    at: u32,
    left: &'a [u8],
}

impl<'a> Model for Cursor<'a> {
    ghost use Rattle.std.specs.Prelude.{◌+◌, ◌≤◌, length};
    ghost use Rattle.nk_wire.specs.Reading.{Place};
    ghost use Rattle.nk_wire.specs.Kinds.{longest_rest};

    ghost Value = { Place };

    ghost view = { λ c. record { at = c.at; left = c.left.now } };

    ghost invariant = { λ c. c.at + length c.left.now ≤ longest_rest };
}

/// A field that began at this place, where it is in range.
fn in_range<T: Drop>(value: T, is_in_range: bool, at: u32) -> Result<T, DecodeError>
    ensures { result ≡ in_range_at is_in_range at value }
{
    if is_in_range {
        Ok(value)
    } else {
        Err(DecodeError::BadField(at))
    }
}

impl<'a> Cursor<'a> {
    /// The place before the first byte.
    pub fn new(rest: &'a [u8]) -> Cursor<'a>
        requires { length rest.now ≤ longest_rest }
        ensures { result ≡ begin rest.now }
    {
        Cursor { at: 0, left: rest }
    }

    /// The next bytes, so many.
    pub fn take(&mut self, count: u32) -> Result<&'a [u8], DecodeError>
        requires { count ≤ 131072 }
        ensures { Gives (λ bytes. (bytes.now, self.new)) result (bytes_at count self.old) }
    {
        let left = self.left;
        if left.len() < count as usize {
            return Err(DecodeError::Short {
                have: self.at + left.len() as u32,
                need: self.at + count,
            });
        }
        let (bytes, rest) = left.split_at(count as usize);
        self.at += count;
        self.left = rest;
        Ok(bytes)
    }

    /// The next byte, a kind or a version.
    pub fn kind(&mut self) -> Result<u8, DecodeError>
        ensures { Gives (λ kind. (kind, self.new)) result (kind_at self.old) }
    {
        match self.left {
            [] => Err(DecodeError::Short {
                have: self.at,
                need: self.at + 1,
            }),
            [kind, rest @ ..] => {
                self.at += 1;
                self.left = rest;
                Ok(*kind)
            }
        }
    }

    #[tactic(auto, unfolding(crate::specs::Reading::whole_number_at))]
    fn u16(&mut self) -> Result<u16, DecodeError>
        ensures { Gives (λ n. (n, self.new)) result (whole_number_at U16 self.old) }
    {
        let b = self.take(2)?;
        Ok(u16::from_le_bytes([b[0], b[1]]))
    }

    #[tactic(auto, unfolding(crate::specs::Reading::whole_number_at))]
    fn u32(&mut self) -> Result<u32, DecodeError>
        ensures { Gives (λ n. (n, self.new)) result (whole_number_at U32 self.old) }
    {
        let b = self.take(4)?;
        Ok(u32::from_le_bytes([b[0], b[1], b[2], b[3]]))
    }

    #[tactic(auto, unfolding(crate::specs::Reading::whole_number_at))]
    fn u64(&mut self) -> Result<u64, DecodeError>
        ensures { Gives (λ n. (n, self.new)) result (whole_number_at U64 self.old) }
    {
        let b = self.take(8)?;
        let bytes = [b[0], b[1], b[2], b[3], b[4], b[5], b[6], b[7]];
        Ok(u64::from_le_bytes(bytes))
    }

    /// The next number of 2 bytes, from `least` to `most`.
    #[tactic(auto, unfolding(crate::specs::Reading::number_at))]
    pub fn u16_within(&mut self, least: u16, most: u16) -> Result<u16, DecodeError>
        ensures value { Gives (λ n. (n, self.new)) result (number_at U16 (within least most) self.old) }
        ensures within { IfOk result (λ n. (least ≤ n) × (n ≤ most)) }
    {
        let at = self.at;
        let n = self.u16()?;
        in_range(n, least <= n && n <= most, at)
    }

    /// The next number of 4 bytes, from `least` to `most`.
    #[tactic(auto, unfolding(crate::specs::Reading::number_at))]
    pub fn u32_within(&mut self, least: u32, most: u32) -> Result<u32, DecodeError>
        ensures value { Gives (λ n. (n, self.new)) result (number_at U32 (within least most) self.old) }
        ensures within { IfOk result (λ n. (least ≤ n) × (n ≤ most)) }
    {
        let at = self.at;
        let n = self.u32()?;
        in_range(n, least <= n && n <= most, at)
    }

    /// The next number of 8 bytes.
    #[tactic(auto, unfolding(crate::specs::Reading::number_at))]
    pub fn offset(&mut self) -> Result<u64, DecodeError>
        ensures { Gives (λ n. (n, self.new)) result (number_at U64 any_number self.old) }
    {
        self.u64()
    }

    /// The next number, a hop.
    #[tactic(auto, unfolding(crate::specs::Reading::number_at))]
    pub fn hop(&mut self) -> Result<u32, DecodeError>
        ensures { Gives (λ hop. (hop, self.new)) result (number_at U32 is_hop self.old) }
    {
        let at = self.at;
        let hop = self.u32()?;
        in_range(hop, hop < 32, at)
    }

    /// The next number, a legal status.
    #[tactic(auto, unfolding(crate::specs::Reading::number_at))]
    pub fn status(&mut self) -> Result<Status, DecodeError>
        ensures { Gives (λ status. (status.0, self.new)) result (number_at U32 is_status self.old) }
    {
        let at = self.at;
        let status = Status(self.u32()?);
        in_range(status, status.is_legal(), at)
    }

    /// The next number, a failing status.
    #[tactic(auto, unfolding(crate::specs::Reading::number_at))]
    pub fn failure(&mut self) -> Result<Status, DecodeError>
        ensures { Gives (λ status. (status.0, self.new)) result (number_at U32 is_failing self.old) }
    {
        let at = self.at;
        let status = Status(self.u32()?);
        in_range(status, status.is_failure(), at)
    }

    /// The next number, the status of a load that went well.
    #[tactic(auto, unfolding(crate::specs::Reading::number_at))]
    pub fn ok_status(&mut self) -> Result<Status, DecodeError>
        ensures { Gives (λ status. (status.0, self.new)) result (number_at U32 is_ok self.old) }
    {
        let at = self.at;
        let status = Status(self.u32()?);
        in_range(status, status.0 == 0, at)
    }

    /// The next bytes, so many: a name.
    #[tactic(auto, unfolding(crate::specs::Reading::text_at))]
    fn name(&mut self, alloc: Global, length: u16) -> Result<Name, DecodeError>
        ensures value { Gives (λ name. (name, self.new)) result (text_at length is_good_name self.old) }
        ensures good { IfOk result (λ name. is_good_name name ≡ true) }
    {
        let at = self.at;
        let bytes = self.take(length as u32)?;
        let name = Name::new(alloc, bytes)?;
        let is_good = name.is_good();
        in_range(name, is_good, at)
    }

    /// The next bytes, so many: a value.
    #[tactic(auto, unfolding(crate::specs::Reading::text_at))]
    fn value(&mut self, alloc: Global, length: u16) -> Result<Value, DecodeError>
        ensures value { Gives (λ value. (value, self.new)) result (text_at length is_good_value self.old) }
        ensures good { IfOk result (λ value. is_good_value value ≡ true) }
    {
        let at = self.at;
        let bytes = self.take(length as u32)?;
        let value = Value::new(alloc, bytes)?;
        let is_good = value.is_good();
        in_range(value, is_good, at)
    }

    /// The next header field.
    #[tactic(auto, unfolding(crate::specs::Reading::header_at))]
    fn header(&mut self, alloc: Global) -> Result<Field, DecodeError>
        ensures value { Gives (λ field. (field, self.new)) result (header_at self.old) }
        ensures good { IfOk result (λ field. is_good_field field ≡ true) }
    {
        let length = self.u16_within(1, 64)?;
        let name = self.name(alloc, length)?;
        let length = self.u16_within(1, 8192)?;
        let value = self.value(alloc, length)?;
        Ok(Field { name, value })
    }

    /// The next header fields, so many.
    pub fn headers(&mut self, alloc: Global, count: u16) -> Result<Fields, DecodeError>
        ensures value { Gives (λ fields. (fields, self.new)) result (headers_at count self.old) }
        ensures count { IfOk result (λ fields. length fields ≡ count) }
        ensures good { IfOk result (λ fields. are_good_fields fields ≡ true) }
    {
        let mut fields = Fields::new(alloc);
        for _ in 0..count {
            let field = self.header(alloc)?;
            fields.push(field)?;
        }
        Ok(fields)
    }

    /// The next bytes, so many: a piece, which is copied once.
    #[tactic(auto, unfolding(crate::specs::Reading::text_at))]
    pub fn piece(&mut self, alloc: Global, length: u32) -> Result<Piece, DecodeError>
        requires least { 1 ≤ length }
        requires most { length ≤ 131072 }
        ensures { Gives (λ piece. (piece, self.new)) result (text_at length any_bytes self.old) }
    {
        let bytes = self.take(length)?;
        match Piece::new(alloc, bytes) {
            Ok(piece) => Ok(piece),
            Err(PieceError::Memory) => Err(DecodeError::Memory),
            Err(PieceError::Empty | PieceError::TooLong) => unreachable!(),
        }
    }

    /// The message, where nothing follows its fields.
    pub fn end<M: Drop>(&self, message: M) -> Result<M, DecodeError>
        ensures { result ≡ at_end (message, self.now) }
    {
        if self.left.is_empty() {
            return Ok(message);
        }
        Err(DecodeError::Long {
            extra: self.left.len() as u32,
        })
    }
}

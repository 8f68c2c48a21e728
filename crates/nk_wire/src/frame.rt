// A whole frame, and how one is written.

ghost use Rattle.std.specs.Prelude.{◌≡◌, ◌++◌, ◌≤◌, ◌<◌, ◌+◌, ◌*◌, ◌^◌, ◌∷◌, [], length, drop, true, IfOk, OnOk};
ghost use Rattle.std.specs.List.{flat_map};
ghost use Rattle.nk_base.specs.Fields.{are_good_fields, is_good_field};
ghost use Rattle.nk_wire.specs.Layouts.{little, U16, U32, U64};
ghost use Rattle.nk_wire.specs.Spelling.{field, fields};
ghost use Rattle.nk_wire.specs.Kinds.{longest_rest};

use nk_base::{Field, Fields, Memory};
use std::alloc::Global;
use std::marker::Model;

/// The bytes of a whole frame. This project's own.
#[derive(Drop)]
pub struct Frame {
    bytes: Vec<u8>,
}

impl Model for Frame {
    ghost use Rattle.std.specs.Prelude.{List, ℕ};

    ghost Value = { List ℕ };

    ghost view = { λ s. s.bytes.items };
}

impl Frame {
    /// The bytes.
    pub fn as_slice(&self) -> &[u8]
        ensures { result.now ≡ self.now }
    {
        self.bytes.as_slice()
    }

    /// The rest, which a decoder reads: what stands behind the 4 bytes of the length.
    pub fn rest(&self) -> &[u8]
        ensures { result.now ≡ drop 4 self.now }
    {
        match self.bytes.as_slice() {
            [_, _, _, _, rest @ ..] => rest,
            _ => &[],
        }
    }

    /// A frame with a rest of this size, of which the length is written, and for which there is room.
    pub(crate) fn with_length(alloc: Global, size: u32) -> Result<Frame, Memory>
        requires { size ≤ longest_rest }
        ensures { IfOk result (λ f. f ≡ little U32 size) }
    {
        let Ok(bytes) = Vec::with_capacity(alloc, 4 + size as usize) else {
            return Err(Memory);
        };
        let mut frame = Frame { bytes };
        frame.u32(size)?;
        Ok(frame)
    }

    /// Writes bytes at the end.
    pub(crate) fn put(&mut self, bytes: &[u8]) -> Result<(), Memory>
        ensures { OnOk result (self.new ≡ self.old ++ bytes.now) }
    {
        match self.bytes.extend_from_slice(bytes) {
            Ok(()) => Ok(()),
            Err(_) => Err(Memory),
        }
    }

    /// Writes a kind at the end.
    pub(crate) fn kind(&mut self, kind: u8) -> Result<(), Memory>
        ensures { OnOk result (self.new ≡ self.old ++ kind ∷ []) }
    {
        self.put(&[kind])
    }

    /// Writes a number of 2 bytes at the end.
    pub(crate) fn u16(&mut self, n: u16) -> Result<(), Memory>
        ensures { OnOk result (self.new ≡ self.old ++ little U16 n) }
    {
        self.put(&n.to_le_bytes())
    }

    /// Writes a number of 4 bytes at the end.
    pub(crate) fn u32(&mut self, n: u32) -> Result<(), Memory>
        ensures written { OnOk result (self.new ≡ self.old ++ little U32 n) }
        ensures fits { n < 2 ^ 32 }
    {
        self.put(&n.to_le_bytes())
    }

    /// Writes a number of 8 bytes at the end.
    pub(crate) fn u64(&mut self, n: u64) -> Result<(), Memory>
        ensures written { OnOk result (self.new ≡ self.old ++ little U64 n) }
        ensures fits { n < 2 ^ 64 }
    {
        self.put(&n.to_le_bytes())
    }

    /// Writes a header field at the end.
    fn header(&mut self, item: &Field) -> Result<(), Memory>
        requires { is_good_field item.now ≡ true }
        ensures { OnOk result (self.new ≡ self.old ++ field item.now) }
    {
        let name = item.name.as_slice();
        self.u16(name.len() as u16)?;
        self.put(name)?;
        let value = item.value.as_slice();
        self.u16(value.len() as u16)?;
        self.put(value)
    }

    /// Writes how many header fields there are, and each of them, at the end.
    pub(crate) fn headers(&mut self, items: &Fields) -> Result<(), Memory>
        requires count { length items.now ≤ 64 }
        requires good { are_good_fields items.now ≡ true }
        ensures { OnOk result (self.new ≡ self.old ++ fields items.now) }
    {
        self.u16(items.len() as u16)?;
        for i in 0..items.len() {
            self.header(items.get(i))?;
        }
        Ok(())
    }
}

/// How many bytes a header field has in a frame.
fn header_size(item: &Field) -> usize
    requires { is_good_field item.now ≡ true }
    ensures size { result ≡ length (field item.now) }
    ensures bounded { result ≤ 8260 }
{
    4 + item.name.as_slice().len() + item.value.as_slice().len()
}

/// How many bytes header fields have in a frame, without their number.
pub(crate) fn headers_size(items: &Fields) -> usize
    requires count { length items.now ≤ 64 }
    requires good { are_good_fields items.now ≡ true }
    ensures size { result ≡ length (flat_map field items.now) }
    ensures bounded { result ≤ 528640 }
{
    let mut size = 0;
    for i in 0..items.len() {
        size += header_size(items.get(i));
    }
    size
}

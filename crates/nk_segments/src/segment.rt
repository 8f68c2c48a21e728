// One segment with its count.

ghost use Rattle.std.specs.Prelude.{◌≡◌, ◌+◌, ◌-◌, ◌<◌, ◌≤◌, ◌*◌, IfOk, length, replicate, nat_lt};
ghost use Rattle.nk_segments.specs.Segments.{raised, lowered, with_bytes};

use nk_base::Memory;
use std::alloc::Global;
use std::marker::Model;

/// A buffer, and how many readers stand in it or in front of it.
#[derive(Drop)]
pub(crate) struct Segment {
    bytes: Vec<u8>,
    readers: u32,
}

impl Model for Segment {
    ghost use Rattle.nk_segments.specs.Segments.{Segment as Counted};

    ghost Value = { Counted };

    ghost view = { λ s. record { bytes = s.bytes.items; readers = s.readers } };
}

impl Segment {
    /// A segment of zeros.
    pub(crate) fn new(alloc: Global, size: u32, readers: u32) -> Result<Self, Memory>
        ensures { IfOk result (λ s. s ≡ record { bytes = replicate size 0; readers = readers }) }
    {
        match vec![in alloc; 0u8; size as usize] {
            Ok(bytes) => Ok(Segment { bytes, readers }),
            Err(_) => Err(Memory),
        }
    }

    /// The bytes.
    pub(crate) fn bytes(&self) -> &[u8]
        ensures { result.now ≡ self.now.bytes }
    {
        self.bytes.as_slice()
    }

    /// Whether a reader stands in it or in front of it.
    pub(crate) fn is_needed(&self) -> bool
        ensures { result ≡ nat_lt 0 self.now.readers }
    {
        0 < self.readers
    }

    /// Puts bytes into it from `at` on.
    pub(crate) fn put(&mut self, at: u32, bytes: &[u8])
        requires { at + length bytes.now ≤ length self.old.bytes }
        ensures { self.new ≡ with_bytes at bytes.now self.old }
    {
        let from = at as usize;
        self.bytes[from..from + bytes.len()].copy_from_slice(bytes);
    }

    /// One more reader stands in it or in front of it.
    pub(crate) fn raise(&mut self)
        requires { self.old.readers < 8 }
        ensures { self.new ≡ raised self.old }
    {
        self.readers += 1;
    }

    /// One reader has left it.
    pub(crate) fn lower(&mut self)
        requires { 0 < self.old.readers }
        ensures { self.new ≡ lowered self.old }
    {
        self.readers -= 1;
    }
}

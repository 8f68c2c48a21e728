//! Sources in memory: bytes that are given in pieces, with failures where a test wants them, and
//! bytes that are given without any.
ghost use Rattle.std.specs.Prelude.{◌≡◌, ◌<◌, ◌≤◌, length, take, drop, min, [], ◌++◌, Some};
ghost use Rattle.nk_io.specs.Faults.{Rose};
ghost use Rattle.nk_io.specs.Left.{OnTook, OnEnd, OnFailed};
ghost use Rattle.nk_io.specs.Memory.{next_take, after_take, take_of};

use crate::calls::Calls;
use crate::source::{Source, Take};
use std::marker::Model;

// Bytes and a place in them. Contracts see the bytes behind it.
#[derive(Debug, Drop)]
struct Unread {
    bytes: Vec<u8>,
    place: usize,
}

impl Model for Unread {
    ghost use Rattle.std.specs.Prelude.{List, ℕ, ◌≤◌, drop, length};

    ghost Value = { List ℕ };

    ghost view = { λ s. drop s.place s.bytes.items };

    ghost invariant = { λ s. s.place ≤ length s.bytes.items };
}

impl Unread {
    fn new(bytes: Vec<u8>) -> Self
        ensures { result ≡ bytes.items }
    {
        Unread { bytes, place: 0 }
    }

    // Moves what fits to the front of the buffer.
    fn take(&mut self, buffer: &mut [u8]) -> usize
        ensures count { result ≡ min (length buffer.old) (length self.old) }
        ensures given { take result buffer.new ≡ take result self.old }
        ensures rest { self.new ≡ drop result self.old }
    {
        let rest = &self.bytes[self.place..];
        let count = buffer.len().min(rest.len());
        buffer[..count].copy_from_slice(&rest[..count]);
        self.place += count;
        count
    }
}

// The answer of a source that gave so many bytes.
fn answer(count: usize) -> Take
    ensures { result ≡ take_of count }
{
    if count == 0 {
        Take::End
    } else {
        Take::Took(count)
    }
}

/// A source that gives the bytes of a list, and fails at chosen calls (this project's own).
#[derive(Debug, Drop)]
pub struct MemSource {
    unread: Unread,
    most: usize,
    calls: Calls,
}

impl Model for MemSource {
    ghost use Rattle.std.specs.Prelude.{◌≤◌};
    ghost use Rattle.nk_io.specs.Memory.{SourceState};

    ghost Value = { SourceState };

    ghost view = { λ s. record {
      left = s.unread;
      most = s.most;
      fails = s.calls.fails.items;
      calls = s.calls.made;
      faults = s.calls.faults;
    } };

    ghost invariant = { λ s. 1 ≤ s.most };
}

impl MemSource {
    /// Gives at most `most` bytes per call, and fails at the calls numbered in `fails`, from 1 on.
    pub fn new(bytes: Vec<u8>, most: usize, fails: Vec<u64>) -> Self
        requires { 1 ≤ most }
        ensures { result ≡ record {
          left = bytes.items;
          most = most;
          fails = fails.items;
          calls = 0;
          faults = 0;
        } }
    {
        MemSource {
            unread: Unread::new(bytes),
            most,
            calls: Calls::new(fails),
        }
    }
}

impl Source for MemSource {
    ghost left = { λ s. Some s.left };

    ghost faults = { λ s. s.faults };

    fn take(&mut self, buffer: &mut [u8]) -> Take
        requires { 0 < length buffer.old }
        ensures answer { result ≡ next_take self.old (length buffer.old) }
        ensures after { self.new ≡ after_take self.old (length buffer.old) }

        // What any source ensures.
        ensures took { OnTook result (λ n. (0 < n) × (n ≤ length buffer.new)
            × (self.old.left ≡ take n buffer.new ++ self.new.left)) }
        ensures end { OnEnd result ((self.old.left ≡ []) × (self.new.left ≡ self.old.left)) }
        ensures failed { OnFailed result (Rose self.old.faults self.new.faults
            × (self.new.left ≡ self.old.left)) }
        ensures never_falls { self.old.faults ≤ self.new.faults }
    {
        if self.calls.begin() {
            return Take::Failed;
        }
        let room = self.most.min(buffer.len());
        answer(self.unread.take(&mut buffer[..room]))
    }
}

/// A source that gives the bytes of a list and never fails (this project's own).
#[derive(Debug, Drop)]
pub struct SureSource {
    unread: Unread,
}

impl Model for SureSource {
    ghost use Rattle.std.specs.Prelude.{List, ℕ};

    ghost Value = { List ℕ };

    ghost view = { λ s. s.unread };
}

impl SureSource {
    /// Gives these bytes, as many per call as the buffer has room for.
    pub fn new(bytes: Vec<u8>) -> Self
        ensures { result ≡ bytes.items }
    {
        SureSource {
            unread: Unread::new(bytes),
        }
    }
}

impl Source for SureSource {
    ghost left = { λ s. Some s };

    ghost faults = { λ _. 0 };

    fn take(&mut self, buffer: &mut [u8]) -> Take
        requires { 0 < length buffer.old }
        ensures answer { result ≡ take_of (min (length buffer.old) (length self.old)) }
        ensures after { self.new ≡ drop (length buffer.old) self.old }

        // What any source ensures. A count of 0 never rises, so it never fails.
        ensures took { OnTook result (λ n. (0 < n) × (n ≤ length buffer.new)
            × (self.old ≡ take n buffer.new ++ self.new)) }
        ensures end { OnEnd result ((self.old ≡ []) × (self.new ≡ self.old)) }
        ensures failed { OnFailed result (Rose 0 0 × (self.new ≡ self.old)) }
        ensures never_falls { 0 ≤ 0 }
    {
        answer(self.unread.take(buffer))
    }
}

//! Sinks in memory: one that fails where a test wants it, or where it finds no memory, and one that
//! never fails.
ghost use Rattle.std.specs.Prelude.{◌≡◌, ◌<◌, ◌≤◌, length, take, [], ◌++◌, None, Some, IfSome, true};
ghost use Rattle.nk_io.specs.Faults.{Rose};
ghost use Rattle.nk_io.specs.Got.{Gains, OnPut, OnFailed};
ghost use Rattle.nk_io.specs.Memory.{sink_fails, taken_count, after_put, after_failed_put};

use crate::calls::Calls;
use crate::sink::{Put, Sink};
use std::alloc::Global;
use std::marker::Model;

/// A sink that keeps what it got, and fails at chosen calls (this project's own).
#[derive(Debug, Drop)]
pub struct MemSink {
    bytes: Vec<u8>,
    most: usize,
    calls: Calls,
}

impl Model for MemSink {
    ghost use Rattle.std.specs.Prelude.{◌≤◌};
    ghost use Rattle.nk_io.specs.Memory.{SinkState};

    ghost Value = { SinkState };

    ghost view = { λ s. record {
      got = s.bytes.items;
      most = s.most;
      fails = s.calls.fails.items;
      calls = s.calls.made;
      faults = s.calls.faults;
    } };

    ghost invariant = { λ s. 1 ≤ s.most };
}

impl MemSink {
    /// Takes at most `most` bytes per call, and fails at the calls numbered in `fails`, from 1 on.
    pub fn new(alloc: Global, most: usize, fails: Vec<u64>) -> Self
        requires { 1 ≤ most }
        ensures { result ≡ record {
          got = [];
          most = most;
          fails = fails.items;
          calls = 0;
          faults = 0;
        } }
    {
        MemSink {
            bytes: Vec::new(alloc),
            most,
            calls: Calls::new(fails),
        }
    }

    /// The bytes that it got.
    pub fn bytes(&self) -> &[u8]
        ensures { result.now ≡ self.now.got }
    {
        &self.bytes
    }
}

impl Sink for MemSink {
    ghost got = { λ s. Some s.got };

    ghost faults = { λ s. s.faults };

    /// A put for which it finds no memory is also a failure.
    fn put(&mut self, bytes: &[u8]) -> Put
        requires { 0 < length bytes.now }
        ensures chosen { sink_fails self.old ≡ true → result ≡ Put.Failed }
        ensures taken { OnPut result (λ n. (n ≡ taken_count self.old (length bytes.now))
            × (self.new ≡ after_put self.old bytes.now)) }
        ensures refused { OnFailed result (self.new ≡ after_failed_put self.old) }

        // What any sink ensures.
        ensures put { OnPut result (λ n. (0 < n) × (n ≤ length bytes.now)
            × (self.new.got ≡ self.old.got ++ take n bytes.now)) }
        ensures failed { OnFailed result (Rose self.old.faults self.new.faults
            × (Some self.new.got ≡ Some self.old.got)) }
        ensures never_falls { self.old.faults ≤ self.new.faults }
    {
        if self.calls.begin() {
            return Put::Failed;
        }
        let count = self.most.min(bytes.len());
        if self.bytes.extend_from_slice(&bytes[..count]).is_err() {
            self.calls.fault();
            return Put::Failed;
        }
        Put::Put(count)
    }
}

/// A sink that never fails (this project's own). Once it finds no memory it keeps nothing more, and
/// tells no longer what it got.
#[derive(Debug, Drop)]
pub struct SureSink {
    bytes: Vec<u8>,
    lost: bool,
}

impl Model for SureSink {
    ghost use Rattle.std.specs.Prelude.{Option, None, Some, List, ℕ, if◌then◌else◌};

    ghost Value = { Option (List ℕ) };

    ghost view = { λ s. if s.lost then None else Some s.bytes.items };
}

impl SureSink {
    /// A sink that got nothing yet.
    pub fn new(alloc: Global) -> Self
        ensures { result ≡ Some [] }
    {
        SureSink {
            bytes: Vec::new(alloc),
            lost: false,
        }
    }

    /// The bytes that it got, where it tells them.
    pub fn bytes(&self) -> &[u8]
        ensures { IfSome self.now (λ got. result.now ≡ got) }
    {
        &self.bytes
    }
}

impl Sink for SureSink {
    ghost got = { λ s. s };

    ghost faults = { λ _. 0 };

    fn put(&mut self, bytes: &[u8]) -> Put
        requires { 0 < length bytes.now }
        ensures answer { result ≡ Put.Put (length bytes.now) }
        ensures gains { Gains self.old self.new bytes.now }

        // What any sink ensures. A count of 0 never rises, so it never fails.
        ensures put { OnPut result (λ n. (0 < n) × (n ≤ length bytes.now)
            × Gains self.old self.new (take n bytes.now)) }
        ensures failed { OnFailed result (Rose 0 0 × (self.new ≡ self.old)) }
        ensures never_falls { 0 ≤ 0 }
    {
        self.lost = self.lost || self.bytes.extend_from_slice(bytes).is_err();
        Put::Put(bytes.len())
    }
}

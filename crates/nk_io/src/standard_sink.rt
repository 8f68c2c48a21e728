//! The trusted edge: std's writers as sinks.
ghost use Rattle.nk_io.specs.Told.{StillTells};

use crate::retrying::write_again;
use crate::sink::{Put, Sink};
use std::io::Write;
use std::snapshot::Snapshot;

/// A writer of std as a sink (this project's own).
///
/// It tells what the writer got since the sink was made, where the writer told its bytes then. std
/// lets a writer begin to tell at any write, and a sink may not, so one that begins later tells none
/// here. The `put` says in a clause of its own what becomes of the bytes that any writer tells.
#[derive(Drop)]
#[derive_where(Debug; W)]
pub struct StdSink<W: Write> {
    inner: W,
    faults: u64,
    #[derive_where(skip)]
    made: Snapshot<W>,
    ghost told: { ∥ StillTells (W.contents made.value) (W.contents inner) ∥₁ },
}

impl<W: Write> StdSink<W> {
    ghost use Rattle.std.specs.Prelude.{◌≡◌};
    ghost use Rattle.nk_io.specs.Told.{none_yet};
    ghost use Rattle.nk_io.specs.Standard.{writer, writer_faults, writer_got};

    /// A sink over this writer, with no fault yet.
    pub fn new(inner: W) -> Self
        ensures inner { writer result ≡ inner }
        ensures faults { writer_faults result ≡ 0 }
        ensures got { writer_got result ≡ none_yet (W.contents inner) }
    {
        StdSink {
            made: Snapshot::of(&inner),
            inner,
            faults: 0,
        }
    }
}

impl<W: Write> Sink for StdSink<W> {
    ghost use Rattle.std.specs.Prelude.{◌≡◌, ◌<◌, ◌≤◌, length, take};
    ghost use Rattle.std.specs.Io.KnownBytes.{Keeps, Appends};
    ghost use Rattle.nk_io.specs.Faults.{Rose, one_more};
    ghost use Rattle.nk_io.specs.Got.{Gains, OnPut, OnFailed};
    ghost use Rattle.nk_io.specs.Standard.{writer, writer_faults, writer_got};

    ghost got = { writer_got };

    ghost faults = { λ s. s.faults };

    /// An interrupted write is made again, a bounded number of times. Each other `Err` is a fault,
    /// and so is a write that takes nothing.
    fn put(&mut self, bytes: &[u8]) -> Put
        requires { 0 < length bytes.now }
        ensures put { OnPut result (λ n. (0 < n) × (n ≤ length bytes.now)
            × Gains (writer_got self.old) (writer_got self.new) (take n bytes.now)) }
        ensures failed { OnFailed result (Rose (writer_faults self.old) (writer_faults self.new)
            × (writer_got self.new ≡ writer_got self.old)) }
        ensures never_falls { writer_faults self.old ≤ writer_faults self.new }

        // The bytes that the writer tells.
        ensures appended { OnPut result (λ n. Appends (W.contents (writer self.old))
            (W.contents (writer self.new)) (take n bytes.now)) }
        ensures kept { OnFailed result (Keeps (W.contents (writer self.old)) (W.contents (writer self.new))) }

        // The count changes at a failure alone, by one, and stays at its last value.
        ensures count { OnPut result (λ _. writer_faults self.new ≡ writer_faults self.old) }
        ensures count_failed { OnFailed result (writer_faults self.new ≡ one_more (writer_faults self.old)) }
    {
        match write_again(&mut self.inner, bytes) {
            Ok(count) if count > 0 => Put::Put(count),
            _ => {
                self.faults = self.faults.saturating_add(1);
                Put::Failed
            }
        }
    }
}

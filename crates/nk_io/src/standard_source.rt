//! The trusted edge: std's readers as sources.
ghost use Rattle.std.specs.Prelude.{◌≡◌, ◌<◌, ◌≤◌, length, take};
ghost use Rattle.std.specs.Io.KnownBytes.{Consumes, Keeps, IsAtEnd};
ghost use Rattle.nk_io.specs.Faults.{Rose, one_more};
ghost use Rattle.nk_io.specs.Left.{OnTook, OnEnd, OnFailed};
ghost use Rattle.nk_io.specs.Standard.{reader, reader_faults};

use crate::retrying::read_again;
use crate::source::{Source, Take};
use std::io::Read;

/// A reader of std as a source (this project's own).
#[derive(Debug, Drop)]
pub struct StdSource<R> {
    inner: R,
    faults: u64,
}

impl<R: Read> StdSource<R> {
    /// A source over this reader, with no fault yet.
    pub fn new(inner: R) -> Self
        ensures inner { reader result ≡ inner }
        ensures faults { reader_faults result ≡ 0 }
    {
        StdSource { inner, faults: 0 }
    }
}

impl<R: Read> Source for StdSource<R> {
    ghost left = { λ s. R.remaining s.inner };

    ghost faults = { λ s. s.faults };

    /// An interrupted read is made again, a bounded number of times. Each other `Err` is a fault, and
    /// a read of 0 bytes is the end.
    fn take(&mut self, buffer: &mut [u8]) -> Take
        requires { 0 < length buffer.old }
        ensures took { OnTook result (λ n. (0 < n) × (n ≤ length buffer.new)
            × Consumes (R.remaining (reader self.old)) (R.remaining (reader self.new)) (take n buffer.new)) }
        ensures end { OnEnd result (IsAtEnd (R.remaining (reader self.old))
            × Keeps (R.remaining (reader self.old)) (R.remaining (reader self.new))) }
        ensures failed { OnFailed result (Rose (reader_faults self.old) (reader_faults self.new)
            × Keeps (R.remaining (reader self.old)) (R.remaining (reader self.new))) }
        ensures never_falls { reader_faults self.old ≤ reader_faults self.new }

        // The count changes at a failure alone, by one, and stays at its last value.
        ensures count { OnTook result (λ _. reader_faults self.new ≡ reader_faults self.old) }
        ensures count_at_end { OnEnd result (reader_faults self.new ≡ reader_faults self.old) }
        ensures count_failed { OnFailed result (reader_faults self.new ≡ one_more (reader_faults self.old)) }
    {
        match read_again(&mut self.inner, buffer) {
            Ok(0) => Take::End,
            Ok(count) => Take::Took(count),
            Err(_) => {
                self.faults = self.faults.saturating_add(1);
                Take::Failed
            }
        }
    }
}

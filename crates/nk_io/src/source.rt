//! Where bytes come from: what a source answers to each call, and what that says of the bytes that
//! it has left.
ghost use Rattle.std.specs.Prelude.{◌<◌, ◌≤◌, ℕ, Option, List, length, take};
ghost use Rattle.std.specs.Io.KnownBytes.{Consumes, Keeps, IsAtEnd};
ghost use Rattle.nk_io.specs.Faults.{Rose};
ghost use Rattle.nk_io.specs.Left.{OnTook, OnEnd, OnFailed};

/// The answer of [`Source::take`] (this project's own).
#[derive(Clone, Copy, Debug, PartialEq, Eq)]
pub enum Take {
    /// So many bytes, at least one, stand at the front of the buffer.
    Took(usize),
    /// Nothing is left.
    End,
    /// The source failed, and gave nothing.
    Failed,
}

/// A source of bytes (this project's own, in the shape of std's `Read`).
pub trait Source {
    // The bytes that it has left, where it tells them. What is told before a call is told after it.
    ghost left: { Self → Option (List ℕ) };

    // How often it has failed. The count never falls, and stays at the last value of a `u64`.
    ghost faults: { Self → ℕ };

    /// Takes the next bytes into the front of the buffer. A source that gives nothing answers `End`.
    fn take(&mut self, buffer: &mut [u8]) -> Take
        requires { 0 < length buffer.old }
        ensures took { OnTook result (λ n. (0 < n) × (n ≤ length buffer.new)
            × Consumes (left self.old) (left self.new) (take n buffer.new)) }
        ensures end { OnEnd result (IsAtEnd (left self.old) × Keeps (left self.old) (left self.new)) }
        ensures failed { OnFailed result (Rose (faults self.old) (faults self.new)
            × Keeps (left self.old) (left self.new)) }
        ensures never_falls { faults self.old ≤ faults self.new };
}

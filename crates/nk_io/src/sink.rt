//! Where bytes go: what a sink answers to each call, and what that says of the bytes that it got.
ghost use Rattle.std.specs.Prelude.{◌≡◌, ◌<◌, ◌≤◌, ℕ, Option, List, length, take};
ghost use Rattle.nk_io.specs.Faults.{Rose};
ghost use Rattle.nk_io.specs.Got.{Gains, OnPut, OnFailed};

/// The answer of [`Sink::put`] (this project's own).
#[derive(Clone, Copy, Debug, PartialEq, Eq)]
pub enum Put {
    /// So many bytes of the front, at least one, were taken.
    Put(usize),
    /// The sink failed, and took nothing.
    Failed,
}

/// A sink of bytes (this project's own, in the shape of std's `Write`).
pub trait Sink {
    // The bytes that it got, where it tells them. What is told after a call was told before it.
    ghost got: { Self → Option (List ℕ) };

    // How often it has failed. The count never falls, and stays at the last value of a `u64`.
    ghost faults: { Self → ℕ };

    /// Puts bytes of the front into the sink, as many as it takes at once.
    fn put(&mut self, bytes: &[u8]) -> Put
        requires { 0 < length bytes.now }
        ensures put { OnPut result (λ n. (0 < n) × (n ≤ length bytes.now)
            × Gains (got self.old) (got self.new) (take n bytes.now)) }
        ensures failed { OnFailed result (Rose (faults self.old) (faults self.new)
            × (got self.new ≡ got self.old)) }
        ensures never_falls { faults self.old ≤ faults self.new };
}

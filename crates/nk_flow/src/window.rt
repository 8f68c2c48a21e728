// The send window of one channel, which its parent keeps.

ghost use Rattle.std.specs.Prelude.{◌≡◌, ◌≤◌, ◌≤ℤ◌, true, pos};
ghost use Rattle.nk_flow.specs.Credit.{Credit, full, may_send, sent, read};

use std::marker::Model;

/// The send window of a channel, in bytes, and the credit that is left of it. A piece may be sent while there is
/// credit, though it be longer than the credit, so the credit may fall below 0. This project's own.
#[derive(Drop)]
pub struct Window {
    window: u32,
    credit: i64,
}

impl Model for Window {
    ghost use Rattle.nk_flow.specs.Credit.{Credit, IsWithin};

    ghost Value = { Credit };

    ghost view = { λ s. record { window = s.window; credit = s.credit } };

    ghost invariant = { λ s. IsWithin s.window s.credit };
}

impl Window {
    /// The most bytes that are sent at once: those of the longest piece.
    pub const MOST: u32 = 131_072;

    /// A window of so many bytes, all of them credit.
    pub fn new(window: u32) -> Window
        ensures { result ≡ full window }
    {
        Window {
            window,
            credit: i64::from(window),
        }
    }

    /// Whether there is credit.
    pub fn may_send(&self) -> bool
        ensures { result ≡ may_send self.now }
    {
        self.credit > 0
    }

    /// n bytes were sent.
    pub fn sent(&mut self, n: u32)
        requires may_send { may_send self.old ≡ true }
        requires most { n ≤ 131072 }
        ensures { self.new ≡ sent n self.old }
    {
        self.credit -= i64::from(n);
    }

    /// The page has read n bytes.
    pub fn read(&mut self, n: u32)
        ensures { self.new ≡ read n self.old }
    {
        self.credit = (self.credit + i64::from(n)).min(i64::from(self.window));
    }

    /// The bytes of credit, below 0 where more was sent than there was credit.
    pub fn credit(&self) -> i64
        ensures credit { result ≡ self.now.credit }
        ensures within { result ≤ℤ pos self.now.window }
    {
        self.credit
    }
}

// How much the placed items took, moved and sent. The walk over blocks and the walk over entries count alike.

ghost use Rattle.std.specs.Prelude.{◌≡◌, ◌&&◌};
ghost use Rattle.nk_plan.specs.Walk.{may, may_forward};
ghost use Rattle.nk_walk.specs.Counted.{AreCloseTo, AreSmall, no_counts, with_child, with_forward, with_parent};

use crate::block::{ChildBlock, ParentBlock};

/// How many messages the placed items took, moved and sent, lane by lane.
///
/// A list has fewer than 2^64 blocks of at most 255 messages, so no count comes near 2^127.
#[derive(Drop)]
pub(crate) struct Counts {
    ups_taken: u128,
    ups_sent: u128,
    mains_taken: u128,
    mains_sent: u128,
    backs_taken: u128,
    backs_moved: u128,
    backs_sent: u128,
}

// The next message of a lane may be taken once it was sent: its number is that of the messages taken before it.
fn may(takes: bool, taken: u128, sent: u128) -> bool
    ensures { result ≡ may takes taken sent }
{
    !takes || taken < sent
}

impl Counts {
    /// Nothing is placed.
    pub(crate) fn new() -> Counts
        ensures { result ≡ no_counts }
    {
        Counts {
            ups_taken: 0,
            ups_sent: 0,
            mains_taken: 0,
            mains_sent: 0,
            backs_taken: 0,
            backs_moved: 0,
            backs_sent: 0,
        }
    }

    /// Whether what this block of the parent takes was sent.
    pub(crate) fn may_parent(&self, block: &ParentBlock) -> bool
        ensures { result ≡ may block.now.takes_up self.now.ups_taken self.now.ups_sent }
    {
        may(block.takes_up(), self.ups_taken, self.ups_sent)
    }

    /// Whether a forward is left, and its message was sent.
    pub(crate) fn may_forward(&self, forwards: usize) -> bool
        ensures { result ≡ may_forward forwards self.now.backs_moved self.now.backs_sent }
    {
        forwards > 0 && self.backs_moved < self.backs_sent
    }

    /// Whether what this block of the child takes was sent, and moved on.
    pub(crate) fn may_child(&self, block: &ChildBlock) -> bool
        ensures { result ≡ (may block.now.takes_main self.now.mains_taken self.now.mains_sent && may block.now.takes_back self.now.backs_taken self.now.backs_moved) }
    {
        may(block.takes_main(), self.mains_taken, self.mains_sent)
            && may(block.takes_back(), self.backs_taken, self.backs_moved)
    }

    /// Counts a block of the parent that is placed.
    pub(crate) fn place_parent(&mut self, block: &ParentBlock)
        requires { AreSmall self.old }
        ensures value { self.new ≡ with_parent block.now self.old }
        ensures most { AreCloseTo self.old self.new }
    {
        self.ups_taken += u128::from(block.takes_up());
        self.mains_sent += u128::from(block.mains());
        self.backs_sent += u128::from(block.backs());
    }

    /// Counts a forward that is placed.
    pub(crate) fn place_forward(&mut self)
        requires { AreSmall self.old }
        ensures value { self.new ≡ with_forward self.old }
        ensures most { AreCloseTo self.old self.new }
    {
        self.backs_moved += 1;
    }

    /// Counts a block of the child that is placed.
    pub(crate) fn place_child(&mut self, block: &ChildBlock)
        requires { AreSmall self.old }
        ensures value { self.new ≡ with_child block.now self.old }
        ensures most { AreCloseTo self.old self.new }
    {
        self.mains_taken += u128::from(block.takes_main());
        self.backs_taken += u128::from(block.takes_back());
        self.ups_sent += u128::from(block.ups());
    }
}

// What the walk needs of a block of entries: what it takes, and how much it sends.

ghost use Rattle.std.specs.Prelude.{◌≡◌};

use std::marker::Model;

/// What one block of a parent's journal takes and sends, by number: whether it takes an up message,
/// and how many messages it sends on each lane down, 255 at most. This project's own.
#[derive(Drop)]
pub struct ParentBlock {
    takes_up: bool,
    mains: u8,
    backs: u8,
}

impl Model for ParentBlock {
    ghost use Rattle.nk_plan.specs.Walk.{ParentBlock};

    ghost Value = { ParentBlock };

    ghost view = { λ s. record { takes_up = s.takes_up; mains = s.mains; backs = s.backs } };
}

impl ParentBlock {
    /// A block that takes and sends so much.
    pub fn new(takes_up: bool, mains: u8, backs: u8) -> ParentBlock
        ensures { result ≡ record { takes_up = takes_up; mains = mains; backs = backs } }
    {
        ParentBlock {
            takes_up,
            mains,
            backs,
        }
    }

    /// Whether it takes an up message.
    pub fn takes_up(&self) -> bool
        ensures { result ≡ self.now.takes_up }
    {
        self.takes_up
    }

    /// How many messages it sends on the main lane.
    pub fn mains(&self) -> u8
        ensures { result ≡ self.now.mains }
    {
        self.mains
    }

    /// How many messages it hands to the background half.
    pub fn backs(&self) -> u8
        ensures { result ≡ self.now.backs }
    {
        self.backs
    }
}

/// What one block of a child's journal takes and sends, by number: whether it takes a message of each
/// lane down, and how many up messages it sends, 255 at most. This project's own.
#[derive(Drop)]
pub struct ChildBlock {
    takes_main: bool,
    takes_back: bool,
    ups: u8,
}

impl Model for ChildBlock {
    ghost use Rattle.nk_plan.specs.Walk.{ChildBlock};

    ghost Value = { ChildBlock };

    ghost view = { λ s. record { takes_main = s.takes_main; takes_back = s.takes_back; ups = s.ups } };
}

impl ChildBlock {
    /// A block that takes and sends so much.
    pub fn new(takes_main: bool, takes_back: bool, ups: u8) -> ChildBlock
        ensures { result ≡ record { takes_main = takes_main; takes_back = takes_back; ups = ups } }
    {
        ChildBlock {
            takes_main,
            takes_back,
            ups,
        }
    }

    /// Whether it takes a message of the main lane.
    pub fn takes_main(&self) -> bool
        ensures { result ≡ self.now.takes_main }
    {
        self.takes_main
    }

    /// Whether it takes a message of the background lane.
    pub fn takes_back(&self) -> bool
        ensures { result ≡ self.now.takes_back }
    {
        self.takes_back
    }

    /// How many up messages it sends.
    pub fn ups(&self) -> u8
        ensures { result ≡ self.now.ups }
    {
        self.ups
    }
}

//! Which calls of a source or a sink in memory fail, for tests of what stands above them.
ghost use Rattle.std.specs.Prelude.{◌≡◌, [], if◌then◌else◌, false};
ghost use Rattle.nk_io.specs.Faults.{one_more};
ghost use Rattle.nk_io.specs.Memory.{fails_next};

/// The calls that fail, by number from 1, how many calls were made, and how many of them failed. Both
/// counts stay at the last value of a `u64` once they are there.
#[derive(Debug, Drop)]
pub struct Calls {
    fails: Vec<u64>,
    made: u64,
    faults: u64,
}

impl Calls {
    /// No call was made yet.
    pub fn new(fails: Vec<u64>) -> Self
        ensures { result ≡ record { fails = fails; made = 0; faults = 0 } }
    {
        Calls {
            fails,
            made: 0,
            faults: 0,
        }
    }

    /// Counts a call, and says whether it fails.
    pub fn begin(&mut self) -> bool
        ensures answer { result ≡ fails_next self.old.fails.items self.old.made }
        ensures after { self.new ≡ record self.old { made = one_more self.old.made; faults = if result then one_more self.old.faults else self.old.faults } }
    {
        let fails = is_next(&self.fails, self.made);
        self.made = self.made.saturating_add(1);
        if fails {
            self.fault();
        }
        fails
    }

    /// Counts a fault.
    pub fn fault(&mut self)
        ensures { self.new ≡ record self.old { faults = one_more self.old.faults } }
    {
        self.faults = self.faults.saturating_add(1);
    }
}

// Whether the call after so many is among these. No `u64` numbers a call after the last.
fn is_next(fails: &[u64], made: u64) -> bool
    ensures { result ≡ fails_next fails.now made }
{
    match made.checked_add(1) {
        Some(number) => fails.contains(&number),
        None => false,
    }
}

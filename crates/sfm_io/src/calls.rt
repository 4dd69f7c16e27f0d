// Counts of faults and of calls. A count stands still at its last value, and no call beyond it is listed as failing,
// since the list holds numbers of the same width: so a count that stands still misses no listed call.
ghost use Rattle.std.specs.Prelude.{◌≡◌, ◌↔◌, ◌+◌, ◌≤◌, [], Contains, IsTrue, IfOk, OnOk, OnErr, is_ok, if◌then◌else◌};
ghost use Rattle.sfm_io.specs.Faults.{counted, CountedCalls};

use crate::Failed;
use sfm_base::Memory;
use std::alloc::Global;
use std::marker::Model;

/// How many faults there were.
#[derive(Drop)]
pub(crate) struct Faults {
    count: u64,
}

impl Model for Faults {
    ghost use Rattle.std.specs.Prelude.{ℕ};

    ghost Value = { ℕ };

    ghost view = { λ f. f.count };
}

impl Faults {
    pub(crate) fn new() -> Faults
        ensures { result ≡ 0 }
    {
        Faults { count: 0 }
    }

    /// Counts a fault.
    pub(crate) fn raise(&mut self)
        ensures counts { self.new ≡ counted self.old }
        ensures grows { self.old ≤ self.new }
    {
        self.count = self.count.saturating_add(1);
    }
}

/// How many calls were made, how many faults there were, and the numbers of the calls that fail, counted from 1.
#[derive(Drop)]
pub(crate) struct Calls {
    made: usize,
    faults: Faults,
    failing: Vec<usize>,
}

impl Model for Calls {
    ghost use Rattle.sfm_io.specs.Faults.{CountedCalls};

    ghost Value = { CountedCalls };

    ghost view = { λ c. record { made = c.made; faults = c.faults; failing = c.failing.items } };
}

impl Calls {
    pub(crate) fn new(alloc: Global, failing: &[usize]) -> Result<Calls, Memory>
        ensures { IfOk result (λ c. c ≡ record { made = 0; faults = 0; failing = failing.now }) }
    {
        let failing = Vec::from_slice(alloc, failing)?;
        Ok(Calls {
            made: 0,
            faults: Faults::new(),
            failing,
        })
    }

    /// Counts a call, which fails where its number is listed.
    pub(crate) fn make(&mut self) -> Result<(), Failed>
        ensures passes { OnOk result (¬ Contains self.old.failing (self.old.made + 1)) }
        ensures fails { OnErr result (Contains self.old.failing (self.old.made + 1)) }
        ensures counts { self.new ≡ record self.old {
          made = counted self.old.made;
          faults = (if is_ok result then self.old.faults else counted self.old.faults);
        } }
        ensures grows { (self.old.made ≤ self.new.made) × (self.old.faults ≤ self.new.faults) }
    {
        let fails = is_next_listed(self.failing.as_slice(), self.made);
        self.made = self.made.saturating_add(1);
        if fails {
            return Err(self.fail());
        }
        Ok(())
    }

    /// Counts a fault.
    pub(crate) fn fail(&mut self) -> Failed
        ensures counts { self.new ≡ record self.old { faults = counted self.old.faults } }
        ensures grows { self.old.faults ≤ self.new.faults }
    {
        self.faults.raise();
        Failed
    }
}

/// Whether the call after so many is listed.
fn is_next_listed(failing: &[usize], made: usize) -> bool
    ensures { IsTrue result ↔ Contains failing.now (made + 1) }
{
    match made.checked_add(1) {
        Some(number) => failing.contains(&number),
        None => false,
    }
}

//! The calls of an object in memory that fail.
ghost use Rattle.std.specs.Prelude.{◌≡◌, ◌≤◌};
ghost use Rattle.mx_outside.specs.Calls.{FaultPlan, fresh, is_failing, counted};

use std::marker::Model;

/// The numbers of the calls that fail, from 0, the number of the next call, and the count of faults.
#[derive(Drop)]
pub struct Calls {
    failing: Vec<u64>,
    next: u64,
    faults: u64,
}

impl Model for Calls {
    ghost Value = { FaultPlan };

    ghost view = { λ c. record { failing = c.failing.items; next = c.next; faults = c.faults } };
}

impl Calls {
    /// No call was made yet.
    pub fn new(failing: Vec<u64>) -> Calls
        ensures { result ≡ fresh failing.items }
    {
        Calls {
            failing,
            next: 0,
            faults: 0,
        }
    }

    /// Counts one call, and says whether it fails.
    pub fn begin(&mut self) -> bool
        ensures fails { result ≡ is_failing self.old }
        ensures after { self.new ≡ record self.old { next = counted self.old.next } }
    {
        let fails = self.failing.as_slice().contains(&self.next);
        self.next = self.next.saturating_add(1);
        fails
    }

    /// Counts a fault.
    pub fn fault(&mut self)
        ensures after { self.new ≡ record self.old { faults = counted self.old.faults } }
        ensures grown { self.old.faults ≤ self.new.faults }
    {
        self.faults = self.faults.saturating_add(1);
    }
}

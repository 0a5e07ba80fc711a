//! How many positions searches have compared.

ghost use Rattle.std.specs.Prelude.{◌≡◌, ◌≤◌, ◌+◌, ◌-◌, ◌^◌, min, nat_le};

use std::marker::Model;

/// How many positions searches have compared, up to 2^64 - 1.
#[derive(Drop)]
pub struct Steps {
    count: u64,
}

impl Model for Steps {
    ghost use Rattle.std.specs.Prelude.{ℕ};
    ghost use Rattle.std.specs.Coded.{coded_ℕ};

    ghost Value = { ℕ };

    ghost coded = { coded_ℕ };

    ghost view = { λ s. s.count };
}

impl Steps {
    /// None yet.
    pub fn new() -> Steps
        ensures { result ≡ 0 }
    {
        Steps { count: 0 }
    }

    /// How many there were.
    pub fn count(&self) -> u64
        ensures { result ≡ self.now }
    {
        self.count
    }

    /// Whether a position is at most another: one comparison.
    pub(crate) fn is_upto(&mut self, position: u64, last: u64) -> bool
        ensures upto { result ≡ nat_le position last }
        ensures counted { self.new ≡ min (self.old + 1) (2 ^ 64 - 1) }
        ensures more { self.old ≤ self.new }
    {
        self.count = self.count.saturating_add(1);
        position <= last
    }
}

//! A clock that its readings alone move.
ghost use Rattle.std.specs.Prelude.{◌≡◌, ◌≤◌, [], ◌∷◌, ◌++◌, min};
ghost use Rattle.mx_outside.specs.Readings.{most_reading, read};

use crate::clock::{Clock, MOST_READING};
use crate::readings::Readings;
use std::marker::Model;

/// A clock whose first reading is given, and that each reading moves on by a step, up to the greatest
/// reading. A rest returns at once.
#[derive(Debug, Drop)]
pub struct StepClock {
    next: u64,
    step: u64,
    last: u64,
    readings: Readings,
}

impl Model for StepClock {
    ghost use Rattle.mx_outside.specs.Readings.{Steps};

    ghost Value = { Steps };

    ghost view = { λ c. record { next = c.next; step = c.step; last = c.last; readings = c.readings.all } };
}

impl StepClock {
    /// A clock that reads `start` first, and each time `step` milliseconds more, at least 1.
    pub fn new(start: u64, step: u64) -> StepClock
        requires { 1 ≤ step }
        ensures { result ≡ record { next = start; step = step; last = 0; readings = [] } }
    {
        StepClock {
            next: start,
            step,
            last: 0,
            readings: Readings::none(),
        }
    }
}

impl Clock for StepClock {
    ghost last = { λ c. c.last };

    ghost readings = { λ c. c.readings };

    fn now(&mut self) -> u64
        ensures last { self.new.last ≡ result }
        ensures readings { self.new.readings ≡ self.old.readings ++ result ∷ [] }
        ensures most { result ≤ most_reading }
        ensures steps { self.new ≡ read self.old }
    {
        let reading = self.next.min(MOST_READING);
        self.next = reading.saturating_add(self.step).min(MOST_READING);
        self.last = reading;
        self.readings = Readings::with(&self.readings, reading);
        reading
    }

    fn rest(&mut self, _ms: u64) {}

    fn twin(&self) -> StepClock {
        StepClock {
            next: self.next,
            step: self.step,
            last: self.last,
            readings: Readings::same(&self.readings),
        }
    }
}

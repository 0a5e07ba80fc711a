//! The clock of the system.
ghost use Rattle.std.specs.Prelude.{◌≡◌, ◌≤◌, [], ◌∷◌, ◌++◌};
ghost use Rattle.mx_outside.specs.Readings.{most_reading};

use crate::clock::{Clock, MOST_READING};
use crate::readings::Readings;
use std::marker::Model;
use std::time::{Duration, SystemTime, UNIX_EPOCH};
use std::{rt, thread};

/// The clock of the system, in milliseconds since 1970. Nothing is told of its readings but their bound.
#[derive(Drop)]
pub struct HostClock<R> {
    rt: R,
    last: u64,
    readings: Readings,
}

impl<R> Model for HostClock<R> {
    ghost use Rattle.std.specs.Prelude.{ℕ, List};

    ghost Value = { R × (ℕ × List ℕ) };

    ghost view = { λ c. (c.rt, (c.last, c.readings.all)) };
}

impl<R: rt::Clock> HostClock<R> {
    /// The clock that `rt` gives, which wasn't read yet.
    pub fn new(rt: R) -> HostClock<R>
        ensures { result ≡ (rt, (0, [])) }
    {
        HostClock {
            rt,
            last: 0,
            readings: Readings::none(),
        }
    }

    /// The system's reading, if there is one.
    fn read(&self) -> Option<u64> {
        let since = SystemTime::now(&self.rt)
            .ok()?
            .duration_since(UNIX_EPOCH)
            .ok()?;
        u64::try_from(since.as_millis()).ok()
    }
}

impl<R: rt::Clock + Copy> Clock for HostClock<R> {
    ghost last = { λ c. c.1.0 };

    ghost readings = { λ c. c.1.1 };

    fn now(&mut self) -> u64 {
        self.last = self.read().unwrap_or(self.last).min(MOST_READING);
        self.readings = Readings::with(&self.readings, self.last);
        self.last
    }

    fn rest(&mut self, ms: u64) {
        thread::sleep(&self.rt, Duration::from_millis(ms));
    }

    fn twin(&self) -> HostClock<R> {
        HostClock {
            rt: self.rt,
            last: self.last,
            readings: Readings::same(&self.readings),
        }
    }
}

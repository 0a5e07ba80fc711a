//! A sink of bytes.
ghost use Rattle.std.specs.Prelude.{◌≡◌, ℕ, ◌≤◌, List, true};
ghost use Rattle.std.specs.declared.option.Option.{Option};
ghost use Rattle.mx_outside.specs.Causes.{Rose};
ghost use Rattle.mx_outside.specs.Moves.{Adds};

/// The answer of [`Sink::put`].
#[derive(Clone, Copy, PartialEq, Eq, Debug)]
pub enum Put {
    /// All bytes were added.
    Done,
    /// The sink failed, and the count of its faults rose.
    Failed,
}

/// A receiver of bytes outside, in order.
pub trait Sink {
    /// The bytes that were written, where the sink tells them.
    ghost written: { Self → Option (List ℕ) };

    /// The faults so far, a count that never falls. It may stop at 2^64 - 1.
    ghost faults: { Self → ℕ };

    /// Adds all of `bytes`. `Failed` comes only where the count of faults rose in this call, or
    /// stands at its last value; some bytes from the front of `bytes` may have been added then.
    fn put(&mut self, bytes: &[u8]) -> Put
        ensures bytes { Adds (written self.old) (written self.new) result bytes.now }
        ensures count { faults self.old ≤ faults self.new }
        ensures cause { result ≡ Put.Failed → Rose (faults self.old) (faults self.new) };

    /// Whether who takes the bytes has gone away, as far as that can be told without adding any. It is
    /// so only where the count of faults rose in this call, or stands at its last value.
    fn is_gone(&mut self) -> bool
        ensures bytes { written self.new ≡ written self.old }
        ensures count { faults self.old ≤ faults self.new }
        ensures cause { result ≡ true → Rose (faults self.old) (faults self.new) };
}

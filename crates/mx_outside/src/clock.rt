//! A clock.
ghost use Rattle.std.specs.Prelude.{◌≡◌, ℕ, ◌≤◌, List, [], ◌∷◌, ◌++◌};
ghost use Rattle.mx_outside.specs.Readings.{most_reading};

/// The greatest reading of a clock, in milliseconds: 2^53 - 1, the greatest integer of JSON
/// (Appendices, Canonical JSON).
pub(crate) const MOST_READING: u64 = 9_007_199_254_740_991;

/// A clock that counts milliseconds since 1970.
pub trait Clock: Sized {
    /// The last reading: what the last `now` answered, or 0 before the first.
    ghost last: { Self → ℕ };

    /// The readings so far, in order: what each `now` answered.
    ghost readings: { Self → List ℕ };

    /// Reads the clock: milliseconds, at most 9,007,199,254,740,991. It can't fail: a clock that isn't
    /// read answers its last reading.
    fn now(&mut self) -> u64
        ensures last { last self.new ≡ result }
        ensures readings { readings self.new ≡ readings self.old ++ result ∷ [] }
        ensures most { result ≤ most_reading };

    /// Waits for so many milliseconds, or not at all: nothing is claimed of the time that passes.
    fn rest(&mut self, ms: u64)
        ensures last { last self.new ≡ last self.old }
        ensures readings { readings self.new ≡ readings self.old };

    /// Another clock, with the same readings so far.
    fn twin(&self) -> Self
        ensures last { last result ≡ last self.now }
        ensures readings { readings result ≡ readings self.now };
}

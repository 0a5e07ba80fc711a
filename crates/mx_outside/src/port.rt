//! A connection whose calls never wait.
ghost use Rattle.std.specs.Prelude.{◌≡◌, ℕ, ◌<◌, List, true, length};
ghost use Rattle.std.specs.declared.option.Option.{Option};
ghost use Rattle.mx_outside.specs.Ports.{Counts, FitsNow, MovesNow, AddsNow, has_failed_to_take, has_waited_to_take, has_failed_to_put, has_waited_to_put};

/// The answer of [`Port::take_now`].
#[derive(Clone, Copy, PartialEq, Eq, Debug)]
pub enum TookNow {
    /// So many bytes were moved, at least one.
    Got(usize),
    /// No byte has come yet, and the count of waits rose.
    NotYet,
    /// The peer sends no more.
    End,
    /// The port failed, and the count of its faults rose.
    Failed,
}

/// The answer of [`Port::put_now`].
#[derive(Clone, Copy, PartialEq, Eq, Debug)]
pub enum PutNow {
    /// So many bytes from the front were added, at least one.
    Put(usize),
    /// No byte can be added yet, and the count of waits rose.
    NotYet,
    /// The port failed, and the count of its faults rose.
    Failed,
}

/// Both ways of a connection, in calls that never wait.
pub trait Port {
    /// The bytes that are left to be taken, where the port tells them.
    ghost left: { Self → Option (List ℕ) };

    /// The bytes that were put, where the port tells them.
    ghost written: { Self → Option (List ℕ) };

    /// The faults so far, a count that never falls. It may stop at 2^64 - 1.
    ghost faults: { Self → ℕ };

    /// How often the port wasn't ready, a count that never falls. It may stop at 2^64 - 1.
    ghost waits: { Self → ℕ };

    /// Moves bytes to the front of `into`, which must have room for one: at least one and at most `into.len()` of them.
    /// `End` comes only where none is left. `NotYet` comes only where the count of waits rose in this call, `Failed` only
    /// where that of faults did, or where it stands at its last value; no byte is lost then.
    fn take_now(&mut self, into: &mut [u8]) -> TookNow
        requires { 0 < length into.old }
        ensures room { FitsNow result (length into.old) }
        ensures bytes { MovesNow (left self.old) (left self.new) result into.new }
        ensures written { written self.new ≡ written self.old }
        ensures faults { Counts (has_failed_to_take result) (faults self.old) (faults self.new) }
        ensures waits { Counts (has_waited_to_take result) (waits self.old) (waits self.new) };

    /// Adds bytes from the front of `bytes`, of which there is one: at least one of them. `NotYet` comes only where the count
    /// of waits rose in this call, `Failed` only where that of faults did, or where it stands at its last value; no byte is added then.
    fn put_now(&mut self, bytes: &[u8]) -> PutNow
        requires { 0 < length bytes.now }
        ensures bytes { AddsNow (written self.old) (written self.new) result bytes.now }
        ensures left { left self.new ≡ left self.old }
        ensures faults { Counts (has_failed_to_put result) (faults self.old) (faults self.new) }
        ensures waits { Counts (has_waited_to_put result) (waits self.old) (waits self.new) };

    /// Gives the connection up, as one that was silent for too long: the count of faults rises in this call, or stands at its
    /// last value, and no byte is lost or added.
    fn give_up(&mut self)
        ensures left { left self.new ≡ left self.old }
        ensures written { written self.new ≡ written self.old }
        ensures faults { Counts true (faults self.old) (faults self.new) }
        ensures waits { waits self.new ≡ waits self.old };
}

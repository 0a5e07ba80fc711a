//! A source of bytes.
ghost use Rattle.std.specs.Prelude.{◌≡◌, ℕ, ◌<◌, ◌≤◌, List, length};
ghost use Rattle.std.specs.declared.option.Option.{Option};
ghost use Rattle.mx_outside.specs.Causes.{CountsFailed, Rose};
ghost use Rattle.mx_outside.specs.Moves.{FitsRoom, Moves};

/// The answer of [`Source::take`].
#[derive(Clone, Copy, PartialEq, Eq, Debug)]
pub enum Took {
    /// So many bytes were moved, at least one.
    Got(usize),
    /// The source has ended.
    End,
    /// The source failed, and the count of its faults rose.
    Failed,
}

/// Bytes that come from outside, in order, in pieces of any size.
pub trait Source {
    /// The bytes that are left, where the source tells them.
    ghost left: { Self → Option (List ℕ) };

    /// The failed takes so far, a count that never falls. It may stop at 2^64 - 1.
    ghost faults: { Self → ℕ };

    /// Moves bytes to the front of `into`, which must have room for one: at least one and at most
    /// `into.len()` of them. `End` comes only where none is left. `Failed` comes only where the
    /// count of faults rose in this call, or stands at its last value; no byte is lost then.
    fn take(&mut self, into: &mut [u8]) -> Took
        requires { 0 < length into.old }
        ensures room { FitsRoom result (length into.old) }
        ensures bytes { Moves (left self.old) (left self.new) result into.new }
        ensures count { faults self.old ≤ faults self.new }
        ensures counted { CountsFailed result (faults self.old) (faults self.new) }
        ensures cause { result ≡ Took.Failed → Rose (faults self.old) (faults self.new) };
}

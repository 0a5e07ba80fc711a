//! A listener for connections.
ghost use Rattle.std.specs.Prelude.{◌≡◌, ℕ, ◌≤◌, List};
ghost use Rattle.std.specs.declared.option.Option.{Option};
ghost use Rattle.mx_outside.specs.Accepts.{Gives};
ghost use Rattle.mx_outside.specs.Causes.{Rose};

use crate::sink::Sink;
use crate::source::Source;

/// The answer of [`Listener::listen`].
#[derive(Clone, Copy, PartialEq, Eq, Debug)]
pub enum Listened {
    /// The listener is bound to the address.
    Done,
    /// The listener failed, and the count of its faults rose.
    Failed,
}

/// The answer of [`Listener::accept`].
#[derive(Drop)]
pub enum Accepted<A, B> {
    /// A connection: what it sends, and what it is sent.
    Pair(A, B),
    /// No connection comes any more.
    Closed,
    /// The listener failed, and the count of its faults rose.
    Failed,
}

/// Connections that come from outside, one after the other.
pub trait Listener {
    /// What a connection sends.
    type In: Source;

    /// What a connection is sent.
    type Out: Sink;

    /// The pairs that are left, where the listener tells them.
    ghost left: { Self → Option (List (Self.In × Self.Out)) };

    /// The faults so far, a count that never falls. It may stop at 2^64 - 1.
    ghost faults: { Self → ℕ };

    /// Sets for how many seconds the connections that come from now on may be silent: longer, and a
    /// connection's source fails where nothing comes, and its sink where nothing is taken. Nothing is
    /// claimed of the time that passes; a connection in memory is never silent.
    fn limit_silence(&mut self, seconds: u64)
        ensures kept { left self.new ≡ left self.old }
        ensures count { faults self.new ≡ faults self.old };

    /// Lets the connections end with the standard input: once it has ended none comes any more, and what
    /// they send is at its end behind the request that is answered. Nothing is claimed of when; those in
    /// memory know no standard input.
    fn end_with_input(&mut self)
        ensures kept { left self.new ≡ left self.old }
        ensures count { faults self.new ≡ faults self.old };

    /// Binds the address, and leaves the pairs as they are. `Failed` comes only where the count of
    /// faults rose in this call, or stands at its last value.
    fn listen(&mut self, address: &str) -> Listened
        ensures kept { left self.new ≡ left self.old }
        ensures count { faults self.old ≤ faults self.new }
        ensures cause { result ≡ Listened.Failed → Rose (faults self.old) (faults self.new) };

    /// The next connection. `Closed` comes only where none is left. `Failed` comes only where the
    /// count of faults rose in this call, or stands at its last value; no pair is lost then.
    fn accept(&mut self) -> Accepted<Self::In, Self::Out>
        ensures pairs { Gives (left self.old) (left self.new) result }
        ensures count { faults self.old ≤ faults self.new }
        ensures cause { result ≡ Accepted.Failed → Rose (faults self.old) (faults self.new) };
}

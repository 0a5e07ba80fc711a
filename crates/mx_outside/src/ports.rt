//! Connections that come from outside, in calls that never wait.
ghost use Rattle.std.specs.Prelude.{◌≡◌, ℕ, List, IfSome, None};
ghost use Rattle.std.specs.declared.option.Option.{Option};
ghost use Rattle.mx_outside.specs.Ports.{Counts, GivesNow, has_failed_to_accept, has_failed_to_listen, has_waited_to_accept};

use crate::listener::Listened;
use crate::port::Port;

/// The answer of [`Ports::accept_now`].
#[derive(Drop)]
pub enum AcceptedNow<P> {
    /// A connection.
    One(P),
    /// None has come yet, and the count of waits rose.
    NotYet,
    /// No connection comes any more.
    Closed,
    /// The listener failed, and the count of its faults rose.
    Failed,
}

/// Connections that come from outside, and a rest until something is ready.
pub trait Ports {
    /// A connection.
    type Port: Port;

    /// The ports that are left, where the listener tells them.
    ghost left: { Self → Option (List Self.Port) };

    /// The faults so far, a count that never falls. It may stop at 2^64 - 1.
    ghost faults: { Self → ℕ };

    /// How often no connection had come, a count that never falls. It may stop at 2^64 - 1.
    ghost waits: { Self → ℕ };

    /// Binds the address, and leaves the ports as they are. `Failed` comes only where the count of faults rose in this call, or
    /// stands at its last value.
    fn listen(&mut self, address: &str) -> Listened
        ensures kept { left self.new ≡ left self.old }
        ensures waits { waits self.new ≡ waits self.old }
        ensures faults { Counts (has_failed_to_listen result) (faults self.old) (faults self.new) };

    /// The next connection. `Closed` comes only where none is left, `NotYet` only where the count of waits rose in this call,
    /// `Failed` only where that of faults did, or where it stands at its last value; no port is lost then.
    fn accept_now(&mut self) -> AcceptedNow<Self::Port>
        ensures ports { GivesNow (left self.old) (left self.new) result }
        ensures faults { Counts (has_failed_to_accept result) (faults self.old) (faults self.new) }
        ensures waits { Counts (has_waited_to_accept result) (waits self.old) (waits self.new) };

    /// Another value that takes connections of the same listener, for another thread; none where there is none. It tells no ports.
    fn share(&self) -> Option<Self>
    where
        Self: Sized,
        ensures { IfSome result (λ other. left other ≡ None) };

    /// Lets a port be told of by `ready` under this number.
    fn watch(&mut self, port: &mut Self::Port, number: usize)
        ensures kept { port.new ≡ port.old }
        ensures left { left self.new ≡ left self.old }
        ensures faults { faults self.new ≡ faults self.old }
        ensures waits { waits self.new ≡ waits self.old };

    /// Rests until a port or the listener may be ready, or for so many milliseconds, or not at all. Nothing is claimed of the time.
    fn rest(&mut self, ms: u64)
        ensures left { left self.new ≡ left self.old }
        ensures faults { faults self.new ≡ faults self.old }
        ensures waits { waits self.new ≡ waits self.old };

    /// The number of a port that may be ready since the last rest and wasn't told of yet; none where there is no further one.
    /// Nothing is claimed of it.
    fn ready(&mut self) -> Option<usize>
        ensures left { left self.new ≡ left self.old }
        ensures faults { faults self.new ≡ faults self.old }
        ensures waits { waits self.new ≡ waits self.old };
}

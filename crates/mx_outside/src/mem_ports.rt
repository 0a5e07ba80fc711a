//! Ports in memory.
ghost use Rattle.std.specs.Prelude.{◌≡◌, Some, None, IfSome};
ghost use Rattle.mx_outside.specs.Calls.{fresh};
ghost use Rattle.mx_outside.specs.Ports.{Counts, GivesNow, has_failed_to_accept, has_failed_to_listen, has_waited_to_accept};

use crate::calls::Calls;
use crate::listener::Listened;
use crate::port::Port;
use crate::ports::{AcceptedNow, Ports};
use std::marker::Model;
use std::vec;

/// Ports in memory, given one after the other, with lists of accepts that aren't ready and of calls that fail. After each rest it tells
/// of all that it watches.
#[derive(Drop)]
pub struct MemPorts<P> {
    ports: vec::IntoIter<P>,
    busy: Calls,
    calls: Calls,
    /// The numbers below this one are watched.
    watched: usize,
    /// Those below this one weren't told of yet.
    untold: usize,
}

impl<P> Model for MemPorts<P> {
    ghost use Rattle.mx_outside.specs.Ports.{PortsState};

    ghost Value = { PortsState P };

    ghost view = { λ s. record { left = s.ports.rest.items; plan = s.calls; busy = s.busy } };
}

impl<P> MemPorts<P> {
    /// Gives `ports` in their order, and then `Closed`. The calls whose numbers, from 0, are in `failing` fail; those of `listen`
    /// and `accept_now` are counted together. The calls of `accept_now` whose numbers are in `busy` aren't ready.
    pub fn new(ports: Vec<P>, busy: Vec<u64>, failing: Vec<u64>) -> MemPorts<P>
        ensures { result ≡ record { left = ports.items; plan = fresh failing.items; busy = fresh busy.items } }
    {
        MemPorts {
            ports: ports.into_iter(),
            busy: Calls::new(busy),
            calls: Calls::new(failing),
            watched: 0,
            untold: 0,
        }
    }
}

impl<P: Port> Ports for MemPorts<P> {
    type Port = P;

    ghost left = { λ s. Some s.left };

    ghost faults = { λ s. s.plan.faults };

    ghost waits = { λ s. s.busy.faults };

    /// Any address can be bound.
    fn listen(&mut self, _address: &str) -> Listened
        ensures kept { Some self.new.left ≡ Some self.old.left }
        ensures waits { self.new.busy.faults ≡ self.old.busy.faults }
        ensures faults { Counts (has_failed_to_listen result) self.old.plan.faults self.new.plan.faults }
    {
        if self.calls.begin() {
            self.calls.fault();
            return Listened::Failed;
        }
        Listened::Done
    }

    fn accept_now(&mut self) -> AcceptedNow<P>
        ensures ports { GivesNow (Some self.old.left) (Some self.new.left) result }
        ensures faults { Counts (has_failed_to_accept result) self.old.plan.faults self.new.plan.faults }
        ensures waits { Counts (has_waited_to_accept result) self.old.busy.faults self.new.busy.faults }
    {
        if self.busy.begin() {
            self.busy.fault();
            return AcceptedNow::NotYet;
        }
        if self.calls.begin() {
            self.calls.fault();
            return AcceptedNow::Failed;
        }
        match self.ports.next() {
            Some(port) => AcceptedNow::One(port),
            None => AcceptedNow::Closed,
        }
    }

    /// There is no other.
    fn share(&self) -> Option<MemPorts<P>>
        ensures { IfSome result (λ other. Some other.left ≡ None) }
    {
        None
    }

    fn watch(&mut self, _port: &mut P, number: usize) {
        self.watched = self.watched.max(number.saturating_add(1));
    }

    fn rest(&mut self, _ms: u64) {
        self.untold = self.watched;
    }

    fn ready(&mut self) -> Option<usize> {
        if self.untold == 0 {
            return None;
        }
        self.untold -= 1;
        Some(self.untold)
    }
}

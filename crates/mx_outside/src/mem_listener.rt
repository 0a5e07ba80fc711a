//! A listener in memory.
ghost use Rattle.std.specs.Prelude.{◌≡◌, ◌≤◌, ◌↔◌, true, Some};
ghost use Rattle.mx_outside.specs.Accepts.{Gives};
ghost use Rattle.mx_outside.specs.Calls.{called, fresh, is_failing};
ghost use Rattle.mx_outside.specs.Causes.{Rose};

use crate::calls::Calls;
use crate::listener::{Accepted, Listened, Listener};
use crate::sink::Sink;
use crate::source::Source;
use std::marker::Model;
use std::vec;

/// Pairs in memory, given one after the other, with a list of calls that fail.
#[derive(Drop)]
pub struct MemListener<S, K> {
    pairs: vec::IntoIter<(S, K)>,
    calls: Calls,
}

impl<S, K> Model for MemListener<S, K> {
    ghost use Rattle.mx_outside.specs.Calls.{ListenerState};

    ghost Value = { ListenerState (S × K) };

    ghost view = { λ s. record { left = s.pairs.rest.items; plan = s.calls } };
}

impl<S, K> MemListener<S, K> {
    /// A listener that gives `pairs` in their order, and then `Closed`. The calls whose numbers, from
    /// 0, are in `failing` fail; those of `listen` and `accept` are counted together.
    pub fn new(pairs: Vec<(S, K)>, failing: Vec<u64>) -> MemListener<S, K>
        ensures { result ≡ record { left = pairs.items; plan = fresh failing.items } }
    {
        MemListener {
            pairs: pairs.into_iter(),
            calls: Calls::new(failing),
        }
    }
}

impl<S: Source, K: Sink> Listener for MemListener<S, K> {
    type In = S;

    type Out = K;

    ghost left = { λ s. Some s.left };

    ghost faults = { λ s. s.plan.faults };

    /// It changes nothing.
    fn limit_silence(&mut self, _seconds: u64)
        ensures kept { Some self.new.left ≡ Some self.old.left }
        ensures count { self.new.plan.faults ≡ self.old.plan.faults }
        ensures same { self.new ≡ self.old }
    {}

    /// It changes nothing.
    fn end_with_input(&mut self)
        ensures kept { Some self.new.left ≡ Some self.old.left }
        ensures count { self.new.plan.faults ≡ self.old.plan.faults }
        ensures same { self.new ≡ self.old }
    {}

    /// Any address can be bound.
    fn listen(&mut self, _address: &str) -> Listened
        ensures kept { Some self.new.left ≡ Some self.old.left }
        ensures count { self.old.plan.faults ≤ self.new.plan.faults }
        ensures cause { result ≡ Listened.Failed → Rose self.old.plan.faults self.new.plan.faults }
        ensures plan { self.new.plan ≡ called (is_failing self.old.plan) self.old.plan }
        ensures listed { (result ≡ Listened.Failed) ↔ (is_failing self.old.plan ≡ true) }
    {
        if self.calls.begin() {
            self.calls.fault();
            return Listened::Failed;
        }
        Listened::Done
    }

    fn accept(&mut self) -> Accepted<S, K>
        ensures pairs { Gives (Some self.old.left) (Some self.new.left) result }
        ensures count { self.old.plan.faults ≤ self.new.plan.faults }
        ensures cause { result ≡ Accepted.Failed → Rose self.old.plan.faults self.new.plan.faults }
        ensures plan { self.new.plan ≡ called (is_failing self.old.plan) self.old.plan }
        ensures listed { (result ≡ Accepted.Failed) ↔ (is_failing self.old.plan ≡ true) }
    {
        if self.calls.begin() {
            self.calls.fault();
            return Accepted::Failed;
        }
        match self.pairs.next() {
            Some((source, sink)) => Accepted::Pair(source, sink),
            None => Accepted::Closed,
        }
    }
}

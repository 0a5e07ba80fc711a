//! A sink in memory.
ghost use Rattle.std.specs.Prelude.{◌≡◌, ◌≤◌, [], true, false, Some};
ghost use Rattle.mx_outside.specs.Causes.{Rose};
ghost use Rattle.mx_outside.specs.Moves.{Adds};
ghost use Rattle.mx_outside.specs.Calls.{SinkState, called, fresh, has_failed, is_failing};

use crate::calls::Calls;
use crate::sink::{Put, Sink};
use std::alloc::Global;
use std::marker::Model;

/// A sink that keeps what is written, with a list of calls that fail.
#[derive(Drop)]
pub struct MemSink {
    bytes: Vec<u8>,
    calls: Calls,
}

impl Model for MemSink {
    ghost Value = { SinkState };

    ghost view = { λ s. record { written = s.bytes.items; plan = s.calls } };
}

impl MemSink {
    /// An empty sink. The calls whose numbers, from 0, are in `failing` fail and write nothing.
    pub fn new(alloc: Global, failing: Vec<u64>) -> MemSink
        ensures { result ≡ record { written = []; plan = fresh failing.items } }
    {
        MemSink {
            bytes: Vec::new(alloc),
            calls: Calls::new(failing),
        }
    }

    /// What was written.
    pub fn written(&self) -> &[u8]
        ensures { result.now ≡ self.now.written }
    {
        self.bytes.as_slice()
    }

    /// What was written, as a list of its own.
    pub fn into_bytes(self) -> Vec<u8>
        ensures { result.items ≡ self.written }
    {
        let MemSink { bytes, calls: _ } = self;
        bytes
    }
}

impl Sink for MemSink {
    ghost written = { λ s. Some s.written };

    ghost faults = { λ s. s.plan.faults };

    /// A growth that memory refuses is a fault, too. A failed call writes nothing.
    fn put(&mut self, bytes: &[u8]) -> Put
        ensures bytes { Adds (Some self.old.written) (Some self.new.written) result bytes.now }
        ensures count { self.old.plan.faults ≤ self.new.plan.faults }
        ensures cause { result ≡ Put.Failed → Rose self.old.plan.faults self.new.plan.faults }
        ensures plan { self.new.plan ≡ called (has_failed result) self.old.plan }
        ensures listed { is_failing self.old.plan ≡ true → result ≡ Put.Failed }
        ensures none { result ≡ Put.Failed → self.new.written ≡ self.old.written }
    {
        if !self.calls.begin() && self.bytes.extend_from_slice(bytes).is_ok() {
            return Put::Done;
        }
        self.calls.fault();
        Put::Failed
    }

    /// Memory doesn't go away.
    fn is_gone(&mut self) -> bool
        ensures same { self.new ≡ self.old }
        ensures none { result ≡ false }
        ensures bytes { Some self.new.written ≡ Some self.old.written }
        ensures count { self.old.plan.faults ≤ self.new.plan.faults }
        ensures cause { result ≡ true → Rose self.old.plan.faults self.new.plan.faults }
    {
        false
    }
}

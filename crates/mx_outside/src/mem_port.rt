//! A port in memory.
ghost use Rattle.std.specs.Prelude.{◌≡◌, ◌<◌, ◌≤◌, [], true, length, Some};
ghost use Rattle.mx_outside.specs.Calls.{fresh};
ghost use Rattle.mx_outside.specs.Ports.{AddsNow, Counts, FitsNow, MovesNow, has_failed_to_put, has_failed_to_take, has_waited_to_put, has_waited_to_take};

use crate::calls::Calls;
use crate::mem_source::copy_front;
use crate::port::{Port, PutNow, TookNow};
use std::alloc::Global;
use std::marker::Model;

/// Bytes in memory both ways, moved in pieces, with lists of calls that aren't ready and of calls that fail.
#[derive(Drop)]
pub struct MemPort {
    bytes: Vec<u8>,
    at: usize,
    out: Vec<u8>,
    piece: usize,
    busy: Calls,
    calls: Calls,
}

impl Model for MemPort {
    ghost use Rattle.std.specs.Prelude.{drop, ◌<◌, ◌≤◌, vec_len};
    ghost use Rattle.mx_outside.specs.Ports.{PortState};

    ghost Value = { PortState };

    ghost view = { λ s. record { left = drop s.at s.bytes.items; written = s.out.items; piece = s.piece; plan = s.calls; busy = s.busy } };

    ghost invariant = { λ s. (s.at ≤ vec_len s.bytes) × (0 < s.piece) };
}

impl MemPort {
    /// A port that gives `bytes`, and moves at most `piece` of them in a call. The calls whose numbers, from 0, are in `busy`
    /// aren't ready; of the others those whose numbers are in `failing` fail. Both calls of the port are counted together.
    pub fn new(
        alloc: Global,
        bytes: Vec<u8>,
        piece: usize,
        busy: Vec<u64>,
        failing: Vec<u64>,
    ) -> MemPort
        requires { 0 < piece }
        ensures { result ≡ record { left = bytes.items; written = []; piece = piece; plan = fresh failing.items; busy = fresh busy.items } }
    {
        MemPort {
            bytes,
            at: 0,
            out: Vec::new(alloc),
            piece,
            busy: Calls::new(busy),
            calls: Calls::new(failing),
        }
    }

    /// What was put.
    pub fn written(&self) -> &[u8]
        ensures { result.now ≡ self.now.written }
    {
        self.out.as_slice()
    }

    /// Whether the next call fails, which is counted then.
    fn fails(&mut self) -> bool
        ensures left { self.new.left ≡ self.old.left }
        ensures written { self.new.written ≡ self.old.written }
        ensures piece { self.new.piece ≡ self.old.piece }
        ensures busy { self.new.busy ≡ self.old.busy }
        ensures counts { Counts result self.old.plan.faults self.new.plan.faults }
    {
        let fails = self.calls.begin();
        if fails {
            self.calls.fault();
        }
        fails
    }

    /// Whether the port isn't ready for the next call, which is counted then.
    fn waits(&mut self) -> bool
        ensures left { self.new.left ≡ self.old.left }
        ensures written { self.new.written ≡ self.old.written }
        ensures piece { self.new.piece ≡ self.old.piece }
        ensures plan { self.new.plan ≡ self.old.plan }
        ensures counts { Counts result self.old.busy.faults self.new.busy.faults }
    {
        let waits = self.busy.begin();
        if waits {
            self.busy.fault();
        }
        waits
    }
}

impl Port for MemPort {
    ghost left = { λ s. Some s.left };

    ghost written = { λ s. Some s.written };

    ghost faults = { λ s. s.plan.faults };

    ghost waits = { λ s. s.busy.faults };

    fn take_now(&mut self, into: &mut [u8]) -> TookNow
        requires { 0 < length into.old }
        ensures room { FitsNow result (length into.old) }
        ensures bytes { MovesNow (Some self.old.left) (Some self.new.left) result into.new }
        ensures written { Some self.new.written ≡ Some self.old.written }
        ensures faults { Counts (has_failed_to_take result) self.old.plan.faults self.new.plan.faults }
        ensures waits { Counts (has_waited_to_take result) self.old.busy.faults self.new.busy.faults }
    {
        if self.waits() {
            return TookNow::NotYet;
        }
        if self.fails() {
            return TookNow::Failed;
        }
        let rest = &self.bytes.as_slice()[self.at..];
        if rest.is_empty() {
            return TookNow::End;
        }
        let count = into.len().min(self.piece).min(rest.len());
        copy_front(rest, count, into);
        self.at += count;
        TookNow::Got(count)
    }

    /// A growth that memory refuses is a fault, too.
    fn put_now(&mut self, bytes: &[u8]) -> PutNow
        requires { 0 < length bytes.now }
        ensures bytes { AddsNow (Some self.old.written) (Some self.new.written) result bytes.now }
        ensures left { Some self.new.left ≡ Some self.old.left }
        ensures faults { Counts (has_failed_to_put result) self.old.plan.faults self.new.plan.faults }
        ensures waits { Counts (has_waited_to_put result) self.old.busy.faults self.new.busy.faults }
    {
        if self.waits() {
            return PutNow::NotYet;
        }
        if self.fails() {
            return PutNow::Failed;
        }
        let count = bytes.len().min(self.piece);
        if self.out.extend_from_slice(&bytes[..count]).is_ok() {
            return PutNow::Put(count);
        }
        self.calls.fault();
        PutNow::Failed
    }

    /// The calls go on as before.
    fn give_up(&mut self)
        ensures left { Some self.new.left ≡ Some self.old.left }
        ensures written { Some self.new.written ≡ Some self.old.written }
        ensures faults { Counts true self.old.plan.faults self.new.plan.faults }
        ensures waits { self.new.busy.faults ≡ self.old.busy.faults }
    {
        self.calls.fault();
    }
}

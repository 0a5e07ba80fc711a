//! A source in memory.
ghost use Rattle.std.specs.Prelude.{◌≡◌, ◌<◌, ◌≤◌, drop, take, length, vec_len, Some};
ghost use Rattle.mx_outside.specs.Causes.{CountsFailed, Rose};
ghost use Rattle.mx_outside.specs.Moves.{FitsRoom, Moves};
ghost use Rattle.mx_outside.specs.Calls.{SourceState, called, fresh, is_failing, taken};

use crate::calls::Calls;
use crate::source::{Source, Took};
use std::marker::Model;

/// Bytes in memory, given in pieces, with a list of calls that fail.
#[derive(Drop)]
pub struct MemSource {
    bytes: Vec<u8>,
    at: usize,
    piece: usize,
    calls: Calls,
}

impl Model for MemSource {
    ghost Value = { SourceState };

    ghost view = { λ s. record { left = drop s.at s.bytes.items; piece = s.piece; plan = s.calls } };

    ghost invariant = { λ s. (s.at ≤ vec_len s.bytes) × (0 < s.piece) };
}

impl MemSource {
    /// A source of `bytes`, of which a take gives at most `piece`. The calls whose numbers, from 0,
    /// are in `failing` fail.
    pub fn new(bytes: Vec<u8>, piece: usize, failing: Vec<u64>) -> MemSource
        requires { 0 < piece }
        ensures { result ≡ record { left = bytes.items; piece = piece; plan = fresh failing.items } }
    {
        MemSource {
            bytes,
            at: 0,
            piece,
            calls: Calls::new(failing),
        }
    }
}

impl Source for MemSource {
    ghost left = { λ s. Some s.left };

    ghost faults = { λ s. s.plan.faults };

    fn take(&mut self, into: &mut [u8]) -> Took
        requires { 0 < length into.old }
        ensures answer { result ≡ taken self.old (length into.old) }
        ensures room { FitsRoom result (length into.old) }
        ensures bytes { Moves (Some self.old.left) (Some self.new.left) result into.new }
        ensures count { self.old.plan.faults ≤ self.new.plan.faults }
        ensures counted { CountsFailed result self.old.plan.faults self.new.plan.faults }
        ensures cause { result ≡ Took.Failed → Rose self.old.plan.faults self.new.plan.faults }
        ensures plan { self.new.plan ≡ called (is_failing self.old.plan) self.old.plan }
        ensures piece { self.new.piece ≡ self.old.piece }
    {
        if self.calls.begin() {
            self.calls.fault();
            return Took::Failed;
        }
        let rest = &self.bytes.as_slice()[self.at..];
        if rest.is_empty() {
            return Took::End;
        }
        let count = into.len().min(self.piece).min(rest.len());
        copy_front(rest, count, into);
        self.at += count;
        Took::Got(count)
    }
}

/// Copies the first `count` bytes of `from` to the front of `into`.
pub(crate) fn copy_front(from: &[u8], count: usize, into: &mut [u8])
    requires there { count ≤ length from.now }
    requires room { count ≤ length into.old }
    ensures { take count into.new ≡ take count from.now }
{
    into[..count].copy_from_slice(&from[..count]);
}

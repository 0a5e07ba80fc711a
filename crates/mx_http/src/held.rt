//! The bytes that a reader holds.
ghost use Rattle.std.specs.Prelude.{◌≡◌, ◌-◌, ◌<◌, ◌≤◌, [], length, take, drop, OnOk, IfOk, IsErrOf};
ghost use Rattle.mx_outside.specs.Causes.{CountsFailed, Rose};
ghost use Rattle.mx_outside.specs.Moves.{FitsRoom, Moves};
ghost use Rattle.mx_outside.specs.Ports.{Counts, FitsNow, MovesNow, has_failed_to_take, has_waited_to_take};
ghost use Rattle.mx_http.specs.Intakes.{FillsNow, has_failed, has_waited};
ghost use Rattle.mx_http.specs.Reads.{CountsReadFault};
ghost use Rattle.mx_http.specs.Window.{Fills};

use crate::fault::HttpFault;
use crate::fields::BODY_LIMIT;
use crate::grammar::HEAD_LIMIT;
use mx_ids::Memory;
use mx_outside::{Port, Source, Took, TookNow};
use std::alloc::Global;
use std::marker::Model;

/// The most room that is made: that of the longest request.
pub const MOST_ROOM: usize = HEAD_LIMIT + BODY_LIMIT;

/// A source is asked for at least so many bytes, or for as many as may still be held.
const PIECE: usize = 4096;

/// Bytes that were taken from a source and belong to no request that was answered yet, with room
/// behind them. They move to the front of the room only where it has become short.
#[derive(Drop)]
pub struct Held {
    bytes: Vec<u8>,
    start: usize,
    end: usize,
}

impl Model for Held {
    ghost use Rattle.std.specs.Prelude.{◌-◌, ◌<◌, ◌≤◌, slice_range, vec_len};
    ghost use Rattle.mx_http.specs.Window.{Window};

    ghost Value = { Window };

    ghost view = { λ h. record { gap = h.start; held = slice_range h.bytes.items h.start h.end; room = vec_len h.bytes - h.end } };

    ghost invariant = { λ h. (h.start ≤ h.end) × (h.end ≤ vec_len h.bytes) × (0 < vec_len h.bytes) × (vec_len h.bytes ≤ 1064960) };
}

impl Held {
    /// No bytes yet, with room for so many.
    pub fn with_room(alloc: Global, room: usize) -> Result<Held, Memory>
        requires some { 0 < room }
        requires most { room ≤ MOST_ROOM }
        ensures { IfOk result (λ h. h.held ≡ []) }
    {
        let mut bytes = Vec::new(alloc);
        bytes.resize(room, 0)?;
        Ok(Held {
            bytes,
            start: 0,
            end: 0,
        })
    }

    pub fn as_slice(&self) -> &[u8]
        ensures { result.now ≡ self.now.held }
    {
        &self.bytes[self.start..self.end]
    }

    pub fn len(&self) -> usize
        ensures value { result ≡ length self.now.held }
        ensures most { result ≤ MOST_ROOM }
    {
        self.end - self.start
    }

    /// Lets the first `count` bytes go.
    pub fn advance(&mut self, count: usize)
        requires { count ≤ length self.old.held }
        ensures { self.new.held ≡ drop count self.old.held }
    {
        self.start += count;
    }

    /// Takes more bytes, and says whether there were any.
    pub fn fill<S: Source>(&mut self, source: &mut S) -> Result<bool, HttpFault>
        requires { length self.old.held < MOST_ROOM }
        ensures fills { Fills (S.left source.old) (S.left source.new) self.old.held self.new.held result }
        ensures count { S.faults source.old ≤ S.faults source.new }
        ensures counted { CountsReadFault result (S.faults source.old) (S.faults source.new) }
        ensures cause { IsErrOf result HttpFault.ReadFault → Rose (S.faults source.old) (S.faults source.new) }
    {
        self.make_room()?;
        match take_behind(source, self.bytes.as_mut_slice(), self.end) {
            Took::Got(count) => {
                self.end += count;
                Ok(true)
            }
            Took::End => Ok(false),
            Took::Failed => Err(HttpFault::ReadFault),
        }
    }

    /// Takes a piece from a port, if one has come.
    pub fn take_now<P: Port>(&mut self, port: &mut P) -> Result<TookNow, Memory>
        requires { length self.old.held < MOST_ROOM }
        ensures fills { FillsNow (P.left port.old) (P.left port.new) self.old.held self.new.held result }
        ensures written { P.written port.new ≡ P.written port.old }
        ensures faults { Counts (has_failed result) (P.faults port.old) (P.faults port.new) }
        ensures waits { Counts (has_waited result) (P.waits port.old) (P.waits port.new) }
    {
        self.make_room()?;
        match take_behind_now(port, self.bytes.as_mut_slice(), self.end) {
            TookNow::Got(count) => {
                self.end += count;
                Ok(TookNow::Got(count))
            }
            TookNow::NotYet => Ok(TookNow::NotYet),
            TookNow::End => Ok(TookNow::End),
            TookNow::Failed => Ok(TookNow::Failed),
        }
    }

    /// Makes room behind the bytes.
    fn make_room(&mut self) -> Result<(), Memory>
        requires { length self.old.held < MOST_ROOM }
        ensures room { OnOk result (0 < self.new.room) }
        ensures same { self.new.held ≡ self.old.held }
    {
        if self.bytes.len() - self.end >= PIECE {
            return Ok(());
        }
        self.shift();
        if self.bytes.len() - self.end >= PIECE {
            return Ok(());
        }
        self.grow()
    }

    /// Moves the bytes to the front.
    fn shift(&mut self)
        ensures same { self.new.held ≡ self.old.held }
        ensures front { self.new.gap ≡ 0 }
    {
        if self.start > 0 {
            self.bytes.copy_within(self.start..self.end, 0);
            self.end -= self.start;
            self.start = 0;
        }
    }

    /// Doubles the room.
    fn grow(&mut self) -> Result<(), Memory>
        requires front { self.old.gap ≡ 0 }
        requires short { length self.old.held < MOST_ROOM }
        ensures room { OnOk result (0 < self.new.room) }
        ensures same { self.new.held ≡ self.old.held }
    {
        let len = (2 * self.bytes.len()).min(MOST_ROOM);
        self.bytes.resize(len, 0)?;
        Ok(())
    }
}

/// Takes bytes into the room from `end` on.
fn take_behind<S: Source>(source: &mut S, bytes: &mut [u8], end: usize) -> Took
    requires { end < length bytes.old }
    ensures front { take end bytes.new ≡ take end bytes.old }
    ensures moves { Moves (S.left source.old) (S.left source.new) result (drop end bytes.new) }
    ensures room { FitsRoom result (length bytes.old - end) }
    ensures count { S.faults source.old ≤ S.faults source.new }
    ensures counted { CountsFailed result (S.faults source.old) (S.faults source.new) }
    ensures cause { result ≡ Took.Failed → Rose (S.faults source.old) (S.faults source.new) }
{
    source.take(&mut bytes[end..])
}

/// Takes bytes that have come into the room from `end` on.
fn take_behind_now<P: Port>(port: &mut P, bytes: &mut [u8], end: usize) -> TookNow
    requires { end < length bytes.old }
    ensures front { take end bytes.new ≡ take end bytes.old }
    ensures moves { MovesNow (P.left port.old) (P.left port.new) result (drop end bytes.new) }
    ensures room { FitsNow result (length bytes.old - end) }
    ensures written { P.written port.new ≡ P.written port.old }
    ensures faults { Counts (has_failed_to_take result) (P.faults port.old) (P.faults port.new) }
    ensures waits { Counts (has_waited_to_take result) (P.waits port.old) (P.waits port.new) }
{
    port.take_now(&mut bytes[end..])
}

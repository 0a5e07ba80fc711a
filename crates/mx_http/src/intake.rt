//! The bytes of a connection that belong to no request yet, and what is made of them without waiting.
ghost use Rattle.std.specs.Prelude.{◌≡◌, ◌↔◌, true, false, ◌<◌, ◌≤◌, ◌++◌, ℕ, List, [], length, drop, slice_range, vec_len, IfErr, IfOk, OnOk, OnErr, IsErrOf, IsTrue};
ghost use Rattle.std.specs.Io.KnownBytes.{prepend_known, Keeps, IsAtEnd};
ghost use Rattle.mx_outside.specs.Causes.{Rose};
ghost use Rattle.mx_outside.specs.Ports.{Counts};
ghost use Rattle.mx_http.specs.Calls.{AreLineEnds};
ghost use Rattle.mx_http.specs.Intakes.{FillsNow, TakesBody, has_failed, has_waited};
ghost use Rattle.mx_http.specs.Parts.{FindsHead};
ghost use Rattle.mx_http.specs.Reads.{CountsReadFault};
ghost use Rattle.mx_http.specs.Window.{IsFillFault};

use crate::apart::read_head;
use crate::fault::HttpFault;
use crate::grammar::FIELD_ROOM;
use crate::head::Head;
use crate::held::{Held, MOST_ROOM};
use crate::target::are_line_ends;
use httparse::spans::{EMPTY_HEADER_SPAN, HeaderSpan};
use mx_ids::{Memory, Seq};
use mx_outside::{Port, Source, TookNow};
use std::alloc::Global;
use std::marker::Model;

/// An intake has room for so many bytes at the start.
const SMALL_ROOM: usize = 4096;

/// Room for the field lines of a head while it is taken apart. One serves any number of intakes.
#[derive(Drop)]
pub struct Scratch {
    fields: Vec<HeaderSpan>,
    ghost room: { vec_len fields ≡ 5600 },
}

impl Scratch {
    /// Room for 5,600 field lines.
    pub fn new(alloc: Global) -> Result<Scratch, Memory> {
        let mut fields = Vec::new(alloc);
        fields.resize(FIELD_ROOM, EMPTY_HEADER_SPAN)?;
        Ok(Scratch { fields })
    }
}

/// The bytes that were taken from a connection and belong to no request that was given, which contracts see as their list.
#[derive(Drop)]
pub struct Intake {
    held: Held,
}

impl Model for Intake {
    ghost use Rattle.std.specs.Prelude.{List, ℕ};

    ghost Value = { List ℕ };

    ghost view = { λ r. r.held.held };
}

impl Intake {
    /// No bytes yet.
    pub fn new(alloc: Global) -> Result<Intake, Memory>
        ensures { IfOk result (λ r. r ≡ []) }
    {
        Intake::with_room(alloc, SMALL_ROOM)
    }

    /// No bytes yet, with room for so many.
    pub(crate) fn with_room(alloc: Global, room: usize) -> Result<Intake, Memory>
        requires some { 0 < room }
        requires most { room ≤ MOST_ROOM }
        ensures { IfOk result (λ r. r ≡ []) }
    {
        Ok(Intake {
            held: Held::with_room(alloc, room)?,
        })
    }

    /// How many bytes there are.
    pub(crate) fn len(&self) -> usize
        ensures value { result ≡ length self.now }
        ensures most { result ≤ MOST_ROOM }
    {
        self.held.len()
    }

    /// The head at the front of the bytes, or none where it isn't whole yet.
    pub fn find_head(&self, alloc: Global, scratch: &mut Scratch) -> Result<Option<Head>, HttpFault>
        ensures { FindsHead self.now result }
    {
        read_head(alloc, self.held.as_slice(), scratch.fields.as_mut_slice())
    }

    /// The body of a head that stands at the front of the bytes, which goes with it; none where it isn't whole yet.
    pub fn take_body(&mut self, alloc: Global, head: &Head) -> Result<Option<Seq<u8>>, Memory>
        ensures { TakesBody self.old self.new head.now result }
    {
        let end = head.len.saturating_add(head.size);
        if self.held.len() < end {
            return Ok(None);
        }
        let body = self.give(alloc, head.len, end)?;
        Ok(Some(body))
    }

    /// Takes a piece from a port, if one has come. `Memory` where the room for it was refused; no byte is lost then.
    ///
    /// As many bytes may be held as the longest request has, so a request that is held whole is to be taken first.
    pub fn take_now<P: Port>(&mut self, port: &mut P) -> Result<TookNow, Memory>
        requires { length self.old < 1064960 }
        ensures fills { FillsNow (P.left port.old) (P.left port.new) self.old self.new result }
        ensures written { P.written port.new ≡ P.written port.old }
        ensures faults { Counts (has_failed result) (P.faults port.old) (P.faults port.new) }
        ensures waits { Counts (has_waited result) (P.waits port.old) (P.waits port.new) }
    {
        self.held.take_now(port)
    }

    /// Whether the bytes are CR and LF alone.
    pub fn is_blank(&self) -> bool
        ensures { IsTrue result ↔ AreLineEnds self.now }
    {
        are_line_ends(self.held.as_slice())
    }

    /// Takes more bytes, and says whether there were any.
    pub(crate) fn fill<S: Source>(&mut self, source: &mut S) -> Result<bool, HttpFault>
        requires { length self.old < MOST_ROOM }
        ensures kept { Keeps (prepend_known self.old (S.left source.old)) (prepend_known self.new (S.left source.new)) }
        ensures grown { (more : List ℕ) × (self.new ≡ self.old ++ more) }
        ensures longer { IfOk result (λ some. some ≡ true → length self.old < length self.new) }
        ensures ended { IfOk result (λ some. some ≡ false → (self.new ≡ self.old) × IsAtEnd (S.left source.new)) }
        ensures same { OnErr result (self.new ≡ self.old) }
        ensures faults { IfErr result IsFillFault }
        ensures count { S.faults source.old ≤ S.faults source.new }
        ensures counted { CountsReadFault result (S.faults source.old) (S.faults source.new) }
        ensures cause { IsErrOf result HttpFault.ReadFault → Rose (S.faults source.old) (S.faults source.new) }
    {
        self.held.fill(source)
    }

    /// Copies the bytes from `start` to `end`, and lets all go up to `end`.
    pub(crate) fn give(
        &mut self,
        alloc: Global,
        start: usize,
        end: usize,
    ) -> Result<Seq<u8>, Memory>
        requires ordered { start ≤ end }
        requires within { end ≤ length self.old }
        ensures given { IfOk result (λ bytes. bytes ≡ slice_range self.old start end) }
        ensures after { OnOk result (self.new ≡ drop end self.old) }
        ensures same { OnErr result (self.new ≡ self.old) }
    {
        let bytes = Vec::from_slice(alloc, &self.held.as_slice()[start..end])?;
        self.held.advance(end);
        Ok(Seq::from_vec(bytes))
    }
}

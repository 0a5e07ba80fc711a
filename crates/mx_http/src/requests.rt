//! The reader of requests.
ghost use Rattle.std.specs.Prelude.{◌≡◌, ◌⊎◌, ◌≤◌, ◌++◌, ℕ, List, [], length, IfErr, IfOk, OnOk, IsErrOf};
ghost use Rattle.std.specs.Io.KnownBytes.{prepend_known, Keeps};
ghost use Rattle.mx_outside.specs.Causes.{Rose};
ghost use Rattle.mx_http.specs.Reads.{CountsReadFault, Reads};
ghost use Rattle.mx_http.specs.Calls.{IsBlank, IsOpenHead};
ghost use Rattle.mx_http.specs.Parts.{EndsWith, GivesHead, Lacks};

use crate::call::Call;
use crate::fault::HttpFault;
use crate::head::Head;
use crate::held::MOST_ROOM;
use crate::intake::{Intake, Scratch};
use mx_ids::Memory;
use mx_outside::Source;
use std::alloc::Global;
use std::marker::Model;

/// A reader has room for so many bytes at the start.
const FIRST_ROOM: usize = 32_768;

/// Reads the requests of one connection, one after the other. Contracts see it as the list of the
/// bytes that it holds: those that it took from its source and that belong to no request that it
/// gave.
#[derive(Drop)]
pub struct Reader {
    intake: Intake,
    scratch: Scratch,
}

impl Model for Reader {
    ghost use Rattle.std.specs.Prelude.{List, ℕ};

    ghost Value = { List ℕ };

    ghost view = { λ r. r.intake };
}

impl Reader {
    /// A reader that holds nothing.
    pub(crate) fn new(alloc: Global) -> Result<Reader, Memory>
        ensures { IfOk result (λ r. r ≡ []) }
    {
        Ok(Reader {
            scratch: Scratch::new(alloc)?,
            intake: Intake::with_room(alloc, FIRST_ROOM)?,
        })
    }

    /// Takes bytes from `source` until the next request is whole, and gives it; none where the
    /// source has ended and fewer than 16,384 bytes, all of them CR or LF, are left (HTTP/1.1, RFC
    /// 9112, sections 2 and 6).
    ///
    /// A head has at most 16,384 bytes, and a body at most 1,048,576. `Head` to `Coding` come where the
    /// bytes are no request, whatever follows, each exactly where its own definition holds (`HasFault`);
    /// `Cut` where the source ended inside a request; `ReadFault` exactly where the source failed, and
    /// then no request is held whole; `Memory` where memory was refused. After an error the reader isn't
    /// used again.
    pub fn next_request<S: Source>(
        &mut self,
        alloc: Global,
        source: &mut S,
    ) -> Result<Option<Call>, HttpFault>
        ensures reads { Reads (prepend_known self.old (S.left source.old)) (prepend_known self.new (S.left source.new)) self.new (S.left source.new) result }
        ensures count { S.faults source.old ≤ S.faults source.new }
        ensures counted { CountsReadFault result (S.faults source.old) (S.faults source.new) }
        ensures cause { IsErrOf result HttpFault.ReadFault → Rose (S.faults source.old) (S.faults source.new) }
    {
        let Some(head) = self.fill_head(alloc, source)? else {
            return Ok(None);
        };
        let (start, end) = (head.len, head.len + head.size);
        self.fill_to(source, end)?;
        let body = self.intake.give(alloc, start, end)?;
        Ok(Some(head.with_body(body)))
    }

    /// Takes bytes until a head is whole.
    fn fill_head<S: Source>(
        &mut self,
        alloc: Global,
        source: &mut S,
    ) -> Result<Option<Head>, HttpFault>
        ensures kept { Keeps (prepend_known self.old (S.left source.old)) (prepend_known self.new (S.left source.new)) }
        ensures gives { GivesHead self.new (S.left source.new) result }
        ensures count { S.faults source.old ≤ S.faults source.new }
        ensures counted { CountsReadFault result (S.faults source.old) (S.faults source.new) }
        ensures cause { IsErrOf result HttpFault.ReadFault → Rose (S.faults source.old) (S.faults source.new) }
    {
        'more: loop {
            if let Some(head) = self.intake.find_head(alloc, &mut self.scratch)? {
                return Ok(Some(head));
            }
            if !self.intake.fill(source)? {
                return self.end_of_source();
            }
        }
    }

    /// Takes bytes until so many are held.
    fn fill_to<S: Source>(&mut self, source: &mut S, whole: usize) -> Result<(), HttpFault>
        requires { whole ≤ MOST_ROOM }
        ensures kept { Keeps (prepend_known self.old (S.left source.old)) (prepend_known self.new (S.left source.new)) }
        ensures grown { (more : List ℕ) × (self.new ≡ self.old ++ more) }
        ensures whole { OnOk result (whole ≤ length self.new) }
        ensures lacks { IfErr result (λ fault. Lacks self.new whole (S.left source.new) fault) }
        ensures count { S.faults source.old ≤ S.faults source.new }
        ensures counted { CountsReadFault result (S.faults source.old) (S.faults source.new) }
        ensures cause { IsErrOf result HttpFault.ReadFault → Rose (S.faults source.old) (S.faults source.new) }
    {
        'more: while self.intake.len() < whole {
            if !self.intake.fill(source)? {
                return Err(HttpFault::Cut);
            }
        }
        Ok(())
    }

    /// What the end of the source makes of bytes at whose front no head is whole.
    fn end_of_source(&self) -> Result<Option<Head>, HttpFault>
        requires { IsOpenHead self.now ⊎ IsBlank self.now }
        ensures { EndsWith self.now result }
    {
        if self.intake.is_blank() {
            Ok(None)
        } else {
            Err(HttpFault::Cut)
        }
    }
}

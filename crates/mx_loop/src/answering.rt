//! A step that answers.
ghost use Rattle.std.specs.Prelude.{◌≡◌, ◌+◌, ◌==◌, ◌||◌, IfOk, OnOk, length};
ghost use Rattle.mx_fold.specs.Lists.{Grows, lists_of};
ghost use Rattle.mx_http.specs.Answers.{body_text, response_bytes};
ghost use Rattle.mx_render.specs.Rendered.{no_memory_text};
ghost use Rattle.mx_poll.specs.OfEngine.Answers.{counts_of};
ghost use Rattle.mx_poll.specs.OfEngine.Exchanges.{AtMost, first_of};
ghost use Rattle.mx_poll.specs.OfEngine.Shown.{Ties, site_of, stops_of, stores_of};
ghost use Rattle.mx_serve.specs.Sessions.{Moment};
ghost use Rattle.mx_loop.specs.Stands.{ArePolled, Called, Counted, HasRoom, IsReading, IsResting, IsWaited, Prints, Puts, ReadTells, ReadTo, Stands, Tells, counted, sight};

use crate::line::{Line, Next, Read, Rest, State, Stepped};
use crate::opened::{Begun, Watch, Went, begin_call, poll_on};
use crate::printed::{printed, spare_bytes};
use mx_engine::Counts;
use mx_http::Call;
use mx_ids::Memory;
use mx_outside::{Clock, Port};
use mx_poll::{EnginePass, Mark, Outside};
use mx_serve::{End, Server, Told};
use std::alloc::Global;
use std::sync::Wait;

impl<P: Port> Line<P> {
    /// Answers the request that was read, if one was.
    pub(crate) fn after_read<G: Outside, R: Wait, C: Clock>(
        &mut self,
        rt: &R,
        alloc: Global,
        server: &Server<G>,
        pass: &mut EnginePass,
        read: Read,
        clock: &mut C,
    ) -> (State, Stepped)
        requires ties { Ties server.now.engine pass.old }
        requires seen { AtMost self.old.seen (counts_of (stores_of pass.old)) }
        requires reads { IsReading read }
        ensures ties { Ties server.now.engine pass.new }
        ensures grows { Grows (stores_of pass.old) (stores_of pass.new) }
        ensures seen { AtMost self.new.seen (counts_of (stores_of pass.new)) }
        ensures stands { (start : Moment) → ReadTo (site_of server.now.engine) (stops_of server.now.engine) server.now.limit start (first_of (stores_of pass.old) self.old.seen) (sight P.left P.written self.old) read
            → Stands (site_of server.now.engine) (stops_of server.now.engine) server.now.limit start (first_of (stores_of pass.new) self.new.seen) (sight P.left P.written self.new) result.0 }
        ensures polled { ArePolled (lists_of (stores_of pass.new)) self.new.marks result.0 }
        ensures waited { IsWaited (C.last clock.new) pass.old pass.new result.0 result.1 }
        ensures tells { (old : Counted) → ReadTells read old (counted P.faults P.waits self.old) → Tells result.0 result.1 old (counted P.faults P.waits self.new) }
    {
        match read {
            Read::Call(call) => self.answer(rt, alloc, server, pass, &call, clock),
            Read::Stays(state, stepped) => (state, stepped),
        }
    }

    /// Answers a request, or lets it rest. Nothing is asked of the engine where memory is wanting for the bytes that say so.
    pub(crate) fn answer<G: Outside, R: Wait, C: Clock>(
        &mut self,
        rt: &R,
        alloc: Global,
        server: &Server<G>,
        pass: &mut EnginePass,
        call: &Call,
        clock: &mut C,
    ) -> (State, Stepped)
        requires ties { Ties server.now.engine pass.old }
        requires seen { AtMost self.old.seen (counts_of (stores_of pass.old)) }
        ensures ties { Ties server.now.engine pass.new }
        ensures grows { Grows (stores_of pass.old) (stores_of pass.new) }
        ensures seen { AtMost self.new.seen (counts_of (stores_of pass.new)) }
        ensures stands { (start : Moment) → Called (site_of server.now.engine) (stops_of server.now.engine) server.now.limit start (first_of (stores_of pass.old) self.old.seen) (sight P.left P.written self.old) call.now
            → Stands (site_of server.now.engine) (stops_of server.now.engine) server.now.limit start (first_of (stores_of pass.new) self.new.seen) (sight P.left P.written self.new) result.0 }
        ensures polled { ArePolled (lists_of (stores_of pass.new)) self.new.marks result.0 }
        ensures waited { IsWaited (C.last clock.new) pass.old pass.new result.0 result.1 }
        ensures tells { Tells result.0 result.1 (counted P.faults P.waits self.old) (counted P.faults P.waits self.new) }
    {
        let now = clock.now();
        let head_only = call.method.as_str() == "HEAD";
        let spare = match self.make_room(alloc, server.limit(), head_only, call.close) {
            Ok(spare) => spare,
            Err(refused) => return (State::Ended(End::Memory(refused)), Stepped::Ended),
        };
        match begin_call(rt, alloc, server, pass, self.seen, call, now) {
            Begun::Done(told) => {
                let next = self.put(alloc, server.limit(), told, head_only, call.close, spare);
                (State::Writes(next), Stepped::Moved)
            }
            Begun::Rests(poll, device) => {
                let rest = Rest {
                    poll,
                    device,
                    asked: now,
                    head_only,
                    close: call.close,
                    spare,
                };
                (State::Rests(rest), Stepped::Moved)
            }
        }
    }

    /// Asks again for a sync that rests.
    pub(crate) fn go<G: Outside, R: Wait, C: Clock>(
        &mut self,
        rt: &R,
        alloc: Global,
        server: &Server<G>,
        pass: &mut EnginePass,
        rest: Rest,
        clock: &mut C,
        watch: &mut Watch,
    ) -> (State, Stepped)
        requires ties { Ties server.now.engine pass.old }
        requires seen { AtMost self.old.seen (counts_of (stores_of pass.old)) }
        requires polled { ArePolled (lists_of (stores_of pass.old)) self.old.marks (State.Rests rest) }
        ensures ties { Ties server.now.engine pass.new }
        ensures grows { Grows (stores_of pass.old) (stores_of pass.new) }
        ensures seen { AtMost self.new.seen (counts_of (stores_of pass.new)) }
        ensures stands { (start : Moment) → IsResting (site_of server.now.engine) (stops_of server.now.engine) server.now.limit start (first_of (stores_of pass.old) self.old.seen) (sight P.left P.written self.old) rest
            → Stands (site_of server.now.engine) (stops_of server.now.engine) server.now.limit start (first_of (stores_of pass.new) self.new.seen) (sight P.left P.written self.new) result.0 }
        ensures polled { ArePolled (lists_of (stores_of pass.new)) self.new.marks result.0 }
        ensures tells { Tells result.0 result.1 (counted P.faults P.waits self.old) (counted P.faults P.waits self.new) }
        ensures waited { IsWaited (C.last clock.new) pass.old pass.new result.0 result.1 }
    {
        let now = clock.now();
        let mut rest = rest;
        match poll_on(
            rt,
            alloc,
            server,
            pass,
            self.seen,
            &mut rest.poll,
            rest.device,
            now,
            watch,
        ) {
            Went::Done(told) => {
                let Rest {
                    poll: _,
                    device: _,
                    asked: _,
                    head_only,
                    close,
                    spare,
                } = rest;
                let next = self.put(alloc, server.limit(), told, head_only, close, spare);
                (State::Writes(next), Stepped::Moved)
            }
            Went::Waits(parked) => (State::Rests(rest), Stepped::Waiting(parked)),
        }
    }

    /// Room for one mark more, and the bytes of the answer for want of memory to one request more.
    fn make_room(
        &mut self,
        alloc: Global,
        limit: u64,
        head_only: bool,
        close: bool,
    ) -> Result<Vec<u8>, Memory>
        ensures same { sight P.left P.written self.new ≡ sight P.left P.written self.old }
        ensures seen { self.new.seen ≡ self.old.seen }
        ensures port { self.new.port ≡ self.old.port }
        ensures room { OnOk result (HasRoom self.new.marks) }
        ensures spare { IfOk result (λ bytes. bytes.items ≡ response_bytes 503 no_memory_text head_only (close || (length self.old.marks.items + 1) == limit)) }
    {
        self.marks.reserve(1)?;
        let closes = close || self.marks.len() as u64 + 1 == limit;
        spare_bytes(alloc, head_only, closes)
    }

    /// Takes up the answer to a request on a connection of so many, and its mark.
    fn put(
        &mut self,
        alloc: Global,
        limit: u64,
        told: Told,
        head_only: bool,
        close: bool,
        spare: Vec<u8>,
    ) -> Next
        requires room { HasRoom self.old.marks }
        ensures puts { Puts limit (sight P.left P.written self.old) (sight P.left P.written self.new) self.new.seen told.mark told.answer.status (body_text told.answer.body) head_only close spare.items result }
        ensures port { self.new.port ≡ self.old.port }
    {
        let count = self.marks.len() as u64 + 1;
        let (mark, bytes) = bytes_of(alloc, told, head_only, close || count == limit, spare);
        self.out.set(bytes);
        self.seen = Counts {
            events: mark.events,
            receipts: mark.receipts,
            accounts: mark.accounts,
        };
        self.marks.push_reserved(mark);
        if close {
            Next::Asks
        } else if count == limit {
            Next::Fills
        } else {
            Next::Reads
        }
    }
}

/// The bytes of an answer and its mark; where there is no room for the bytes, those for want of memory, which the mark then tells.
fn bytes_of(
    alloc: Global,
    told: Told,
    head_only: bool,
    close: bool,
    spare: Vec<u8>,
) -> (Mark, Vec<u8>)
    ensures { Prints told.mark told.answer.status (body_text told.answer.body) head_only close spare.items result.0 result.1.items }
{
    let Told { answer, mark } = told;
    match printed(alloc, &answer, head_only, close) {
        Ok(bytes) => (mark, bytes),
        Err(_) => (
            Mark {
                memory: true,
                ..mark
            },
            spare,
        ),
    }
}

//! A session, step by step.
ghost use Rattle.std.specs.Prelude.{◌≡◌, [], IfOk};
ghost use Rattle.mx_fold.specs.Lists.{Grows, lists_of};
ghost use Rattle.mx_poll.specs.OfEngine.Answers.{counts_of};
ghost use Rattle.mx_poll.specs.OfEngine.Exchanges.{AtMost, first_of};
ghost use Rattle.mx_poll.specs.OfEngine.Shown.{Ties, site_of, stops_of, stores_of};
ghost use Rattle.mx_serve.specs.Sessions.{Moment};
ghost use Rattle.mx_loop.specs.Stands.{ArePolled, IsFirst, IsWaited, Stands, Starts, TellsFrom, counted, sight};

use crate::line::{Line, State, Stepped};
use crate::opened::Watch;
use crate::outbox::Outbox;
use mx_engine::Counts;
use mx_http::{Intake, Scratch};
use mx_ids::Memory;
use mx_outside::{Clock, Port};
use mx_poll::{EnginePass, Mark, Outside};
use mx_serve::{End, Server};
use std::alloc::Global;
use std::mem;
use std::sync::Wait;

/// A connection that is served step by step.
#[derive(Drop)]
pub struct Session<P> {
    pub(crate) line: Line<P>,
    pub(crate) state: State,
}

impl<P: Port> Session<P> {
    /// A session of a connection, which has seen what the pass has. `Memory` where there is no room for the bytes that come.
    pub fn new<G: Outside>(
        alloc: Global,
        server: &Server<G>,
        pass: &EnginePass,
        port: P,
    ) -> Result<Session<P>, Memory>
    where
        P: Drop,
        ensures held { IfOk result (λ s. AtMost s.line.seen (counts_of (stores_of pass.now)) × ArePolled (lists_of (stores_of pass.now)) s.line.marks s.state) }
        ensures starts { IfOk result (λ s. Starts (site_of server.now.engine) (stops_of server.now.engine) server.now.limit (P.left port) (P.written port) (stores_of pass.now) s.line.seen (sight P.left P.written s.line) s.state) }
    {
        let seen = pass.mark(0);
        let line = Line {
            intake: Intake::new(alloc)?,
            port,
            out: Outbox::new(alloc),
            marks: Vec::new(alloc),
            seen: Counts {
                events: seen.events,
                receipts: seen.receipts,
                accounts: seen.accounts,
            },
        };
        Ok(Session {
            line,
            state: first_state(server.limit()),
        })
    }

    /// The port.
    pub fn port(&self) -> &P
        ensures { result.now ≡ self.now.line.port }
    {
        &self.line.port
    }

    /// The mark of each answer so far.
    pub fn marks(&self) -> &[Mark]
        ensures { result.now ≡ self.now.line.marks.items }
    {
        self.line.marks.as_slice()
    }

    /// Moves the session once: takes what has come, makes an answer, or puts what can be put. It never waits for its port; it waits for
    /// turns at the streams. After its end it changes nothing.
    pub fn step<G: Outside, R: Wait, C: Clock>(
        &mut self,
        rt: &R,
        alloc: Global,
        server: &Server<G>,
        pass: &mut EnginePass,
        scratch: &mut Scratch,
        clock: &mut C,
        watch: &mut Watch,
    ) -> Stepped
        requires ties { Ties server.now.engine pass.old }
        requires seen { AtMost self.old.line.seen (counts_of (stores_of pass.old)) }
        requires polled { ArePolled (lists_of (stores_of pass.old)) self.old.line.marks self.old.state }
        ensures ties { Ties server.now.engine pass.new }
        ensures grows { Grows (stores_of pass.old) (stores_of pass.new) }
        ensures seen { AtMost self.new.line.seen (counts_of (stores_of pass.new)) }
        ensures polled { ArePolled (lists_of (stores_of pass.new)) self.new.line.marks self.new.state }
        ensures stands { (start : Moment) → Stands (site_of server.now.engine) (stops_of server.now.engine) server.now.limit start (first_of (stores_of pass.old) self.old.line.seen) (sight P.left P.written self.old.line) self.old.state
            → Stands (site_of server.now.engine) (stops_of server.now.engine) server.now.limit start (first_of (stores_of pass.new) self.new.line.seen) (sight P.left P.written self.new.line) self.new.state }
        ensures tells { TellsFrom self.old.state self.new.state result (counted P.faults P.waits self.old.line) (counted P.faults P.waits self.new.line) }
        ensures waited { IsWaited (C.last clock.new) pass.old pass.new self.new.state result }
    {
        let state = mem::replace(&mut self.state, State::Head);
        let (state, stepped) = self
            .line
            .move_on(rt, alloc, server, pass, scratch, state, clock, watch);
        self.state = state;
        stepped
    }
}

/// What a session on a connection of so many requests does first.
fn first_state(limit: u64) -> State
    ensures { IsFirst limit result }
{
    if limit == 0 {
        State::Ended(End::Full)
    } else {
        State::Head
    }
}

impl<P: Port> Line<P> {
    /// Does what is to be done in a state.
    fn move_on<G: Outside, R: Wait, C: Clock>(
        &mut self,
        rt: &R,
        alloc: Global,
        server: &Server<G>,
        pass: &mut EnginePass,
        scratch: &mut Scratch,
        state: State,
        clock: &mut C,
        watch: &mut Watch,
    ) -> (State, Stepped)
        requires ties { Ties server.now.engine pass.old }
        requires seen { AtMost self.old.seen (counts_of (stores_of pass.old)) }
        requires polled { ArePolled (lists_of (stores_of pass.old)) self.old.marks state }
        ensures ties { Ties server.now.engine pass.new }
        ensures grows { Grows (stores_of pass.old) (stores_of pass.new) }
        ensures seen { AtMost self.new.seen (counts_of (stores_of pass.new)) }
        ensures polled { ArePolled (lists_of (stores_of pass.new)) self.new.marks result.0 }
        ensures stands { (start : Moment) → Stands (site_of server.now.engine) (stops_of server.now.engine) server.now.limit start (first_of (stores_of pass.old) self.old.seen) (sight P.left P.written self.old) state
            → Stands (site_of server.now.engine) (stops_of server.now.engine) server.now.limit start (first_of (stores_of pass.new) self.new.seen) (sight P.left P.written self.new) result.0 }
        ensures tells { TellsFrom state result.0 result.1 (counted P.faults P.waits self.old) (counted P.faults P.waits self.new) }
        ensures waited { IsWaited (C.last clock.new) pass.old pass.new result.0 result.1 }
    {
        match state {
            State::Head => {
                let read = self.read_head(alloc, scratch);
                self.after_read(rt, alloc, server, pass, read, clock)
            }
            State::Body(head) => {
                let read = self.read_body(alloc, head);
                self.after_read(rt, alloc, server, pass, read, clock)
            }
            State::Rests(rest) => self.go(rt, alloc, server, pass, rest, clock, watch),
            State::Writes(next) => self.write(alloc, next),
            State::Ended(end) => (State::Ended(end), Stepped::Ended),
        }
    }
}

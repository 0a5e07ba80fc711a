//! The turns of sessions.
ghost use Rattle.std.specs.Prelude.{◌≡◌, ◌<◌, ◌+◌, ℕ, None, Some, length, IfOk, IfSome, OnOk};
ghost use Rattle.std.specs.List.{All, slice_get};
ghost use Rattle.mx_fold.specs.Lists.{Grows};
ghost use Rattle.mx_poll.specs.OfEngine.Shown.{Ties, site_of, stops_of, stores_of};
ghost use Rattle.mx_serve.specs.Sessions.{Moment};
ghost use Rattle.mx_loop.specs.Stands.{Starts, sight};
ghost use Rattle.mx_loop.specs.Turns.{StandsAt};

use crate::line::{State, Stepped};
use crate::opened::{Watch, look_on};
use crate::session::Session;
use crate::sessions::Sessions;
use mx_http::Scratch;
use mx_ids::{Memory, UserId};
use mx_outside::{Clock, Port};
use mx_poll::{EnginePass, Outside};
use mx_serve::Server;
use mx_wait::flag;
use std::alloc::Global;
use std::sync::Wait;

impl<P: Port> Sessions<P> {
    /// No place yet, on a pass. `Memory` where there is no room for what they share.
    pub fn new(alloc: Global, pass: EnginePass) -> Result<Sessions<P>, Memory>
        ensures { IfOk result (λ s. s.pass ≡ pass) }
    {
        let watch = match flag(alloc) {
            Ok(flag) => Watch { flag, kept: None },
            Err(refused) => {
                drop(pass);
                return Err(refused);
            }
        };
        match Scratch::new(alloc) {
            Ok(scratch) => Ok(Sessions {
                pass,
                watch,
                scratch,
                all: Vec::new(alloc),
            }),
            Err(refused) => {
                drop(watch);
                drop(pass);
                Err(refused)
            }
        }
    }

    /// How many places there are.
    pub fn count(&self) -> usize
        ensures { result ≡ length self.now.all.items }
    {
        self.all.len()
    }

    /// The session at a place, where there is one.
    pub fn at(&self, which: usize) -> Option<&Session<P>> {
        self.all.get(which)?.as_ref()
    }

    /// The reading of the clock at which the sync that rests at a place is answered in any case; none where none rests.
    pub fn deadline(&self, which: usize) -> Option<u64> {
        match &self.at(which)?.state {
            State::Rests(rest) => Some(rest.poll.deadline()),
            _ => None,
        }
    }

    /// Who asked the sync that rests at a place; nobody where none rests.
    pub fn asker(&self, which: usize) -> Option<&UserId> {
        match &self.at(which)?.state {
            State::Rests(rest) => Some(rest.poll.user()),
            _ => None,
        }
    }

    /// How often those who rest were told that something was stored, modulo 2^64.
    pub fn raised(&self) -> u64 {
        self.watch.flag.raised()
    }

    /// One place more, without a session. `Memory` where there is no room for it; all stays as it was then.
    pub fn add_place(&mut self) -> Result<(), Memory>
    where
        P: Drop,
        ensures pass { self.new.pass ≡ self.old.pass }
        ensures count { OnOk result (length self.new.all.items ≡ length self.old.all.items + 1) }
        ensures others { (i : ℕ) → i < length self.old.all.items → slice_get self.new.all.items i ≡ slice_get self.old.all.items i }
    {
        self.all.push(None)?;
        Ok(())
    }

    /// Puts a session of a connection at a place, in the place of one that is there. `Memory` where there is no room for what comes; all
    /// stays as it was then, and the connection is dropped.
    pub fn put<G: Outside>(
        &mut self,
        alloc: Global,
        server: &Server<G>,
        which: usize,
        port: P,
    ) -> Result<(), Memory>
    where
        P: Drop,
        requires within { which < length self.old.all.items }
        ensures pass { self.new.pass ≡ self.old.pass }
        ensures count { length self.new.all.items ≡ length self.old.all.items }
        ensures others { (i : ℕ) → (i ≡ which → ⊥) → slice_get self.new.all.items i ≡ slice_get self.old.all.items i }
        ensures starts { OnOk result (IfSome (slice_get self.new.all.items which) (λ o. IfSome o (λ s. Starts (site_of server.now.engine) (stops_of server.now.engine) server.now.limit (P.left port) (P.written port) (stores_of self.new.pass) s.line.seen (sight P.left P.written s.line) s.state))) }
    {
        let session = Session::new(alloc, server, &self.pass, port)?;
        self.all[which] = Some(session);
        Ok(())
    }

    /// Drops the session at a place, and with it its connection.
    pub fn close(&mut self, which: usize)
    where
        P: Drop,
        requires within { which < length self.old.all.items }
        ensures pass { self.new.pass ≡ self.old.pass }
        ensures closed { slice_get self.new.all.items which ≡ Some None }
        ensures count { length self.new.all.items ≡ length self.old.all.items }
        ensures others { (i : ℕ) → (i ≡ which → ⊥) → slice_get self.new.all.items i ≡ slice_get self.old.all.items i }
    {
        self.all[which] = None;
    }

    /// Sees what was stored, once the waker that the syncs share is parked at each stream. What the sessions have done stays as it was. `Memory`
    /// where there is no room for it; the waker may not be parked then.
    pub(crate) fn look<G: Outside, R: Wait>(
        &mut self,
        rt: &R,
        alloc: Global,
        server: &Server<G>,
    ) -> Result<(), Memory>
        requires ties { Ties server.now.engine self.old.pass }
        ensures ties { Ties server.now.engine self.new.pass }
        ensures grows { Grows (stores_of self.old.pass) (stores_of self.new.pass) }
        ensures all { self.new.all.items ≡ self.old.all.items }
        ensures stands { (i : ℕ) (start : Moment) → StandsAt P.left P.written (site_of server.now.engine) (stops_of server.now.engine) server.now.limit start self.old.pass self.old.all.items i
            → StandsAt P.left P.written (site_of server.now.engine) (stops_of server.now.engine) server.now.limit start self.new.pass self.new.all.items i }
    {
        look_on(rt, alloc, server, &mut self.pass, &mut self.watch)
    }

    /// Moves the session at a place once, where there is one. What the others have done stays as it was.
    pub fn step<G: Outside, R: Wait, C: Clock>(
        &mut self,
        rt: &R,
        alloc: Global,
        server: &Server<G>,
        which: usize,
        clock: &mut C,
    ) -> Stepped
        requires ties { Ties server.now.engine self.old.pass }
        requires within { which < length self.old.all.items }
        ensures ties { Ties server.now.engine self.new.pass }
        ensures grows { Grows (stores_of self.old.pass) (stores_of self.new.pass) }
        ensures count { length self.new.all.items ≡ length self.old.all.items }
        ensures others { (i : ℕ) → (i ≡ which → ⊥) → slice_get self.new.all.items i ≡ slice_get self.old.all.items i }
        ensures stands { (i : ℕ) (start : Moment) → StandsAt P.left P.written (site_of server.now.engine) (stops_of server.now.engine) server.now.limit start self.old.pass self.old.all.items i
            → StandsAt P.left P.written (site_of server.now.engine) (stops_of server.now.engine) server.now.limit start self.new.pass self.new.all.items i }
    {
        match &mut self.all[which] {
            Some(session) => session.step(
                rt,
                alloc,
                server,
                &mut self.pass,
                &mut self.scratch,
                clock,
                &mut self.watch,
            ),
            None => Stepped::Ended,
        }
    }

    /// Moves sessions in turn, in any order.
    pub fn run_turns<G: Outside, R: Wait, C: Clock>(
        &mut self,
        rt: &R,
        alloc: Global,
        server: &Server<G>,
        turns: &[usize],
        clock: &mut C,
    )
        requires ties { Ties server.now.engine self.old.pass }
        requires within { All (λ which. which < length self.old.all.items) turns.now }
        ensures ties { Ties server.now.engine self.new.pass }
        ensures grows { Grows (stores_of self.old.pass) (stores_of self.new.pass) }
        ensures stands { (i : ℕ) (start : Moment) → StandsAt P.left P.written (site_of server.now.engine) (stops_of server.now.engine) server.now.limit start self.old.pass self.old.all.items i
            → StandsAt P.left P.written (site_of server.now.engine) (stops_of server.now.engine) server.now.limit start self.new.pass self.new.all.items i }
    {
        'turns: for which in turns {
            let _ = self.step(rt, alloc, server, *which, clock);
        }
    }
}

//! Which places are to be stepped, and when.
ghost use Rattle.std.specs.Prelude.{◌≡◌, ◌<◌, IfOk, length};
ghost use Rattle.mx_fold.specs.Lists.{Grows};
ghost use Rattle.mx_poll.specs.OfEngine.Shown.{Ties, stores_of};

use crate::line::Stepped;
use crate::resting::Resting;
use crate::sessions::Sessions;
use futures::util::wheel::Wheel;
use mx_ids::Memory;
use mx_outside::{Clock, Port, Ports};
use mx_poll::{EnginePass, Outside};
use mx_serve::Server;
use std::alloc::Global;
use std::mem;
use std::sync::Wait;

/// So many deadlines, or ports that may be ready, are taken at once; the others are taken in the next round.
const MOST_TAKEN: u32 = 65_536;

/// A session is moved so many times at most before the next one's turn.
const MOST_MOVES: u32 = 16;

/// The sessions of a loop, and which of their places are to be stepped: those whose port may be ready, whose deadline has come, or whose syncs
/// a store concerns.
#[derive(Drop)]
pub(crate) struct Places<P> {
    pub(crate) sessions: Sessions<P>,
    /// Of each place whether it is in the queue.
    queued: Vec<bool>,
    free: Vec<usize>,
    queue: Vec<usize>,
    resting: Resting,
    deadlines: Wheel,
    /// How often those who rest were told of a store when they were last stepped for it.
    raised: u64,
}

impl<P: Port + Drop> Places<P> {
    /// No place yet, on a pass. `Memory` where there is no room for what is shared.
    pub(crate) fn new(alloc: Global, pass: EnginePass) -> Result<Places<P>, Memory>
        ensures { IfOk result (λ p. p.sessions.pass ≡ pass) }
    {
        let resting = Resting::new(alloc, &pass);
        let sessions = match Sessions::new(alloc, pass) {
            Ok(sessions) => sessions,
            Err(refused) => {
                drop(resting);
                return Err(refused);
            }
        };
        let deadlines = match Wheel::new(alloc) {
            Ok(deadlines) => deadlines,
            Err(refused) => {
                drop(resting);
                drop(sessions);
                return Err(refused.into());
            }
        };
        Ok(Places {
            sessions,
            queued: Vec::new(alloc),
            free: Vec::new(alloc),
            queue: Vec::new(alloc),
            resting,
            deadlines,
            raised: 0,
        })
    }

    /// Whether no place has a session.
    pub(crate) fn are_free(&self) -> bool {
        self.free.len() == self.sessions.count()
    }

    /// Whether there is a place for one more session, of so many at most.
    pub(crate) fn has_place(&self, most: usize) -> bool {
        !self.free.is_empty() || self.sessions.count() < most
    }

    /// How many milliseconds nothing is to be done from this reading of the clock on, where no port becomes ready; at most `look` where a sync
    /// rests, and `longest` else.
    pub(crate) fn pause(&self, now: u64, look: u64, longest: u64) -> u64 {
        if !self.queue.is_empty() {
            return 0;
        }
        let most = if self.resting.is_empty() {
            longest
        } else {
            look
        };
        match self.deadlines.poll_at() {
            Some(at) => at.saturating_sub(now).min(most),
            None => most,
        }
    }

    /// A session of a connection, which is stepped in the next round. Where there is no room for it the connection is dropped.
    pub(crate) fn admit<G: Outside, Q: Ports<Port = P>>(
        &mut self,
        alloc: Global,
        server: &Server<G>,
        ports: &mut Q,
        port: P,
    ) -> Result<(), Memory>
        ensures pass { self.new.sessions.pass ≡ self.old.sessions.pass }
        ensures left { Q.left ports.new ≡ Q.left ports.old }
        ensures faults { Q.faults ports.new ≡ Q.faults ports.old }
    {
        let mut port = port;
        let which = self.free_place()?;
        ports.watch(&mut port, which);
        if which < self.sessions.count() {
            if self.sessions.put(alloc, server, which, port).is_ok() {
                return self.enqueue(which);
            }
        }
        self.free.push(which)?;
        Ok(())
    }

    /// A place without a session: one that is free, or a new one.
    fn free_place(&mut self) -> Result<usize, Memory>
        ensures { self.new.sessions.pass ≡ self.old.sessions.pass }
    {
        if let Some(which) = self.free.pop() {
            return Ok(which);
        }
        let which = self.sessions.count();
        self.deadlines.reserve_key(which)?;
        self.queued.push(false)?;
        self.sessions.add_place()?;
        Ok(which)
    }

    /// Has a place stepped in the next round.
    pub(crate) fn enqueue(&mut self, which: usize) -> Result<(), Memory>
        ensures { self.new.sessions.pass ≡ self.old.sessions.pass }
    {
        if let Some(queued) = self.queued.get_mut(which) {
            if !*queued {
                *queued = true;
                self.queue.push(which)?;
            }
        }
        Ok(())
    }

    /// Has a place stepped once something is stored that concerns whose sync rests there.
    fn await_store(&mut self, alloc: Global, which: usize) -> Result<(), Memory>
        ensures { self.new.sessions.pass ≡ self.old.sessions.pass }
    {
        rest_at(alloc, &self.sessions, &mut self.resting, which)
    }

    /// Has something done at a place at a reading of the clock, and nothing at the one that was told before.
    fn set_deadline(&mut self, which: usize, at: u64) -> Result<(), Memory>
        ensures { self.new.sessions.pass ≡ self.old.sessions.pass }
    {
        self.deadlines.reserve_key(which)?;
        self.deadlines.insert(which, at);
        Ok(())
    }

    /// Drops the session at a place, which is free then.
    fn end(&mut self, which: usize) -> Result<(), Memory>
        ensures { self.new.sessions.pass ≡ self.old.sessions.pass }
    {
        if self.sessions.at(which).is_some() && which < self.sessions.count() {
            self.sessions.close(which);
            self.deadlines.remove(which);
            self.free.push(which)?;
        }
        Ok(())
    }

    /// Takes the places whose deadline has come: a sync that rests is stepped, and a session that was silent for so long is ended.
    pub(crate) fn take_due(&mut self, now: u64) -> Result<(), Memory>
        ensures { self.new.sessions.pass ≡ self.old.sessions.pass }
    {
        'due: for _ in 0..MOST_TAKEN {
            match self.deadlines.poll(now) {
                Some(which) => self.fall_due(which)?,
                None => return Ok(()),
            }
        }
        Ok(())
    }

    /// What is done at a place whose deadline has come. One that is to be stepped anyway has its next deadline from that.
    fn fall_due(&mut self, which: usize) -> Result<(), Memory>
        ensures { self.new.sessions.pass ≡ self.old.sessions.pass }
    {
        if self.queued.get(which).copied().unwrap_or(true) {
            Ok(())
        } else if self.sessions.deadline(which).is_some() {
            self.enqueue(which)
        } else {
            self.end(which)
        }
    }

    /// Takes the places whose ports may be ready.
    pub(crate) fn take_ready<Q: Ports>(&mut self, ports: &mut Q) -> Result<(), Memory>
        ensures pass { self.new.sessions.pass ≡ self.old.sessions.pass }
        ensures left { Q.left ports.new ≡ Q.left ports.old }
        ensures faults { Q.faults ports.new ≡ Q.faults ports.old }
    {
        'told: for _ in 0..MOST_TAKEN {
            match ports.ready() {
                Some(which) => self.enqueue(which)?,
                None => return Ok(()),
            }
        }
        Ok(())
    }

    /// Where something was stored since, the places whose syncs it concerns are stepped in the next round; all where there is no room to find
    /// them.
    pub(crate) fn take_stored<G: Outside, R: Wait>(
        &mut self,
        rt: &R,
        alloc: Global,
        server: &Server<G>,
    ) -> Result<(), Memory>
        requires ties { Ties server.now.engine self.old.sessions.pass }
        ensures ties { Ties server.now.engine self.new.sessions.pass }
    {
        let raised = self.sessions.raised();
        if raised == self.raised {
            return Ok(());
        }
        self.raised = raised;
        let looked = self.sessions.look(rt, alloc, server);
        let mut found = Vec::new(alloc);
        if looked.is_err() || self.find_concerned(alloc, &mut found).is_err() {
            self.resting.take_all(&mut found)?;
        }
        'found: for which in found.as_slice() {
            self.enqueue(*which)?;
        }
        Ok(())
    }

    /// The places whose syncs are concerned by what was seen.
    fn find_concerned(&mut self, alloc: Global, found: &mut Vec<usize>) -> Result<(), Memory>
        ensures { self.new.sessions.pass ≡ self.old.sessions.pass }
    {
        self.resting
            .take_concerned(alloc, &self.sessions.pass, found)
    }

    /// Steps each place once that is to be stepped; one whose session isn't ready then may be silent for `idle` milliseconds.
    pub(crate) fn step_queued<G: Outside, R: Wait, C: Clock>(
        &mut self,
        rt: &R,
        alloc: Global,
        server: &Server<G>,
        clock: &mut C,
        turns: &mut Vec<usize>,
        silent_at: u64,
    ) -> Result<(), Memory>
        requires ties { Ties server.now.engine self.old.sessions.pass }
        ensures ties { Ties server.now.engine self.new.sessions.pass }
    {
        mem::swap(turns, &mut self.queue);
        'turns: for which in turns.as_slice() {
            self.step(rt, alloc, server, clock, *which, silent_at)?;
        }
        turns.clear();
        Ok(())
    }

    /// Steps a place, and says when it is to be stepped again.
    fn step<G: Outside, R: Wait, C: Clock>(
        &mut self,
        rt: &R,
        alloc: Global,
        server: &Server<G>,
        clock: &mut C,
        which: usize,
        silent_at: u64,
    ) -> Result<(), Memory>
        requires ties { Ties server.now.engine self.old.sessions.pass }
        ensures ties { Ties server.now.engine self.new.sessions.pass }
    {
        if let Some(queued) = self.queued.get_mut(which) {
            *queued = false;
        }
        if which >= self.sessions.count() {
            return Ok(());
        }
        self.resting.remove(which);
        match self.move_on(rt, alloc, server, clock, which) {
            Stepped::Moved => self.enqueue(which),
            Stepped::Resting => self.set_deadline(which, silent_at),
            Stepped::Waiting(_) => {
                let at = self.sessions.deadline(which).unwrap_or(silent_at);
                self.await_store(alloc, which)?;
                self.set_deadline(which, at)
            }
            Stepped::Ended => self.end(which),
        }
    }

    /// Moves the session at a place until it isn't ready, waits or has ended, or so many times.
    fn move_on<G: Outside, R: Wait, C: Clock>(
        &mut self,
        rt: &R,
        alloc: Global,
        server: &Server<G>,
        clock: &mut C,
        which: usize,
    ) -> Stepped
        requires ties { Ties server.now.engine self.old.sessions.pass }
        requires within { which < length self.old.sessions.all.items }
        ensures ties { Ties server.now.engine self.new.sessions.pass }
    {
        'moves: for _ in 0..MOST_MOVES {
            match self.sessions.step(rt, alloc, server, which, clock) {
                Stepped::Moved => {}
                stepped => return stepped,
            }
        }
        Stepped::Moved
    }
}

/// Puts down that the sync at a place rests, where one does.
fn rest_at<P: Port>(
    alloc: Global,
    sessions: &Sessions<P>,
    resting: &mut Resting,
    which: usize,
) -> Result<(), Memory> {
    match sessions.asker(which) {
        Some(user) => resting.put(alloc, &sessions.pass, which, user.as_str()),
        None => Ok(()),
    }
}

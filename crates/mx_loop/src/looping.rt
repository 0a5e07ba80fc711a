//! A loop that serves the connections of a listener.
ghost use Rattle.std.specs.Prelude.{◌≡◌, ◌≤◌, IfOk, MatchOption};
ghost use Rattle.mx_loop.specs.Looped.{EndsFor, HasNone};
ghost use Rattle.mx_outside.specs.Causes.{Rose};
ghost use Rattle.mx_poll.specs.OfEngine.Shown.{Ties};

use crate::places::Places;
use mx_ids::Memory;
use mx_outside::{AcceptedNow, Clock, Ports};
use mx_poll::{EnginePass, Outside};
use mx_serve::Server;
use std::alloc::Global;
use std::rt;
use std::sync::Wait;

/// So many connections are accepted in a round.
const MOST_ACCEPTS: u32 = 256;

/// A rest lasts so many milliseconds at most.
const LONGEST_REST: u64 = 1000;

/// How a loop serves.
#[derive(Clone, Copy, Debug, PartialEq, Eq)]
pub struct Limits {
    /// So many sessions at a time.
    pub sessions: usize,
    /// A connection that is silent for so many milliseconds is ended, but for one whose sync rests.
    pub idle: u64,
    /// While a sync rests, the stores of other loops are looked for after so many milliseconds.
    pub look: u64,
}

/// How a loop ended.
#[derive(Clone, Copy, Debug, PartialEq, Eq)]
pub enum Looped {
    /// No connection comes any more, and all sessions have ended.
    Closed,
    /// The listener failed.
    ListenFailed,
    /// Want of memory.
    Memory(Memory),
}

/// Whether connections come.
#[derive(Clone, Copy, Debug, PartialEq, Eq)]
enum Coming {
    /// One may be there already.
    Now,
    /// The ports tell of the next one.
    Later,
    /// One may be there already, and there is no place for it.
    Full,
    /// None comes any more.
    Never,
}

/// Serves the connections that `ports` give, so many at a time, each by a session that is stepped when its port may be ready, when its
/// deadline has come, or after a store. All sessions share the pass, and wait for turns at the streams. Ends once no connection comes any more and all
/// sessions have ended, or at the first fault of the listener. Where there is no room for one session more its connection is dropped.
///
/// What is done of a session is [`Sessions::step`](crate::Sessions::step) alone, so each stands as that says. `Closed` comes only where the ports, where they are told, are
/// none; `ListenFailed` only where their count of faults rose.
pub fn run_loop<G: Outside, Q: Ports, C: Clock, R: Wait + rt::Clock>(
    rt: &R,
    alloc: Global,
    server: &Server<G>,
    pass: EnginePass,
    limits: Limits,
    ports: &mut Q,
    clock: &mut C,
) -> Looped
where
    Q::Port: Drop,
    requires ties { Ties server.now.engine pass }
    ensures { EndsFor result (Q.left ports.new) (Q.faults ports.old) (Q.faults ports.new) }
{
    match Places::new(alloc, pass) {
        Ok(mut places) => match go_round(rt, alloc, server, &mut places, limits, ports, clock) {
            Ok(looped) => looped,
            Err(refused) => Looped::Memory(refused),
        },
        Err(refused) => Looped::Memory(refused),
    }
}

/// The same on places, of which none has a session.
fn go_round<G: Outside, Q: Ports, C: Clock, R: Wait + rt::Clock>(
    rt: &R,
    alloc: Global,
    server: &Server<G>,
    places: &mut Places<Q::Port>,
    limits: Limits,
    ports: &mut Q,
    clock: &mut C,
) -> Result<Looped, Memory>
where
    Q::Port: Drop,
    requires ties { Ties server.now.engine places.old.sessions.pass }
    ensures { IfOk result (λ looped. EndsFor looped (Q.left ports.new) (Q.faults ports.old) (Q.faults ports.new)) }
{
    let mut turns = Vec::new(alloc);
    let mut coming = Coming::Now;
    'rounds: for _ in rt.forever() {
        let now = clock.now();
        places.take_due(now)?;
        if coming != Coming::Never {
            match accept_all(alloc, server, places, limits.sessions, ports)? {
                Some(next) => coming = next,
                None => return Ok(Looped::ListenFailed),
            }
        }
        places.step_queued(
            rt,
            alloc,
            server,
            clock,
            &mut turns,
            now.saturating_add(limits.idle),
        )?;
        places.take_stored(rt, alloc, server)?;
        if coming == Coming::Never && places.are_free() {
            return Ok(Looped::Closed);
        }
        let accepts = match coming {
            Coming::Now => true,
            Coming::Full => places.has_place(limits.sessions),
            Coming::Later | Coming::Never => false,
        };
        ports.rest(if accepts {
            0
        } else {
            places.pause(now, limits.look, LONGEST_REST)
        });
        places.take_ready(ports)?;
    }
    unreachable!()
}

/// Admits the connections that have come, while there are places; none where the listener failed.
fn accept_all<G: Outside, Q: Ports>(
    alloc: Global,
    server: &Server<G>,
    places: &mut Places<Q::Port>,
    most: usize,
    ports: &mut Q,
) -> Result<Option<Coming>, Memory>
where
    Q::Port: Drop,
    ensures pass { places.new.sessions.pass ≡ places.old.sessions.pass }
    ensures count { Q.faults ports.old ≤ Q.faults ports.new }
    ensures accepted { IfOk result (λ o. MatchOption o (Rose (Q.faults ports.old) (Q.faults ports.new)) (λ coming. coming ≡ Coming.Never → HasNone (Q.left ports.new))) }
{
    'accepts: for _ in 0..MOST_ACCEPTS {
        if !places.has_place(most) {
            return Ok(Some(Coming::Full));
        }
        match ports.accept_now() {
            AcceptedNow::One(port) => places.admit(alloc, server, ports, port)?,
            AcceptedNow::NotYet => return Ok(Some(Coming::Later)),
            AcceptedNow::Closed => return Ok(Some(Coming::Never)),
            AcceptedNow::Failed => return Ok(None),
        }
    }
    Ok(Some(Coming::Now))
}

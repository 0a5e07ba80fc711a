//! Syncs that rest while messages are sent.

ghost use Rattle.std.specs.Prelude.{◌≡◌, IfOk, OnOk};
ghost use Rattle.std.specs.List.{All};
ghost use Rattle.mx_ask.specs.Asks.{IsAsk};
ghost use Rattle.mx_engine.specs.Shown.{Ties, stores_of};
ghost use Rattle.mx_fold.specs.Lists.{lists_of};
ghost use Rattle.mx_poll.specs.Polls.{IsPolled};
ghost use Rattle.bench_engine.specs.Rests.{RestsOn};

use crate::room::{Told, ask_engine, create, read_up_to, send};
use crate::unmeasured::Unmeasured;
use crate::users::user_at;
use crate::words::{Timed, Wanted};
use mx_ask::{Ask, FilterAsk, Said, Who};
use mx_engine::{Answered, Engine, EnginePass};
use mx_ids::{Copied, EventId, SyncToken, Text};
use mx_outside::Clock;
use mx_poll::{Begun, Polled, SyncPoll, begin, poll};
use mx_wait::{Flag, Tickets, flag};
use mx_writers::Open;
use std::alloc::Global;
use std::sync::Wait;

/// The clock's reading of each request. A sync waits for longer.
const NOW: u64 = 1000;

/// A user whose sync rests, on a pass and with a flag of its own.
#[derive(Drop)]
pub struct Resting {
    pub who: Who,
    pub pass: EnginePass,
    pub waiting: SyncPoll,
    pub flag: Flag,
    pub kept: Option<Tickets>,
}

/// The milliseconds of sends into the room, or into another one of the same user, while the syncs of so many others rest who joined
/// the room alone, and read it. `Other` where a sync was answered that a send doesn't concern, or wasn't that it concerns.
pub fn timed_rests<R: Wait, C: Clock>(
    rt: &R,
    alloc: Global,
    clock: &mut C,
    engine: &Engine<Open>,
    pass: &mut EnginePass,
    who: &Who,
    room: &Text,
    wanted: Wanted,
) -> Result<u64, Unmeasured>
    requires ties { Ties engine.now pass.old }
{
    join_all(rt, alloc, engine, pass, room, wanted.size)?;
    let last = send(rt, alloc, engine, pass, who, room, u64::from(wanted.count))?;
    read_all(rt, alloc, engine, pass, room, last, wanted.size)?;
    match wanted.timed {
        Timed::Wakes => timed_beside(rt, alloc, clock, engine, pass, who, room, wanted),
        _ => {
            let other = create(rt, alloc, engine, pass, who)?;
            let took = timed_beside(rt, alloc, clock, engine, pass, who, &other, wanted);
            drop(other);
            took
        }
    }
}

/// So many other users join the room.
fn join_all<R: Wait>(
    rt: &R,
    alloc: Global,
    engine: &Engine<Open>,
    pass: &mut EnginePass,
    room: &Text,
    count: u32,
) -> Result<(), Unmeasured>
    requires ties { Ties engine.now pass.old }
    ensures ties { Ties engine.now pass.new }
{
    'users: for number in 0..count {
        join(rt, alloc, engine, pass, room, number)?;
    }
    Ok(())
}

/// Another user of this number joins the room. `Other` where that is refused.
fn join<R: Wait>(
    rt: &R,
    alloc: Global,
    engine: &Engine<Open>,
    pass: &mut EnginePass,
    room: &Text,
    number: u32,
) -> Result<(), Unmeasured>
    requires ties { Ties engine.now pass.old }
    ensures ties { Ties engine.now pass.new }
{
    let ask = Ask::Join {
        room: room.copy(alloc)?,
        reason: None,
    };
    match user_at(alloc, engine.users(), number.saturating_add(1)) {
        Ok(who) => {
            let told = ask_engine(rt, alloc, engine, pass, &who, ask);
            drop(who);
            match told {
                Told::Room(_) => Ok(()),
                _ => Err(Unmeasured::Other),
            }
        }
        Err(refused) => {
            drop(ask);
            Err(refused)
        }
    }
}

/// So many other users send a receipt for an event of the room.
fn read_all<R: Wait>(
    rt: &R,
    alloc: Global,
    engine: &Engine<Open>,
    pass: &mut EnginePass,
    room: &Text,
    event: EventId,
    count: u32,
) -> Result<(), Unmeasured>
    requires ties { Ties engine.now pass.old }
    ensures ties { Ties engine.now pass.new }
{
    'users: for number in 0..count {
        let who = user_at(alloc, engine.users(), number.saturating_add(1))?;
        let read = read_up_to(rt, alloc, engine, pass, &who, room, Some(event));
        drop(who);
        read?;
    }
    Ok(())
}

/// The milliseconds of sends into a room while the other users' syncs rest.
fn timed_beside<R: Wait, C: Clock>(
    rt: &R,
    alloc: Global,
    clock: &mut C,
    engine: &Engine<Open>,
    pass: &mut EnginePass,
    who: &Who,
    room: &Text,
    wanted: Wanted,
) -> Result<u64, Unmeasured>
    requires ties { Ties engine.now pass.old }
{
    engine.look(rt, alloc, pass)?;
    let mut all = rest_all(rt, alloc, engine, pass, wanted.size)?;
    let start = clock.now();
    let told = send_beside(rt, alloc, engine, pass, who, room, &mut all, wanted);
    let took = clock.now().saturating_sub(start);
    drop(all);
    told?;
    Ok(took)
}

/// The other users' syncs, which rest from what the pass knows on.
fn rest_all<R: Wait>(
    rt: &R,
    alloc: Global,
    engine: &Engine<Open>,
    pass: &mut EnginePass,
    count: u32,
) -> Result<Vec<Resting>, Unmeasured>
    requires ties { Ties engine.now pass.old }
    ensures ties { Ties engine.now pass.new }
    ensures all { IfOk result (λ all. All (RestsOn engine.now) all.items) }
{
    let since = pass.fronts();
    let mut all = Vec::new(alloc);
    'users: for number in 0..count {
        let own = engine.pass(alloc, pass)?;
        let number = number.saturating_add(1);
        rest_next(rt, alloc, engine, own, since, number, &mut all)?;
    }
    Ok(all)
}

/// Puts a user whose sync rests on a pass from a token on at the end.
fn rest_next<R: Wait>(
    rt: &R,
    alloc: Global,
    engine: &Engine<Open>,
    pass: EnginePass,
    since: SyncToken,
    number: u32,
    all: &mut Vec<Resting>,
) -> Result<(), Unmeasured>
    requires ties { Ties engine.now pass }
    requires all { All (RestsOn engine.now) all.old.items }
    ensures all { OnOk result (All (RestsOn engine.now) all.new.items) }
{
    all.push(rest_one(rt, alloc, engine, pass, since, number)?)?;
    Ok(())
}

/// A user whose sync rests on a pass from a token on.
fn rest_one<R: Wait>(
    rt: &R,
    alloc: Global,
    engine: &Engine<Open>,
    mut pass: EnginePass,
    since: SyncToken,
    number: u32,
) -> Result<Resting, Unmeasured>
    requires ties { Ties engine.now pass }
    ensures rests { IfOk result (RestsOn engine.now) }
{
    let who = user_at(alloc, engine.users(), number)?;
    let flag = flag(alloc)?;
    let waiting = sync_from(rt, alloc, engine, &mut pass, &who, since)?;
    Ok(Resting {
        who,
        pass,
        waiting,
        flag,
        kept: None,
    })
}

/// A sync from a token on, which has nothing to tell. `Other` where it is answered.
fn sync_from<R: Wait>(
    rt: &R,
    alloc: Global,
    engine: &Engine<Open>,
    pass: &mut EnginePass,
    who: &Who,
    since: SyncToken,
) -> Result<SyncPoll, Unmeasured>
    requires ties { Ties engine.now pass.old }
    ensures ties { Ties engine.now pass.new }
    ensures polled { IfOk result (λ p. IsPolled p (lists_of (stores_of pass.new))) }
{
    let ask = Ask::Sync {
        since: Some(since),
        filter: FilterAsk::Absent,
        full_state: false,
        after: false,
        timeout: 1000,
    };
    match begin(rt, alloc, engine, pass, who, ask, NOW) {
        Begun::Poll(waiting) => Ok(waiting),
        Begun::Done(answered) => {
            drop(answered);
            Err(Unmeasured::Other)
        }
    }
}

/// Sends messages into a room, and polls each sync after each.
fn send_beside<R: Wait>(
    rt: &R,
    alloc: Global,
    engine: &Engine<Open>,
    pass: &mut EnginePass,
    who: &Who,
    room: &Text,
    all: &mut Vec<Resting>,
    wanted: Wanted,
) -> Result<(), Unmeasured>
    requires ties { Ties engine.now pass.old }
    requires all { All (RestsOn engine.now) all.old.items }
{
    'sends: for number in 0..wanted.count {
        send(rt, alloc, engine, pass, who, room, u64::from(number))?;
        poll_all(rt, alloc, engine, all, wanted.timed)?;
    }
    Ok(())
}

/// Polls each sync, which is answered where that is wanted, and else goes on resting.
fn poll_all<R: Wait>(
    rt: &R,
    alloc: Global,
    engine: &Engine<Open>,
    all: &mut Vec<Resting>,
    timed: Timed,
) -> Result<(), Unmeasured>
    requires all { All (RestsOn engine.now) all.old.items }
    ensures all { OnOk result (All (RestsOn engine.now) all.new.items) }
{
    'syncs: for resting in all.iter_mut() {
        poll_one(rt, alloc, engine, resting, timed)?;
    }
    Ok(())
}

/// Polls a sync. Where it is answered the user's next one rests from there on.
fn poll_one<R: Wait>(
    rt: &R,
    alloc: Global,
    engine: &Engine<Open>,
    resting: &mut Resting,
    timed: Timed,
) -> Result<(), Unmeasured>
    requires rests { RestsOn engine.now resting.old }
    ensures rests { OnOk result (RestsOn engine.now resting.new) }
{
    let polled = poll(
        rt,
        alloc,
        engine,
        &mut resting.pass,
        &mut resting.waiting,
        NOW,
        &resting.flag,
        &mut resting.kept,
    );
    match (polled, timed) {
        (Polled::Pending(_), Timed::Rests) => Ok(()),
        (Polled::Done(answered), Timed::Wakes) => {
            let since = next_of(answered)?;
            resting.waiting = sync_from(rt, alloc, engine, &mut resting.pass, &resting.who, since)?;
            Ok(())
        }
        _ => Err(Unmeasured::Other),
    }
}

/// The token of a sync that has something to tell. `Other` where it was answered otherwise.
fn next_of(answered: Answered) -> Result<SyncToken, Unmeasured> {
    let next = match &answered.said {
        Said::Synced(reply) if !reply.is_empty() => Ok(reply.next),
        _ => Err(Unmeasured::Other),
    };
    drop(answered);
    next
}

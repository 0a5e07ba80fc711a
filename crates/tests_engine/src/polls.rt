//! Syncs that wait until there is something to tell: the reading of the clock at which each is answered.

ghost use Rattle.std.specs.Prelude.{◌≤◌};
ghost use Rattle.mx_ask.specs.Asks.{IsAsk};
ghost use Rattle.mx_engine.specs.Shown.{Ties};

use crate::rooms::{create, one_writer, user};
use mx_ask::{Ask, FilterAsk, Said, Who};
use mx_engine::{Engine, EnginePass};
use mx_ids::{SyncToken, read_sync_token};
use mx_outside::{Clock, MemSink, StepClock};
use mx_poll::answer;
use mx_writers::Open;
use std::alloc::Global;
use std::process::Abort;
use std::rt;
use std::sync::Wait;

/// The reading at which a sync of alice is answered, and whether there is nothing to tell and the token stays. The clock's
/// readings are 1000, 1010 and so on, and the first is that of the request.
fn answered_at(
    rt: &(impl Abort + Wait + rt::Clock),
    alloc: Global,
    engine: &Engine<Open>,
    pass: &mut EnginePass,
    since: &str,
    full_state: bool,
    timeout: u64,
) -> (u64, bool)
    requires ties { Ties engine.now pass.old }
    requires cut { timeout ≤ 300000 }
    ensures ties { Ties engine.now pass.new }
{
    let who = Who {
        user: user(rt, alloc, "alice"),
        device: 0,
    };
    let since = read_sync_token(since).ok();
    let ask = Ask::Sync {
        since,
        filter: FilterAsk::Absent,
        full_state,
        after: false,
        timeout,
    };
    let (reading, told) = told_at(rt, alloc, engine, pass, &who, ask);
    drop(who);
    (reading, told.is_some() && told == since)
}

/// The reading at which what is asked is answered, and the token of a reply that has nothing to tell.
fn told_at(
    rt: &(impl Wait + rt::Clock),
    alloc: Global,
    engine: &Engine<Open>,
    pass: &mut EnginePass,
    who: &Who,
    ask: Ask,
) -> (u64, Option<SyncToken>)
    requires ties { Ties engine.now pass.old }
    requires ask { IsAsk ask }
    ensures ties { Ties engine.now pass.new }
{
    let mut clock = StepClock::new(1000, 10);
    let now = clock.now();
    let mut output = MemSink::new(alloc, Vec::new(alloc));
    let outcome = answer(
        rt,
        alloc,
        engine,
        pass,
        who,
        ask,
        now,
        &mut clock,
        &mut output,
    );
    let answered = &outcome.answered;
    let told = (answered.mark.now, token_of_nothing(&answered.said));
    drop(outcome);
    drop(output);
    told
}

fn token_of_nothing(said: &Said) -> Option<SyncToken> {
    match said {
        Said::Synced(reply) if reply.is_empty() => Some(reply.next),
        _ => None,
    }
}

fn a_sync_with_nothing_to_tell_waits_on(
    rt: &(impl Abort + Wait + rt::Clock),
    alloc: Global,
    e: &Engine<Open>,
    p: &mut EnginePass,
)
    requires ties { Ties e.now p.old }
{
    let front = "s0_0_0_0_0";
    assert_eq!(rt;
        answered_at(rt, alloc, e, p, front, false, 25),
        (1030, true)
    );
    assert_eq!(rt;
        answered_at(rt, alloc, e, p, front, false, 10),
        (1010, true)
    );
    // at once: without a timeout, without a token, or for the whole state
    assert_eq!(rt; answered_at(rt, alloc, e, p, front, false, 0), (1000, true));
    assert_eq!(rt; answered_at(rt, alloc, e, p, "", false, 25), (1000, false));
    assert_eq!(rt; answered_at(rt, alloc, e, p, front, true, 25), (1000, true));
    // and where there is something to tell
    assert_eq!(rt; create(rt, alloc, e, p, "alice", "{}"), 1);
    assert_eq!(rt;
        answered_at(rt, alloc, e, p, front, false, 25),
        (1000, false)
    );
}

#[test]
fn a_sync_with_nothing_to_tell_waits(rt: HostRuntime) {
    let alloc = rt.alloc();
    let (engine, mut pass) = one_writer(&rt, alloc, 1000);
    a_sync_with_nothing_to_tell_waits_on(&rt, alloc, &engine, &mut pass);
    drop(pass);
    drop(engine);
}

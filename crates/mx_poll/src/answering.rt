//! The answer to what a user asks, where a sync that waits rests in the caller's thread.

ghost use Rattle.std.specs.Prelude.{◌≡◌, ℕ, ◌≤◌, false, true};
ghost use Rattle.mx_ask.specs.Asks.{IsAsk};
ghost use Rattle.mx_engine.specs.Acts.Acts.{Reads, asked};
ghost use Rattle.mx_engine.specs.Answers.{IsAnswered, made_for};
ghost use Rattle.mx_engine.specs.Shown.{IsDoneBy, LooksFor, Ties, made_of, site_of, stops_of, stores_of};
ghost use Rattle.mx_fold.specs.Lists.{lists_of};
ghost use Rattle.mx_outside.specs.Readings.{most_reading};
ghost use Rattle.mx_poll.specs.Polls.{IsDue, IsPolled, IsWaitedBy, said_of};
ghost use Rattle.mx_poll.specs.Waits.{HasWaited, IsWatched, ReadsOn, may_rest};

use crate::beginning::begin;
use crate::polling::poll;
use crate::states::{Begun, Outcome, Polled, SyncPoll};
use mx_ask::{Ask, Who};
use mx_engine::{Answered, Engine, EnginePass, Outside};
use mx_outside::{Clock, Sink};
use mx_wait::{Flag, Tickets};
use std::alloc::Global;
use std::rt;
use std::sync::Wait;

/// The longest rest, in milliseconds, of a sync that waits before it asks whether its client has gone away.
const LONGEST_REST: u64 = 1000;

/// Answers what a user asks (*Answer*), on what the pass has then seen: at least what it had seen before. `now` is the clock's last
/// reading, that of the request, in milliseconds since 1970. The pass is one of the engine's. Waits for turns at the streams.
///
/// A sync with `since` and without `full_state` that has nothing to tell waits, and looks again when something was stored:
/// it tells that there is nothing only once a reading of the clock has come to `now` and the timeout (Client-Server API, Syncing).
/// The mark has the last reading; any other request is answered at once. Only the stores that the mark tells are made with the pass,
/// and no pass is split off from it.
///
/// While it waits, `output`, which is put nothing, is asked at each wake, and at least each second, whether who takes the answer has
/// gone away. Then it is answered at once, also where there is nothing to tell: `gone` says so, and comes only where the count of the
/// sink's faults rose. Nothing but a sync that may wait is `gone`.
pub fn answer<G: Outside, R: Wait + rt::Clock, C: Clock, K: Sink>(
    rt: &R,
    alloc: Global,
    engine: &Engine<G>,
    pass: &mut EnginePass,
    who: &Who,
    ask: Ask,
    now: u64,
    clock: &mut C,
    output: &mut K,
) -> Outcome
    requires ties { Ties engine.now pass.old }
    requires ask { IsAsk ask }
    requires last { C.last clock.old ≡ now }
    requires most { now ≤ most_reading }
    ensures ties { Ties engine.now pass.new }
    ensures answered { IsAnswered (site_of engine.now) (stops_of engine.now) result.answered.mark.now who.now ask (stores_of pass.old) (stores_of pass.new) result.answered }
    ensures made { made_of pass.new ≡ made_for (asked (site_of engine.now) result.answered.mark.now who.now ask) result.answered.mark (made_of pass.old) }
    ensures looks { LooksFor ask pass.old pass.new }
    ensures waited { result.gone ≡ false → HasWaited ask now result.answered.mark.now result.answered.said }
    ensures gone { result.gone ≡ true → may_rest ask ≡ true }
    ensures output { IsWatched result.gone (K.written output.old) (K.written output.new) (K.faults output.old) (K.faults output.new) }
    ensures last { C.last clock.new ≡ result.answered.mark.now }
    ensures read { ReadsOn (C.readings clock.old) (C.readings clock.new) now result.answered.mark.now }
{
    match begin(rt, alloc, engine, pass, who, ask, now) {
        Begun::Done(answered) => Outcome {
            answered,
            gone: false,
        },
        Begun::Poll(waiting) => wait(rt, alloc, engine, pass, waiting, now, clock, output),
    }
}

/// Polls a sync until it is answered, and rests in between until something was stored, its deadline has come, or who asks is to be
/// looked after.
fn wait<G: Outside, R: Wait + rt::Clock, C: Clock, K: Sink>(
    rt: &R,
    alloc: Global,
    engine: &Engine<G>,
    pass: &mut EnginePass,
    waiting: SyncPoll,
    now: u64,
    clock: &mut C,
    output: &mut K,
) -> Outcome
    requires ties { Ties engine.now pass.old }
    requires polled { IsPolled waiting (lists_of (stores_of pass.old)) }
    requires last { C.last clock.old ≡ now }
    ensures done { IsWaitedBy engine.now (Reads (said_of waiting)) pass.old pass.new result.answered }
    ensures due { result.gone ≡ false → IsDue waiting result.answered.mark.now result.answered.said }
    ensures output { IsWatched result.gone (K.written output.old) (K.written output.new) (K.faults output.old) (K.faults output.new) }
    ensures last { C.last clock.new ≡ result.answered.mark.now }
    ensures read { ReadsOn (C.readings clock.old) (C.readings clock.new) now result.answered.mark.now }
{
    let mut waiting = waiting;
    match pass.flag(alloc) {
        Ok(flag) => {
            let mut kept = pass.tickets();
            let outcome = rest(
                rt,
                alloc,
                engine,
                pass,
                &mut waiting,
                &flag,
                &mut kept,
                clock,
                output,
            );
            pass.keep(kept);
            drop(flag);
            drop(waiting);
            outcome
        }
        Err(refused) => {
            drop(waiting);
            Outcome {
                answered: pass.no_memory(now, refused.into()),
                gone: false,
            }
        }
    }
}

/// The same with a flag, and the tickets by which it was parked last.
fn rest<G: Outside, R: Wait + rt::Clock, C: Clock, K: Sink>(
    rt: &R,
    alloc: Global,
    engine: &Engine<G>,
    pass: &mut EnginePass,
    waiting: &mut SyncPoll,
    flag: &Flag,
    kept: &mut Option<Tickets>,
    clock: &mut C,
    output: &mut K,
) -> Outcome
    requires ties { Ties engine.now pass.old }
    requires polled { IsPolled waiting.old (lists_of (stores_of pass.old)) }
    ensures done { IsWaitedBy engine.now (Reads (said_of waiting.old)) pass.old pass.new result.answered }
    ensures due { result.gone ≡ false → IsDue waiting.old result.answered.mark.now result.answered.said }
    ensures output { IsWatched result.gone (K.written output.old) (K.written output.new) (K.faults output.old) (K.faults output.new) }
    ensures last { C.last clock.new ≡ result.answered.mark.now }
    ensures read { (first : ℕ) → ReadsOn (C.readings clock.old) (C.readings clock.new) first result.answered.mark.now }
{
    'polls: for _ in rt.forever() {
        // Read before the flag is parked: a raise after it ends the rest.
        let raised = flag.raised();
        let now = clock.now();
        match poll(rt, alloc, engine, pass, waiting, now, flag, kept) {
            Polled::Done(answered) => {
                return Outcome {
                    answered,
                    gone: false,
                };
            }
            Polled::Pending(_) => {
                let left = waiting.deadline - now;
                engine
                    .waiters()
                    .rest(rt, flag, raised, left.min(LONGEST_REST));
                if output.is_gone() {
                    return Outcome {
                        answered: tell(rt, alloc, engine, pass, waiting, now),
                        gone: true,
                    };
                }
            }
        }
    }
    unreachable!()
}

/// The answer to a sync that waits, whether or not there is something to tell.
fn tell<G: Outside, R: Wait>(
    rt: &R,
    alloc: Global,
    engine: &Engine<G>,
    pass: &mut EnginePass,
    waiting: &SyncPoll,
    now: u64,
) -> Answered
    requires ties { Ties engine.now pass.old }
    ensures { IsDoneBy engine.now now (Reads (said_of waiting.now)) pass.old pass.new result }
{
    match engine.look(rt, alloc, pass) {
        Ok(()) => pass.sync_known(
            alloc,
            now,
            &waiting.user,
            Some(waiting.since),
            &waiting.filter,
            false,
            waiting.after,
        ),
        Err(refused) => pass.no_memory(now, refused),
    }
}

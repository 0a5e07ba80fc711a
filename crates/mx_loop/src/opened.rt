//! A request is answered, or is a sync that rests.
ghost use Rattle.std.specs.Prelude.{◌≡◌, ℕ, ◌≤◌};
ghost use Rattle.mx_fold.specs.Lists.{Grows, lists_of};
ghost use Rattle.mx_outside.specs.Readings.{most_reading};
ghost use Rattle.mx_poll.specs.OfEngine.Answers.{counts_of, reading};
ghost use Rattle.mx_poll.specs.OfEngine.Exchanges.{AtMost};
ghost use Rattle.mx_poll.specs.OfEngine.Shown.{Ties, site_of, stops_of, stores_of};
ghost use Rattle.mx_poll.specs.Polls.{IsPolled};
ghost use Rattle.mx_serve.specs.declared.call_asked.CallAsked.{CallAsked};
ghost use Rattle.mx_loop.specs.Seen.{Begins, Goes, IsRestOf, LooksToRest, WentBy};

use mx_ask::Request;
use mx_engine::Counts;
use mx_http::{Answer, Call};
use mx_ids::Memory;
use mx_poll::{EnginePass, Mark, Outside, Parked, SyncPoll, begin, look_after, poll};
use mx_serve::{Opened, Server, Told, rendered_for};
use mx_wait::{Flag, Tickets};
use std::alloc::Global;
use std::sync::Wait;

/// What wakes a loop: the waker that its resting syncs park at each stream, and the tickets by which it was parked last.
#[derive(Drop)]
pub struct Watch {
    pub flag: Flag,
    pub kept: Option<Tickets>,
}

/// What a request begins with: its answer, or a sync that rests, by the number of the device that asks.
#[derive(Drop)]
pub enum Begun {
    Done(Told),
    Rests(SyncPoll, u32),
}

/// What a sync that rests comes to: its answer, or that there is nothing to tell yet.
#[derive(Drop)]
pub enum Went {
    Done(Told),
    Waits(Parked),
}

/// Answers a call, or lets it rest where it is a sync that has nothing to tell. `seen` is what the session has seen at its last mark.
pub(crate) fn begin_call<G: Outside, R: Wait>(
    rt: &R,
    alloc: Global,
    server: &Server<G>,
    pass: &mut EnginePass,
    seen: Counts,
    call: &Call,
    now: u64,
) -> Begun
    requires ties { Ties server.now.engine pass.old }
    requires seen { AtMost seen (counts_of (stores_of pass.old)) }
    requires most { now ≤ most_reading }
    ensures ties { Ties server.now.engine pass.new }
    ensures begins { Begins (site_of server.now.engine) (stops_of server.now.engine) call.now now seen (stores_of pass.old) (stores_of pass.new) result }
{
    match server.open(alloc, call) {
        Opened::Answered(answer, memory) => Begun::Done(idle(pass, seen, answer, memory, now)),
        Opened::Asked(Request { who, ask }) => {
            match begin(rt, alloc, server.engine(), pass, &who, ask, now) {
                mx_poll::Begun::Done(answered) => {
                    Begun::Done(rendered_for(alloc, server.engine().users(), who.device, answered))
                }
                mx_poll::Begun::Poll(waiting) => Begun::Rests(waiting, who.device),
            }
        }
    }
}

/// An answer for which the engine isn't asked, on what the session has seen.
fn idle(pass: &EnginePass, seen: Counts, answer: Answer, memory: bool, now: u64) -> Told
    ensures answer { result.answer ≡ answer }
    ensures mark { result.mark ≡ record (reading now (stores_of pass.now)) { events = seen.events; receipts = seen.receipts; accounts = seen.accounts; memory = memory } }
{
    let mark = Mark {
        events: seen.events,
        receipts: seen.receipts,
        accounts: seen.accounts,
        memory,
        ..pass.mark(now)
    };
    Told { answer, mark }
}

/// Asks a sync that rests.
pub(crate) fn poll_on<G: Outside, R: Wait>(
    rt: &R,
    alloc: Global,
    server: &Server<G>,
    pass: &mut EnginePass,
    seen: Counts,
    waiting: &mut SyncPoll,
    device: u32,
    now: u64,
    watch: &mut Watch,
) -> Went
    requires ties { Ties server.now.engine pass.old }
    requires seen { AtMost seen (counts_of (stores_of pass.old)) }
    requires polled { IsPolled waiting.old (lists_of (stores_of pass.old)) }
    ensures ties { Ties server.now.engine pass.new }
    ensures same { waiting.new ≡ record waiting.old { empty_at = waiting.new.empty_at } }
    ensures looks { LooksToRest pass.old pass.new result }
    ensures went { WentBy now (stores_of pass.old) (stores_of pass.new) waiting.new result }
    ensures goes { (asks : CallAsked) (first : ℕ) → IsRestOf asks first waiting.old device → Goes (site_of server.now.engine) (stops_of server.now.engine) asks first now seen (stores_of pass.old) (stores_of pass.new) result }
{
    let Watch { flag, kept } = watch;
    match poll(rt, alloc, server.engine(), pass, waiting, now, flag, kept) {
        mx_poll::Polled::Done(answered) => {
            Went::Done(rendered_for(alloc, server.engine().users(), device, answered))
        }
        mx_poll::Polled::Pending(parked) => Went::Waits(parked),
    }
}

/// Sees what was stored, once the waker is parked at each stream. `Memory` where there is no room for it; it may not be parked then.
pub(crate) fn look_on<G: Outside, R: Wait>(
    rt: &R,
    alloc: Global,
    server: &Server<G>,
    pass: &mut EnginePass,
    watch: &mut Watch,
) -> Result<(), Memory>
    requires ties { Ties server.now.engine pass.old }
    ensures ties { Ties server.now.engine pass.new }
    ensures grows { Grows (stores_of pass.old) (stores_of pass.new) }
{
    let Watch { flag, kept } = watch;
    let tickets = server.engine().waiters().register(rt, flag, *kept)?;
    *kept = Some(tickets);
    look_after(rt, alloc, server.engine(), pass, tickets)?;
    Ok(())
}

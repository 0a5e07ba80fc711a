//! A sync that waits is asked whether there is something to tell.

ghost use Rattle.std.specs.Prelude.{◌≡◌, ◌&&◌, IfOk, OnOk, nat_lt};
ghost use Rattle.mx_engine.specs.Shown.{HasLooked, Ties, known_of, made_of, stores_of};
ghost use Rattle.mx_fold.specs.Lists.{Grows, fronts_of, lists_of};
ghost use Rattle.mx_poll.specs.Polls.{IsJudged, IsPolled, IsPolledBy};
ghost use Rattle.mx_poll.specs.Waits.{tells_nothing};
ghost use Rattle.mx_rest.specs.Servers.{AreValid};
ghost use Rattle.mx_engine.specs.Still.Concerns.{is_still};

use crate::states::{Parked, Polled, Seen, SyncPoll};
use crate::telling::tells_nothing;
use mx_ask::Said;
use mx_engine::{Engine, EnginePass, Outside};
use mx_ids::Memory;
use mx_wait::{Flag, Tickets};
use std::alloc::Global;
use std::sync::Wait;

/// A look at each stream after wakers were parked there. The pass is one of the engine's. Waits for turns at the streams.
pub fn look_after<G: Outside, R: Wait>(
    rt: &R,
    alloc: Global,
    engine: &Engine<G>,
    pass: &mut EnginePass,
    tickets: Tickets,
) -> Result<Seen, Memory>
    requires ties { Ties engine.now pass.old }
    ensures ties { Ties engine.now pass.new }
    ensures begins { Grows (stores_of pass.old) (stores_of pass.new) }
    ensures made { made_of pass.new ≡ made_of pass.old }
    ensures looks { HasLooked pass.old pass.new }
    ensures known { OnOk result (known_of pass.new ≡ lists_of (stores_of pass.new)) }
    ensures valid { OnOk result (AreValid (known_of pass.new)) }
    ensures seen { IfOk result (λ s. s ≡ record { at = fronts_of (lists_of (stores_of pass.new)); tickets = tickets; made = tt }) }
{
    engine.look(rt, alloc, pass)?;
    Ok(Seen {
        at: pass.fronts(),
        tickets,
        made: (),
    })
}

/// Asks a sync that waits: its answer, where it has something to tell or the reading `now` has come to its deadline; else it has nothing to tell at the
/// fronts seen, and twins of the flag were parked at each stream before these were read. `kept` has the tickets of an earlier call with
/// this flag, and then those of this one. Where nothing came that concerns the user, that costs time in what came alone. The pass is one of the engine's, and has seen what
/// the sync was seen on. Waits for turns at the streams.
pub fn poll<G: Outside, R: Wait>(
    rt: &R,
    alloc: Global,
    engine: &Engine<G>,
    pass: &mut EnginePass,
    poll: &mut SyncPoll,
    now: u64,
    flag: &Flag,
    kept: &mut Option<Tickets>,
) -> Polled
    requires ties { Ties engine.now pass.old }
    requires polled { IsPolled poll.old (lists_of (stores_of pass.old)) }
    ensures same { poll.new ≡ record poll.old { empty_at = poll.new.empty_at } }
    ensures polled { IsPolledBy engine.now poll.new now pass.old pass.new result }
{
    match engine.waiters().register(rt, flag, *kept) {
        Ok(tickets) => {
            *kept = Some(tickets);
            match look_after(rt, alloc, engine, pass, tickets) {
                Ok(seen) => judge(alloc, pass, poll, now, seen),
                Err(refused) => Polled::Done(pass.no_memory(now, refused)),
            }
        }
        Err(refused) => {
            let _ = engine.look(rt, alloc, pass);
            Polled::Done(pass.no_memory(now, refused))
        }
    }
}

/// The same after the look.
fn judge(alloc: Global, pass: &mut EnginePass, poll: &mut SyncPoll, now: u64, seen: Seen) -> Polled
    requires known { known_of pass.old ≡ lists_of (stores_of pass.old) }
    requires valid { AreValid (known_of pass.old) }
    requires polled { IsPolled poll.old (lists_of (stores_of pass.old)) }
    requires seen { seen.at ≡ fronts_of (lists_of (stores_of pass.old)) }
    ensures pass { pass.new ≡ pass.old }
    ensures same { poll.new ≡ record poll.old { empty_at = poll.new.empty_at } }
    ensures judged { IsJudged poll.new now seen pass.old result }
{
    if is_still(pass, poll, now) {
        poll.empty_at = seen.at;
        return Polled::Pending(Parked { seen, now });
    }
    let answered = pass.sync_known(
        alloc,
        now,
        &poll.user,
        Some(poll.since),
        &poll.filter,
        false,
        poll.after,
    );
    if is_pending(now, poll.deadline, &answered.said) {
        drop(answered);
        poll.empty_at = seen.at;
        Polled::Pending(Parked { seen, now })
    } else {
        Polled::Done(answered)
    }
}

/// Whether there is nothing to tell, and the deadline hasn't come.
fn is_pending(now: u64, deadline: u64, said: &Said) -> bool
    ensures { result ≡ (nat_lt now deadline && tells_nothing said.now) }
{
    now < deadline && tells_nothing(said)
}

/// Whether the deadline hasn't come, and nothing came that concerns the user.
fn is_still(pass: &EnginePass, poll: &SyncPoll, now: u64) -> bool
    ensures { result ≡ (nat_lt now poll.now.deadline && is_still poll.now.user (known_of pass.now) poll.now.empty_at) }
{
    now < poll.deadline && pass.is_still(&poll.user, &poll.empty_at)
}

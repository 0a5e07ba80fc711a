//! Look-ups in a snapshot.

use crate::history::{events, room};
use crate::others::{accounts, receipts};
use crate::unmeasured::Unmeasured;
use crate::words::Look;
use mx_event::event_types::TOPIC;
use mx_ids::Memory;
use mx_lanes::Parts;
use mx_outside::Clock;
use mx_snapshot::Snapshot;
use mx_state::state_at;
use std::alloc::Global;

/// How far behind the front a look-up begins.
const BEHIND: u64 = 100;

/// The user whose rooms and account data are looked up.
const USER: &str = "@u3:b";

/// The milliseconds that so many look-ups take in streams of so many items. `Other` where they find nothing.
pub fn measure_looks<C: Clock>(
    alloc: Global,
    clock: &mut C,
    look: Look,
    items: u64,
    repeats: u32,
) -> Result<u64, Unmeasured> {
    let known = known(alloc, items)?;
    let start = clock.now();
    let found = look_up_all(alloc, &known, look, repeats)?;
    let took = clock.now().saturating_sub(start);
    if found == 0 {
        Err(Unmeasured::Other)
    } else {
        Ok(took)
    }
}

/// A snapshot of so many events, receipts and entries of account data.
fn known(alloc: Global, items: u64) -> Result<Snapshot, Unmeasured> {
    let events = events(alloc, items)?;
    let receipts = receipts(alloc, items)?;
    let accounts = accounts(alloc, items)?;
    let events = Parts::of(alloc, &events, items)?;
    let receipts = Parts::of(alloc, &receipts, items)?;
    let accounts = Parts::of(alloc, &accounts, items)?;
    let mut known = Snapshot::new(alloc);
    known.events.advance(alloc, events)?;
    known.receipts.advance(alloc, receipts)?;
    known.accounts.advance(alloc, accounts)?;
    Ok(known)
}

/// How much all look-ups find.
fn look_up_all(alloc: Global, known: &Snapshot, look: Look, repeats: u32) -> Result<u64, Memory> {
    let mut found = 0u64;
    'repeats: for number in 0..repeats {
        let one = look_up(alloc, known, look, u64::from(number))?;
        found = found.saturating_add(one);
    }
    Ok(found)
}

/// How much one look-up finds, by its number.
fn look_up(alloc: Global, known: &Snapshot, look: Look, number: u64) -> Result<u64, Memory> {
    let Snapshot {
        events,
        receipts,
        accounts,
    } = known;
    let front = events.front();
    let low = front.saturating_sub(BEHIND);
    let position = low.saturating_add(number % BEHIND);
    let count = match look {
        Look::Room => events.of_room(alloc, &room(number), low, front)?.len(),
        Look::Rooms => events.rooms_of(alloc, USER)?.len(),
        Look::Redaction => usize::from(events.first_redaction(position, front).is_some()),
        Look::Version => usize::from(events.last_of(&room(0), TOPIC, "", position).is_some()),
        Look::State => state_at(alloc, events, &room(1), position)?.len(),
        Look::States => state_at(alloc, events, &room(0), position)?.len(),
        Look::Account => accounts.of_user(alloc, USER, low, front)?.len(),
        Look::Data => accounts.standing(alloc, USER, Some(&room(number)))?.len(),
        Look::Receipts => receipts.of_room(alloc, &room(number), low, front)?.len(),
    };
    Ok(count as u64)
}

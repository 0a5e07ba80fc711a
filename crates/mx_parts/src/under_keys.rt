//! The events of a room's state under some keys.

ghost use Rattle.std.specs.Prelude.{◌≡◌, List, ℕ, filter, map, IfOk, OnOk};
ghost use Rattle.mx_event.specs.Lawful.{of_room};
ghost use Rattle.mx_folding.specs.Parts.{state_list};
ghost use Rattle.mx_view.specs.Rooms.{Sieve, room_of};
ghost use Rattle.mx_snapshot.specs.Looks.{all_now};
ghost use Rattle.mx_parts.specs.Under.{all_found, all_standing, event_in, is_under, put_standing};

use mx_event::Event;
use mx_ids::{Memory, RoomId};
use mx_snapshot::Events;
use std::alloc::Global;
use std::collections::BTreeMap;

/// The type and the state key of a state event.
#[derive(Clone, Copy, Debug)]
pub struct StateKey<'a> {
    pub kind: &'a str,
    pub key: &'a str,
}

/// The events of a room's state at a position under some keys, in order of position. Takes the time of a search for each
/// key, and memory for as many events.
pub fn standing_under<'a>(
    alloc: Global,
    events: &'a Events,
    room: &RoomId,
    keys: &[StateKey<'_>],
    position: u64,
) -> Result<Vec<&'a Event>, Memory>
    ensures { IfOk result (λ made. (f : Sieve) (user : List ℕ) → all_now made.items ≡ filter (is_under keys.now) (state_list (room_of f user (of_room room.now events.now)) (of_room room.now events.now) position)) }
{
    let _front = events.front();
    let found = found_under(alloc, events, room, keys, position)?;
    let made = in_order(alloc, &found)?;
    Ok(made)
}

/// The events that stand under the keys, by position.
fn found_under<'a>(
    alloc: Global,
    events: &'a Events,
    room: &RoomId,
    keys: &[StateKey<'_>],
    position: u64,
) -> Result<BTreeMap<u64, &'a Event>, Memory>
    ensures { IfOk result (λ found. all_found found ≡ all_standing (of_room room.now events.now) position keys.now) }
{
    let mut found = BTreeMap::new(alloc);
    'keys: for key in keys {
        put_found(&mut found, events, room, *key, position)?;
    }
    Ok(found)
}

fn put_found<'a>(
    found: &mut BTreeMap<u64, &'a Event>,
    events: &'a Events,
    room: &RoomId,
    key: StateKey<'_>,
    position: u64,
) -> Result<(), Memory>
    ensures { OnOk result (all_found found.new ≡ put_standing (of_room room.now events.now) position (all_found found.old) key.entry) }
{
    if let Some(event) = events.last_of(room, key.kind, key.key, position) {
        found.insert(event.id.at, event)?;
    }
    Ok(())
}

fn in_order<'a>(alloc: Global, found: &BTreeMap<u64, &'a Event>) -> Result<Vec<&'a Event>, Memory>
    ensures { IfOk result (λ made. all_now made.items ≡ map event_in (all_found found.now)) }
{
    let mut made = Vec::with_capacity(alloc, found.len())?;
    'found: for entry in found {
        made.push(*entry.1)?;
    }
    Ok(made)
}

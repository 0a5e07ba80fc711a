//! The state of a room, by the events that a snapshot has.

ghost use Rattle.std.specs.Prelude.{◌≡◌, List, ℕ, [], ◌∷◌, ◌++◌, filter, nat_lt, IfOk, OnOk, ◌≤◌, ◌*◌, ◌+◌, ◌-◌, ◌^◌, length};
ghost use Rattle.std.specs.Option.{option_copied};
ghost use Rattle.mx_window.specs.Windows.{between};
ghost use Rattle.mx_event.specs.Lawful.{of_room};
ghost use Rattle.mx_event.specs.Shown.{position_of};
ghost use Rattle.mx_event.specs.State.{standing};
ghost use Rattle.mx_event.specs.declared.event.Event.{Event};
ghost use Rattle.mx_folding.specs.Parts.{state_list};
ghost use Rattle.mx_view.specs.Rooms.{Sieve, room_of};
ghost use Rattle.mx_snapshot.specs.Events.{later, versions};
ghost use Rattle.mx_snapshot.specs.Halving.{search_cost};
ghost use Rattle.mx_snapshot.specs.Looks.{all_now};
ghost use Rattle.mx_state.specs.Standing.{is_at, stands, standing_in};

use mx_event::Event;
use mx_ids::{Memory, RoomId};
use mx_snapshot::{Events, Steps};
use std::alloc::Global;

/// The state event that stands under a type and a state key at a position, which may be any: the last one up to it. Takes
/// no memory, and the time of a search among the versions of the key. Counts the comparisons of positions: one, and at most two
/// for each binary digit of the number of versions that lie later.
pub fn state_event<'a>(
    events: &'a Events,
    room: &RoomId,
    kind: &str,
    key: &str,
    position: u64,
    steps: &mut Steps,
) -> Option<&'a Event>
    ensures more { steps.old ≤ steps.new }
    ensures cost { 2 ^ (steps.new - steps.old) ≤ search_cost (length (later position (versions room.now kind.now key.now events.now))) }
    ensures found { option_copied result ≡ standing kind.now key.now (between position_of 0 position (of_room room.now events.now)) }
{
    events.last_of_counted(room, kind, key, position, steps)
}

/// The state of a room at a position, in order of position. Takes the time of a search for each type and state key that the
/// room has a state event of, and of sorting what is found; memory for as many.
pub fn state_at<'a>(
    alloc: Global,
    events: &'a Events,
    room: &RoomId,
    position: u64,
) -> Result<Vec<&'a Event>, Memory>
    ensures { IfOk result (λ made. (f : Sieve) (user : List ℕ) → all_now made.items ≡ state_list (room_of f user (of_room room.now events.now)) (of_room room.now events.now) position) }
{
    let _front = events.front();
    let made = events.standing(alloc, room, position)?;
    Ok(made)
}

/// The events of the state at `to` that lie after `from`, in order of position. Takes the time of a search for each state
/// event of the room between the two positions, and memory for as many: linear in those, and not in the state.
pub fn difference<'a>(
    alloc: Global,
    events: &'a Events,
    room: &RoomId,
    from: u64,
    to: u64,
) -> Result<Vec<&'a Event>, Memory>
    ensures { IfOk result (λ made. (f : Sieve) (user : List ℕ) → all_now made.items ≡ filter (λ (e : Event). nat_lt from e.id.at) (state_list (room_of f user (of_room room.now events.now)) (of_room room.now events.now) to)) }
{
    let _front = events.front();
    let made = standing_after(alloc, events, room, from, to)?;
    Ok(made)
}

fn standing_after<'a>(
    alloc: Global,
    events: &'a Events,
    room: &RoomId,
    from: u64,
    to: u64,
) -> Result<Vec<&'a Event>, Memory>
    ensures { IfOk result (λ made. all_now made.items ≡ standing_in room.now from to events.now) }
{
    let states = events.states(alloc, room, from, to)?;
    let mut made = Vec::new(alloc);
    'states: for event in &states {
        keep(&mut made, events, room, *event, to)?;
    }
    Ok(made)
}

fn keep<'a>(
    made: &mut Vec<&'a Event>,
    events: &Events,
    room: &RoomId,
    event: &'a Event,
    to: u64,
) -> Result<(), Memory>
    ensures { OnOk result (all_now made.new.items ≡ all_now made.old.items ++ filter (stands (of_room room.now events.now) to) (event.now ∷ [])) }
{
    if is_standing(events, room, event, to) {
        made.push(event)?;
    }
    Ok(())
}

/// Whether an event of a room is in its state at a position: a state event that is the last of its key up to it. Takes no
/// memory, and the time of a search among the versions of the key.
pub fn is_standing(events: &Events, room: &RoomId, event: &Event, to: u64) -> bool
    ensures { result ≡ stands (of_room room.now events.now) to event.now }
{
    match &event.state_key {
        Some(key) => is_last(events, room, event, key.as_str(), to),
        None => false,
    }
}

fn is_last(events: &Events, room: &RoomId, event: &Event, key: &str, to: u64) -> bool
    ensures { result ≡ is_at event.now.id.at (standing event.now.kind key.now (between position_of 0 to (of_room room.now events.now))) }
{
    match events.last_of(room, event.kind.as_str(), key, to) {
        Some(last) => last.id.at == event.id.at,
        None => false,
    }
}

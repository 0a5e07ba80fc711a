//! The rooms of a writer, and the states in which they are.
ghost use Rattle.std.specs.Prelude.{◌≡◌, ◌<◌, ◌+◌, ◌^◌, [], ◌∷◌, ◌++◌, length, map, slice_index_or, slice_set, Some, None, MatchOption, OnOk};
ghost use Rattle.mx_core.specs.History.{placed_from};
ghost use Rattle.mx_event.specs.Lawful.{placed_event};
ghost use Rattle.mx_room.specs.declared.rooms.Room.{Room};
ghost use Rattle.mx_room.specs.Held.{after_block, bare, state_at, Rises};

use crate::ledger::Ledger;
use mx_auth::AuthState;
use mx_event::Event;
use mx_ids::Memory;

/// A room: the position at which it was created, and its state.
#[derive(Drop)]
pub(crate) struct Room {
    pub(crate) at: u64,
    pub(crate) state: AuthState,
}

/// The index of the room that was created at a position. Logarithmic in the number of rooms.
pub(crate) fn index_of(rooms: &[Room], at: u64) -> Option<usize>
    requires { Rises (map bare rooms.now) }
    ensures { MatchOption result (state_at at rooms.now ≡ None) (λ i. (i < length rooms.now) × ((d : Room) → (slice_index_or rooms.now i d).at ≡ at) × ((d : Room) → state_at at rooms.now ≡ Some (slice_index_or rooms.now i d).state)) }
{
    let index = rooms.partition_point(|room| room.at < at);
    if index < rooms.len() && rooms[index].at == at {
        Some(index)
    } else {
        None
    }
}

/// Readies events in a state, and notes them as pending.
pub(crate) fn make_all_ready(
    state: &mut AuthState,
    ledger: &mut Ledger,
    events: &[Event],
) -> Result<(), Memory>
    ensures state { OnOk result (state.new ≡ record state.old { ready = state.old.ready ++ events.now }) }
    ensures pending { OnOk result (ledger.new.rooms ≡ record ledger.old.rooms { pending = ledger.old.rooms.pending ++ events.now }) }
{
    'events: for event in events {
        state.make_ready(event)?;
        *ledger = Ledger::with(ledger, event);
    }
    Ok(())
}

/// Takes in the events that are ready in a state, as they stand from a position on. Takes no memory.
pub(crate) fn take_all(state: &mut AuthState, events: &[Event], first: u64)
    requires ready { state.old.ready ≡ events.now }
    requires last { first + length events.now < 2 ^ 48 + 1 }
    ensures { state.new ≡ record { events = state.old.events ++ placed_from placed_event first first events.now; ready = [] } }
{
    let mut at = first;
    'events: for event in events {
        state.take_ready(event, first, at);
        at += 1;
    }
}

/// Readies one event alone in a room. `Memory` leaves the events of each room.
pub(crate) fn make_one_ready(rooms: &mut [Room], index: usize, event: &Event) -> Result<(), Memory>
    requires { index < length rooms.old }
    ensures ready { OnOk result ((d : Room) → (slice_index_or rooms.new index d).state.ready ≡ event.now ∷ []) }
    ensures same { map bare rooms.new ≡ map bare rooms.old }
{
    let room = &mut rooms[index];
    room.state.drop_ready();
    room.state.make_ready(event)
}

/// Takes in the events that are ready in a room, as they stand from a position on. Takes no memory.
pub(crate) fn take_all_in(rooms: &mut [Room], index: usize, events: &[Event], first: u64)
    requires index { index < length rooms.old }
    requires ready { (d : Room) → (slice_index_or rooms.old index d).state.ready ≡ events.now }
    requires last { first + length events.now < 2 ^ 48 + 1 }
    ensures { (d : Room) → rooms.new ≡ slice_set rooms.old index (after_block first events.now (slice_index_or rooms.old index d)) }
{
    let room = &mut rooms[index];
    take_all(&mut room.state, events, first);
}

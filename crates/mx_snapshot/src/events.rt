//! The events of a stream up to its front.

ghost use Rattle.std.specs.Prelude.{◌*◌, ◌-◌, ◌^◌, ◌≡◌, ◌≤◌, ◌<◌, ◌+◌, [], option_map, is_some, ◌++◌, true, filter, length, map, take, nat_le, IfOk, OnErr, OnOk};
ghost use Rattle.std.specs.Option.{option_copied, option_to_list};
ghost use Rattle.mx_event.specs.Core.History.{Begins};
ghost use Rattle.mx_window.specs.Lasts.{keep_if, last, last_of};
ghost use Rattle.mx_window.specs.Windows.{between, stand_from};
ghost use Rattle.mx_event.specs.Kinds.{has_key, is_of};
ghost use Rattle.mx_event.specs.Lawful.{of_room, same_room};
ghost use Rattle.mx_event.specs.Shown.{position_of};
ghost use Rattle.mx_snapshot.specs.Indexed.{IsIndexed};
ghost use Rattle.mx_snapshot.specs.Events.{first_redaction, is_member, later, members, rooms_of, states, versions};
ghost use Rattle.mx_snapshot.specs.Halving.{search_cost};
ghost use Rattle.mx_snapshot.specs.Standing.{standing_in};
ghost use Rattle.mx_snapshot.specs.Looks.{all_now, at_position, last_position, own_looked, own_now, with_room};

use crate::event_index::EventIndex;
use crate::gather::gather;
use crate::last_versions::{last_keys, last_versions};
use crate::looks::{number_at, room_positions, type_keys, version_positions};
use crate::positions::{ending, last_one, last_to, within};
use crate::steps::Steps;
use mx_event::Event;
use mx_ids::{Memory, RoomId};
use mx_receipt::Parts;
use std::alloc::Global;
use std::collections::BTreeMap;
use std::marker::Model;

/// The events of a stream up to its front, with indices beside them. Contracts see it as the list of its events.
#[derive(Drop)]
pub struct Events {
    events: Parts<Event>,
    index: EventIndex,
}

impl Model for Events {
    ghost use Rattle.std.specs.Prelude.{◌≡◌, List, true};
    ghost use Rattle.mx_window.specs.Windows.{stand_from};
    ghost use Rattle.mx_event.specs.Shown.{position_of};
    ghost use Rattle.std.specs.Coded.{coded_list};
    ghost use Rattle.mx_event.specs.contracts.event.Event.{the_row as event_row};
    ghost use Rattle.mx_event.specs.declared.event.Event.{Event};
    ghost use Rattle.mx_snapshot.specs.Indexed.{IsIndexed};

    ghost Value = { List Event };

    ghost coded = { coded_list event_row.coded };

    ghost view = { λ s. s.events.items };

    ghost invariant = { λ s. (stand_from position_of 1 s.events.items ≡ true) × IsIndexed s.index s.events.items };
}

impl Events {
    /// No events. Takes no memory.
    pub(crate) fn new(alloc: Global) -> Events
        ensures { result ≡ [] }
    {
        Events {
            events: Parts::none(alloc),
            index: EventIndex::new(alloc),
        }
    }

    /// Goes on to a later front: the list begins with what is known, and each event stands at its own position. Only the events after the
    /// old front are looked at. `Memory` leaves no event, and the next call takes in all.
    pub fn advance(&mut self, alloc: Global, events: Parts<Event>) -> Result<(), Memory>
        requires begins { Begins self.old events.items }
        requires placed { stand_from position_of 1 events.items ≡ true }
        ensures ok { OnOk result (self.new ≡ events.items) }
        ensures err { OnErr result (self.new ≡ []) }
    {
        let front = self.events.front();
        let grown = index_after(alloc, &mut self.index, &events, front);
        if grown.is_ok() {
            self.events = events;
        } else {
            drop(events);
            self.events = Parts::none(alloc);
            self.index = EventIndex::new(alloc);
        }
        grown
    }

    /// The front: the number of events, each of which stands at its own position. Takes no memory.
    pub fn front(&self) -> u64
        ensures count { result ≡ length self.now }
        ensures placed { stand_from position_of 1 self.now ≡ true }
    {
        self.events.front()
    }

    /// The event at a position. Takes no memory.
    pub fn at(&self, position: u64) -> Option<&Event>
        ensures { option_copied result ≡ at_position self.now position }
    {
        self.events.at(position)
    }

    /// The events of a room at the positions after `low` and up to `high`, in their order. Takes the time of two searches
    /// among the room's events, and of those that it gives.
    pub fn of_room(
        &self,
        alloc: Global,
        room: &RoomId,
        low: u64,
        high: u64,
    ) -> Result<Vec<&Event>, Memory>
        ensures { IfOk result (λ made. all_now made.items ≡ between position_of low high (of_room room.now self.now)) }
    {
        let positions = room_positions(&self.index.rooms, room);
        gather(alloc, &self.events, within(positions, low, high))
    }

    /// The last events of a room up to `high`, at most `most` of them, in their order. Takes the time of a search among the
    /// room's events, and of those that it gives.
    pub fn ending(
        &self,
        alloc: Global,
        room: &RoomId,
        high: u64,
        most: u64,
    ) -> Result<Vec<&Event>, Memory>
        ensures { IfOk result (λ made. all_now made.items ≡ last most (between position_of 0 high (of_room room.now self.now))) }
    {
        let positions = room_positions(&self.index.rooms, room);
        gather(alloc, &self.events, ending(positions, high, most))
    }

    /// The last event of a room up to a position. Takes the time of a search among the room's events, and no memory.
    pub fn last_to(&self, room: &RoomId, high: u64) -> Option<&Event>
        ensures { option_copied result ≡ last_of (λ e. true) (between position_of 0 high (of_room room.now self.now)) }
    {
        let positions = room_positions(&self.index.rooms, room);
        let mut steps = Steps::new();
        let position = last_to(positions, high, &mut steps)?;
        self.events.at(position)
    }

    /// The position of a room's last event, or 0 where it has none. Takes the time of a look-up, and no memory.
    pub fn last_in(&self, room: &RoomId) -> u64
        ensures { result ≡ last_position position_of (λ e. same_room e.room room.now) self.now }
    {
        last_one(room_positions(&self.index.rooms, room))
    }

    /// The member events of a room at the positions after `low` and up to `high`, in their order. Takes the time of two
    /// searches among the room's member events, and of those that it gives.
    pub fn members(
        &self,
        alloc: Global,
        room: &RoomId,
        low: u64,
        high: u64,
    ) -> Result<Vec<&Event>, Memory>
        ensures { IfOk result (λ made. all_now made.items ≡ between position_of low high (members room.now self.now)) }
    {
        let positions = room_positions(&self.index.members, room);
        gather(alloc, &self.events, within(positions, low, high))
    }

    /// The position of a room's last member event, or 0 where it has none. Takes the time of a look-up, and no memory.
    pub fn last_member(&self, room: &RoomId) -> u64
        ensures { result ≡ last_position position_of (is_member room.now) self.now }
    {
        last_one(room_positions(&self.index.members, room))
    }

    /// The state events of a room at the positions after `low` and up to `high`, in their order. Takes the time of two
    /// searches among the room's state events, and of those that it gives.
    pub fn states(
        &self,
        alloc: Global,
        room: &RoomId,
        low: u64,
        high: u64,
    ) -> Result<Vec<&Event>, Memory>
        ensures { IfOk result (λ made. all_now made.items ≡ between position_of low high (states room.now self.now)) }
    {
        let positions = room_positions(&self.index.states, room);
        gather(alloc, &self.events, within(positions, low, high))
    }

    /// The last state event of a room up to a position. Takes the time of a search among the room's state events, and no
    /// memory.
    pub fn last_state(&self, room: &RoomId, high: u64) -> Option<&Event>
        ensures { option_copied result ≡ last_of (λ e. is_some e.state_key) (between position_of 0 high (of_room room.now self.now)) }
    {
        let positions = room_positions(&self.index.states, room);
        let mut steps = Steps::new();
        let position = last_to(positions, high, &mut steps)?;
        self.events.at(position)
    }

    /// The state events of a room that are the last of their type and key up to a position, in their order: the room's state
    /// there. Takes the time of a search for each type and key that the room has a state event of, and of sorting what is
    /// found; memory for as many positions and references.
    pub fn standing(
        &self,
        alloc: Global,
        room: &RoomId,
        position: u64,
    ) -> Result<Vec<&Event>, Memory>
        ensures { IfOk result (λ made. all_now made.items ≡ standing_in room.now 0 position self.now) }
    {
        match self.index.versions.get(room) {
            Some(kinds) => {
                let positions = last_versions(alloc, kinds, position)?;
                gather(alloc, &self.events, positions.as_slice())
            }
            None => Ok(Vec::new(alloc)),
        }
    }

    /// Those of the room's state at a position that are of a type, in their order. Takes the time of a search for each key that
    /// the room has a state event of this type with, and of sorting what is found; memory for as many positions and
    /// references.
    pub fn standing_of(
        &self,
        alloc: Global,
        room: &RoomId,
        kind: &str,
        position: u64,
    ) -> Result<Vec<&Event>, Memory>
        ensures { IfOk result (λ made. all_now made.items ≡ filter (is_of kind.now) (standing_in room.now 0 position self.now)) }
    {
        match type_keys(&self.index.versions, room, kind) {
            Some(keys) => {
                let positions = last_keys(alloc, keys, position)?;
                gather(alloc, &self.events, positions.as_slice())
            }
            None => Ok(Vec::new(alloc)),
        }
    }

    /// The state events of a room with a type and a key, at the positions after `low` and up to `high`, in their order.
    /// Takes the time of two searches among them, and of those that it gives.
    pub fn versions(
        &self,
        alloc: Global,
        room: &RoomId,
        kind: &str,
        key: &str,
        low: u64,
        high: u64,
    ) -> Result<Vec<&Event>, Memory>
        ensures { IfOk result (λ made. all_now made.items ≡ between position_of low high (versions room.now kind.now key.now self.now)) }
    {
        let positions = version_positions(&self.index.versions, room, kind, key);
        gather(alloc, &self.events, within(positions, low, high))
    }

    /// The last state event of a room with a type and a key up to a position. Takes the time of a search among its versions,
    /// and no memory.
    pub fn last_of(&self, room: &RoomId, kind: &str, key: &str, last: u64) -> Option<&Event>
        ensures { option_copied result ≡ last_of (has_key kind.now key.now) (between position_of 0 last (of_room room.now self.now)) }
    {
        let mut steps = Steps::new();
        self.last_of_counted(room, kind, key, last, &mut steps)
    }

    /// The same, with the comparisons of positions counted: one, and at most two for each binary digit of the number of versions
    /// that lie later.
    pub fn last_of_counted(
        &self,
        room: &RoomId,
        kind: &str,
        key: &str,
        last: u64,
        steps: &mut Steps,
    ) -> Option<&Event>
        ensures found { option_copied result ≡ last_of (has_key kind.now key.now) (between position_of 0 last (of_room room.now self.now)) }
        ensures more { steps.old ≤ steps.new }
        ensures cost { 2 ^ (steps.new - steps.old) ≤ search_cost (length (later last (versions room.now kind.now key.now self.now))) }
    {
        let positions = version_positions(&self.index.versions, room, kind, key);
        let position = last_to(positions, last, steps)?;
        self.events.at(position)
    }

    /// The first event up to `last` that redacts the event at a position. Takes constant time, and no memory.
    pub fn first_redaction(&self, position: u64, last: u64) -> Option<&Event>
        ensures { option_copied result ≡ keep_if (λ e. nat_le e.id.at last) (first_redaction self.now position) }
    {
        let by = number_at(self.index.firsts.as_slice(), position);
        if by <= last { self.events.at(by) } else { None }
    }

    /// The rooms in which a user has a member event, in order, each with the last one. Takes the time of a look-up, and of
    /// the rooms.
    pub fn rooms_of(&self, alloc: Global, user: &str) -> Result<Vec<(RoomId, &Event)>, Memory>
        ensures { IfOk result (λ made. map own_now made.items ≡ rooms_of user.now self.now) }
    {
        match self.index.own.get(user) {
            Some(rooms) => gather_rooms(alloc, &self.events, rooms),
            None => Ok(Vec::new(alloc)),
        }
    }
}

fn index_after(
    alloc: Global,
    index: &mut EventIndex,
    events: &Parts<Event>,
    from: u64,
) -> Result<(), Memory>
    requires placed { stand_from position_of 1 events.now.items ≡ true }
    requires within { from ≤ length events.now.items }
    requires indexed { IsIndexed index.old (take from events.now.items) }
    ensures { OnOk result (IsIndexed index.new events.now.items) }
{
    'events: for position in from..events.front() {
        take_next(alloc, index, events, position)?;
    }
    Ok(())
}

fn take_next(
    alloc: Global,
    index: &mut EventIndex,
    events: &Parts<Event>,
    passed: u64,
) -> Result<(), Memory>
    requires placed { stand_from position_of 1 events.now.items ≡ true }
    requires within { passed < length events.now.items }
    requires indexed { IsIndexed index.old (take passed events.now.items) }
    ensures { OnOk result (IsIndexed index.new (take (passed + 1) events.now.items)) }
{
    let _front = events.front();
    match events.at(passed + 1) {
        Some(event) => index.take_in(alloc, event),
        None => Ok(()),
    }
}

fn gather_rooms<'a>(
    alloc: Global,
    events: &'a Parts<Event>,
    rooms: &BTreeMap<RoomId, u64>,
) -> Result<Vec<(RoomId, &'a Event)>, Memory>
    ensures { IfOk result (λ made. map own_now made.items ≡ own_looked events.now.items rooms.now.entries) }
{
    let mut made = Vec::with_capacity(alloc, rooms.len())?;
    'rooms: for entry in rooms {
        push_room(&mut made, events, *entry.0, *entry.1)?;
    }
    Ok(made)
}

fn push_room<'a>(
    made: &mut Vec<(RoomId, &'a Event)>,
    events: &'a Parts<Event>,
    room: RoomId,
    position: u64,
) -> Result<(), Memory>
    ensures { OnOk result (map own_now made.new.items ≡ map own_now made.old.items ++ option_to_list (option_map (with_room room) (at_position events.now.items position))) }
{
    if let Some(event) = events.at(position) {
        made.push((room, event))?;
    }
    Ok(())
}

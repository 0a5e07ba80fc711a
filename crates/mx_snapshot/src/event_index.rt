//! Where to find what among the events of a stream.

ghost use Rattle.std.specs.Prelude.{◌≡◌, ◌==◌, ◌≤◌, ◌<◌, ◌+◌, ◌++◌, [], ◌∷◌, List, ℕ, OnOk, IsSome, length, slice_index_or, if◌then◌else◌};
ghost use Rattle.std.specs.BTreeMap.{get_by_text, insert_entry};
ghost use Rattle.std.specs.Option.{option_copied};
ghost use Rattle.std.specs.Str.{bytes_eq};
ghost use Rattle.mx_ids.specs.declared.room_id.RoomId.{RoomId};
ghost use Rattle.mx_event.specs.Lawful.{same_room};
ghost use Rattle.mx_event.specs.Kinds.{has_key, member_type};
ghost use Rattle.mx_event.specs.declared.event.Event.{Event};
ghost use Rattle.mx_snapshot.specs.Events as looked;
ghost use Rattle.mx_snapshot.specs.Lists as lists;
ghost use Rattle.mx_snapshot.specs.Indexed.{IsIndexed};

use crate::lists::{Kinds, add_to_room, add_version};
use crate::named::target;
use mx_event::Event;
use mx_event::event_types::MEMBER;
use mx_ids::{Memory, RoomId, Text};
use std::alloc::Global;
use std::collections::BTreeMap;

/// Where to find what among events.
#[derive(Drop)]
pub(crate) struct EventIndex {
    /// The positions of each room's events.
    pub(crate) rooms: BTreeMap<RoomId, Vec<u64>>,
    /// The positions of each room's member events.
    pub(crate) members: BTreeMap<RoomId, Vec<u64>>,
    /// The positions of each room's state events.
    pub(crate) states: BTreeMap<RoomId, Vec<u64>>,
    /// The positions of the state events of each room, type and key.
    pub(crate) versions: BTreeMap<RoomId, Kinds>,
    /// For each user the rooms in which it has a member event, each with the position of the last one.
    pub(crate) own: BTreeMap<String, BTreeMap<RoomId, u64>>,
    /// By position, that of the first redaction that names the event there, or 0.
    pub(crate) firsts: Vec<u64>,
}

impl EventIndex {
    /// The index of no events. Takes no memory.
    pub(crate) fn new(alloc: Global) -> EventIndex
        ensures { IsIndexed result [] }
    {
        EventIndex {
            rooms: BTreeMap::new(alloc),
            members: BTreeMap::new(alloc),
            states: BTreeMap::new(alloc),
            versions: BTreeMap::new(alloc),
            own: BTreeMap::new(alloc),
            firsts: Vec::new(alloc),
        }
    }

    /// Takes in the event after those that are indexed. The time is that of some look-ups.
    pub(crate) fn take_in(&mut self, alloc: Global, event: &Event) -> Result<(), Memory>
        requires { event.now.id.at ≤ length self.old.firsts.items + 1 }
        ensures { (es : List Event) → IsIndexed self.old es → OnOk result (IsIndexed self.new (es ++ event.now ∷ [])) }
    {
        add_to_room(alloc, &mut self.rooms, event.room, event.id.at)?;
        note_member(alloc, &mut self.members, event)?;
        note_state(alloc, &mut self.states, event)?;
        note_version(alloc, &mut self.versions, event)?;
        note_own(alloc, &mut self.own, event)?;
        note_first(&mut self.firsts, event)?;
        Ok(())
    }
}

fn note_member(
    alloc: Global,
    members: &mut BTreeMap<RoomId, Vec<u64>>,
    event: &Event,
) -> Result<(), Memory>
    ensures { OnOk result ((r : RoomId) → lists.room_at members.new r ≡ lists.room_at members.old r ++ lists.one (looked.is_member r event.now) event.now.id.at) }
{
    match member_key(event) {
        Some(_) => add_to_room(alloc, members, event.room, event.id.at),
        None => Ok(()),
    }
}

fn note_state(
    alloc: Global,
    states: &mut BTreeMap<RoomId, Vec<u64>>,
    event: &Event,
) -> Result<(), Memory>
    ensures { OnOk result ((r : RoomId) → lists.room_at states.new r ≡ lists.room_at states.old r ++ lists.one (looked.is_state r event.now) event.now.id.at) }
{
    match &event.state_key {
        Some(_) => add_to_room(alloc, states, event.room, event.id.at),
        None => Ok(()),
    }
}

fn note_version(
    alloc: Global,
    versions: &mut BTreeMap<RoomId, Kinds>,
    event: &Event,
) -> Result<(), Memory>
    ensures { OnOk result ((r : RoomId) (t k : List ℕ) → lists.version_at versions.new r t k ≡ lists.version_at versions.old r t k ++ lists.one (looked.is_version r t k event.now) event.now.id.at) }
{
    match &event.state_key {
        Some(key) => add_version(
            alloc,
            versions,
            event.room,
            event.kind.as_str(),
            key.as_str(),
            event.id.at,
        ),
        None => Ok(()),
    }
}

fn note_own(
    alloc: Global,
    own: &mut BTreeMap<String, BTreeMap<RoomId, u64>>,
    event: &Event,
) -> Result<(), Memory>
    ensures { OnOk result ((user : List ℕ) → lists.own_at own.new user ≡ looked.with_place user (lists.own_at own.old user) event.now) }
{
    match member_key(event) {
        Some(key) => set_own(alloc, own, key.as_str(), event.room, event.id.at),
        None => Ok(()),
    }
}

/// The state key of a member event.
fn member_key(event: &Event) -> Option<&Text>
    ensures { option_copied result ≡ looked.member_key event.now }
{
    if event.is_of(MEMBER) {
        event.state_key.as_ref()
    } else {
        None
    }
}

fn set_own(
    alloc: Global,
    own: &mut BTreeMap<String, BTreeMap<RoomId, u64>>,
    key: &str,
    room: RoomId,
    at: u64,
) -> Result<(), Memory>
    ensures { OnOk result ((user : List ℕ) → lists.own_at own.new user ≡ (if bytes_eq key.now user then insert_entry lists.room_cmp (lists.own_at own.old user) room at else lists.own_at own.old user)) }
{
    make_own(alloc, own, key)?;
    put_own(own, key, room, at)
}

fn make_own(
    alloc: Global,
    own: &mut BTreeMap<String, BTreeMap<RoomId, u64>>,
    key: &str,
) -> Result<(), Memory>
    ensures same { OnOk result ((user : List ℕ) → lists.own_at own.new user ≡ lists.own_at own.old user) }
    ensures there { OnOk result (IsSome (get_by_text own.new key.now)) }
{
    if !own.contains_key(key) {
        own.insert(String::from_str(alloc, key)?, BTreeMap::new(alloc))?;
    }
    Ok(())
}

fn put_own(
    own: &mut BTreeMap<String, BTreeMap<RoomId, u64>>,
    key: &str,
    room: RoomId,
    at: u64,
) -> Result<(), Memory>
    requires { IsSome (get_by_text own.old key.now) }
    ensures { OnOk result ((user : List ℕ) → lists.own_at own.new user ≡ (if bytes_eq key.now user then insert_entry lists.room_cmp (lists.own_at own.old user) room at else lists.own_at own.old user)) }
{
    if let Some(rooms) = own.get_mut(key) {
        rooms.insert(room, at)?;
    }
    Ok(())
}

fn note_first(firsts: &mut Vec<u64>, event: &Event) -> Result<(), Memory>
    requires { event.now.id.at ≤ length firsts.old.items + 1 }
    ensures marks { OnOk result (length firsts.new.items ≡ length firsts.old.items + 1) }
    ensures first { OnOk result ((p : ℕ) → slice_index_or firsts.new.items p 0 ≡ looked.first_or (slice_index_or firsts.old.items p 0) (looked.redacts p event.now) event.now.id.at) }
{
    firsts.push(0)?;
    if let Some(at) = target(event) {
        note_at(firsts.as_mut_slice(), at as usize, event.id.at);
    }
    Ok(())
}

/// Notes a redaction where none is noted before it.
fn note_at(firsts: &mut [u64], at: usize, by: u64)
    requires { at < length firsts.old }
    ensures marks { length firsts.new ≡ length firsts.old }
    ensures first { (p : ℕ) → slice_index_or firsts.new p 0 ≡ looked.first_or (slice_index_or firsts.old p 0) (at == p) by }
{
    if firsts[at] == 0 {
        firsts[at] = by;
    }
}

//! Maps of lists of positions.

ghost use Rattle.std.specs.Prelude.{◌≡◌, ◌++◌, ◌&&◌, List, ℕ, OnOk, IsSome, string_bytes};
ghost use Rattle.std.specs.BTreeMap as tree;
ghost use Rattle.std.specs.BTreeMap.{get_by_text};
ghost use Rattle.std.specs.Str.{bytes_eq};
ghost use Rattle.mx_ids.specs.declared.room_id.RoomId.{RoomId};
ghost use Rattle.mx_event.specs.Lawful.{same_room};
ghost use Rattle.mx_snapshot.specs.Lists.{room_cmp, room_at, key_at, kind_at, version_at, one};

use mx_ids::{Memory, RoomId};
use std::alloc::Global;
use std::collections::BTreeMap;

pub(crate) type Keys = BTreeMap<String, Vec<u64>>;

pub(crate) type Kinds = BTreeMap<String, Keys>;

/// Puts a position at the end of a room's list.
pub(crate) fn add_to_room(
    alloc: Global,
    rooms: &mut BTreeMap<RoomId, Vec<u64>>,
    room: RoomId,
    at: u64,
) -> Result<(), Memory>
    ensures { OnOk result ((r : RoomId) → room_at rooms.new r ≡ room_at rooms.old r ++ one (same_room room r) at) }
{
    if rooms.contains_key(&room) {
        push_in_room(rooms, room, at)
    } else {
        rooms.insert(room, vec![in alloc; at; 1]?)?;
        Ok(())
    }
}

fn push_in_room(rooms: &mut BTreeMap<RoomId, Vec<u64>>, room: RoomId, at: u64) -> Result<(), Memory>
    requires { IsSome (tree.get room_cmp rooms.old room) }
    ensures { OnOk result ((r : RoomId) → room_at rooms.new r ≡ room_at rooms.old r ++ one (same_room room r) at) }
{
    if let Some(list) = rooms.get_mut(&room) {
        list.push(at)?;
    }
    Ok(())
}

/// Puts a position at the end of a key's list.
pub(crate) fn add_to_key(alloc: Global, keys: &mut Keys, key: &str, at: u64) -> Result<(), Memory>
    ensures { OnOk result ((k : List ℕ) → key_at keys.new k ≡ key_at keys.old k ++ one (bytes_eq key.now k) at) }
{
    make_key(alloc, keys, key)?;
    push_at_key(keys, key, at)
}

fn make_key(alloc: Global, keys: &mut Keys, key: &str) -> Result<(), Memory>
    ensures same { OnOk result ((k : List ℕ) → key_at keys.new k ≡ key_at keys.old k) }
    ensures there { OnOk result (IsSome (get_by_text keys.new key.now)) }
{
    if !keys.contains_key(key) {
        keys.insert(String::from_str(alloc, key)?, Vec::with_capacity(alloc, 1)?)?;
    }
    Ok(())
}

fn push_at_key(keys: &mut Keys, key: &str, at: u64) -> Result<(), Memory>
    requires { IsSome (get_by_text keys.old key.now) }
    ensures { OnOk result ((k : List ℕ) → key_at keys.new k ≡ key_at keys.old k ++ one (bytes_eq key.now k) at) }
{
    if let Some(list) = keys.get_mut(key) {
        list.push(at)?;
    }
    Ok(())
}

/// Puts a position at the end of the list of a type and a key.
pub(crate) fn add_to_kind(
    alloc: Global,
    kinds: &mut Kinds,
    kind: &str,
    key: &str,
    at: u64,
) -> Result<(), Memory>
    ensures { OnOk result ((t k : List ℕ) → kind_at kinds.new t k ≡ kind_at kinds.old t k ++ one (bytes_eq kind.now t && bytes_eq key.now k) at) }
{
    make_kind(alloc, kinds, kind)?;
    push_at_kind(alloc, kinds, kind, key, at)
}

fn make_kind(alloc: Global, kinds: &mut Kinds, kind: &str) -> Result<(), Memory>
    ensures same { OnOk result ((t k : List ℕ) → kind_at kinds.new t k ≡ kind_at kinds.old t k) }
    ensures there { OnOk result (IsSome (get_by_text kinds.new kind.now)) }
{
    if !kinds.contains_key(kind) {
        kinds.insert(String::from_str(alloc, kind)?, BTreeMap::new(alloc))?;
    }
    Ok(())
}

fn push_at_kind(
    alloc: Global,
    kinds: &mut Kinds,
    kind: &str,
    key: &str,
    at: u64,
) -> Result<(), Memory>
    requires { IsSome (get_by_text kinds.old kind.now) }
    ensures { OnOk result ((t k : List ℕ) → kind_at kinds.new t k ≡ kind_at kinds.old t k ++ one (bytes_eq kind.now t && bytes_eq key.now k) at) }
{
    if let Some(keys) = kinds.get_mut(kind) {
        add_to_key(alloc, keys, key, at)?;
    }
    Ok(())
}

/// Puts a position at the end of the list of a room, a type and a key.
pub(crate) fn add_version(
    alloc: Global,
    rooms: &mut BTreeMap<RoomId, Kinds>,
    room: RoomId,
    kind: &str,
    key: &str,
    at: u64,
) -> Result<(), Memory>
    ensures { OnOk result ((r : RoomId) (t k : List ℕ) → version_at rooms.new r t k ≡ version_at rooms.old r t k ++ one (same_room room r && (bytes_eq kind.now t && bytes_eq key.now k)) at) }
{
    make_room(alloc, rooms, room)?;
    push_version(alloc, rooms, room, kind, key, at)
}

fn make_room(alloc: Global, rooms: &mut BTreeMap<RoomId, Kinds>, room: RoomId) -> Result<(), Memory>
    ensures same { OnOk result ((r : RoomId) (t k : List ℕ) → version_at rooms.new r t k ≡ version_at rooms.old r t k) }
    ensures there { OnOk result (IsSome (tree.get room_cmp rooms.new room)) }
{
    if !rooms.contains_key(&room) {
        rooms.insert(room, BTreeMap::new(alloc))?;
    }
    Ok(())
}

fn push_version(
    alloc: Global,
    rooms: &mut BTreeMap<RoomId, Kinds>,
    room: RoomId,
    kind: &str,
    key: &str,
    at: u64,
) -> Result<(), Memory>
    requires { IsSome (tree.get room_cmp rooms.old room) }
    ensures { OnOk result ((r : RoomId) (t k : List ℕ) → version_at rooms.new r t k ≡ version_at rooms.old r t k ++ one (same_room room r && (bytes_eq kind.now t && bytes_eq key.now k)) at) }
{
    if let Some(kinds) = rooms.get_mut(&room) {
        add_to_kind(alloc, kinds, kind, key, at)?;
    }
    Ok(())
}

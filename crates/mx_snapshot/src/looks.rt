//! What the parts of an index have at a key.

ghost use Rattle.std.specs.Prelude.{◌≡◌, slice_index_or};
ghost use Rattle.std.specs.BTreeMap as tree;
ghost use Rattle.std.specs.Option.{option_copied};
ghost use Rattle.mx_snapshot.specs.Lists.{room_at, room_cmp, key_at, kind_at, type_in, version_at};

use crate::lists::{Keys, Kinds};
use mx_ids::RoomId;
use std::collections::BTreeMap;

/// The number at an index, or 0 beyond the end.
pub(crate) fn number_at(numbers: &[u64], index: u64) -> u64
    ensures { result ≡ slice_index_or numbers.now index 0 }
{
    numbers.get(index as usize).copied().unwrap_or(0)
}

/// The positions of a room.
pub(crate) fn room_positions<'a>(rooms: &'a BTreeMap<RoomId, Vec<u64>>, room: &RoomId) -> &'a [u64]
    ensures { result.now ≡ room_at rooms.now room.now }
{
    match rooms.get(room) {
        Some(list) => list.as_slice(),
        None => &[],
    }
}

/// The positions of a key.
pub(crate) fn key_positions<'a>(keys: &'a Keys, key: &str) -> &'a [u64]
    ensures { result.now ≡ key_at keys.now key.now }
{
    match keys.get(key) {
        Some(list) => list.as_slice(),
        None => &[],
    }
}

/// The positions of a type and a key.
pub(crate) fn kind_positions<'a>(kinds: &'a Kinds, kind: &str, key: &str) -> &'a [u64]
    ensures { result.now ≡ kind_at kinds.now kind.now key.now }
{
    match kinds.get(kind) {
        Some(keys) => key_positions(keys, key),
        None => &[],
    }
}

/// The keys of a room and a type, with their positions.
pub(crate) fn type_keys<'a>(
    rooms: &'a BTreeMap<RoomId, Kinds>,
    room: &RoomId,
    kind: &str,
) -> Option<&'a Keys>
    ensures { option_copied result ≡ type_in (tree.get room_cmp rooms.now room.now) kind.now }
{
    rooms.get(room)?.get(kind)
}

/// The positions of a room, a type and a key.
pub(crate) fn version_positions<'a>(
    rooms: &'a BTreeMap<RoomId, Kinds>,
    room: &RoomId,
    kind: &str,
    key: &str,
) -> &'a [u64]
    ensures { result.now ≡ version_at rooms.now room.now kind.now key.now }
{
    match rooms.get(room) {
        Some(kinds) => kind_positions(kinds, kind, key),
        None => &[],
    }
}

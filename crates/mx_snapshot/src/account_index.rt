//! Where to find what among the entries of account data.

ghost use Rattle.std.specs.Prelude.{◌≡◌, ◌++◌, ◌&&◌, [], ◌∷◌, List, ℕ, Some, None, filter, map, IfOk, OnOk};
ghost use Rattle.std.specs.BTreeMap as tree;
ghost use Rattle.std.specs.List.Sorted.{IsNonDecreasingBy, IsPermutation};
ghost use Rattle.std.specs.Option.{option_copied, option_to_list};
ghost use Rattle.std.specs.Str.{bytes_eq};
ghost use Rattle.std.specs.String.{string_cmp};
ghost use Rattle.mx_ids.specs.declared.room_id.RoomId.{RoomId};
ghost use Rattle.mx_account.specs.Entries.{is_data_of, position_of, same_room};
ghost use Rattle.mx_account.specs.declared.entry.Entry.{Entry};
ghost use Rattle.mx_window.specs.Lasts.{last_of};
ghost use Rattle.mx_snapshot.specs.Accounts.{IsIndexed};
ghost use Rattle.mx_snapshot.specs.LastVersions.{key_tops};
ghost use Rattle.mx_snapshot.specs.Lists.{always, itself, key_at, key_in, kind_at, version_at, one};

use crate::lists::{Keys, Kinds, add_to_key, add_to_kind, add_version};
use crate::looks::type_keys;
use crate::positions::top;
use mx_account::Entry;
use mx_ids::{Memory, RoomId};
use std::alloc::Global;
use std::collections::BTreeMap;

/// Where to find what among entries of account data.
#[derive(Drop)]
pub(crate) struct AccountIndex {
    /// The positions of each user's data, global and of all rooms.
    pub(crate) users: Keys,
    /// The positions of the global data of each user and type.
    pub(crate) global: Kinds,
    /// The positions of the data of each room, user and type.
    pub(crate) rooms: BTreeMap<RoomId, Kinds>,
    /// The positions of each user's filters.
    pub(crate) filters: Keys,
}

impl AccountIndex {
    /// The index of no entries. Takes no memory.
    pub(crate) fn new(alloc: Global) -> AccountIndex
        ensures { IsIndexed result [] }
    {
        AccountIndex {
            users: BTreeMap::new(alloc),
            global: BTreeMap::new(alloc),
            rooms: BTreeMap::new(alloc),
            filters: BTreeMap::new(alloc),
        }
    }

    /// Takes in the entry after those that are indexed. The time is that of some look-ups.
    pub(crate) fn take_in(&mut self, alloc: Global, entry: &Entry) -> Result<(), Memory>
        ensures { (es : List Entry) → IsIndexed self.old es → OnOk result (IsIndexed self.new (es ++ entry.now ∷ [])) }
    {
        match entry {
            Entry::Data {
                user,
                room,
                kind,
                at,
                ..
            } => {
                self.take_data(alloc, user.as_str(), *room, kind.as_str(), *at)?;
                Ok(())
            }
            Entry::Filter { user, at, .. } => {
                add_to_key(alloc, &mut self.filters, user.as_str(), *at)
            }
        }
    }

    fn take_data(
        &mut self,
        alloc: Global,
        user: &str,
        room: Option<RoomId>,
        kind: &str,
        at: u64,
    ) -> Result<(), Memory>
        ensures users { OnOk result ((u : List ℕ) → key_at self.new.users u ≡ key_at self.old.users u ++ one (bytes_eq user.now u) at) }
        ensures global { OnOk result ((u k : List ℕ) → kind_at self.new.global u k ≡ kind_at self.old.global u k ++ one ((bytes_eq user.now u && same_room room None) && bytes_eq kind.now k) at) }
        ensures rooms { OnOk result ((r : RoomId) (u k : List ℕ) → version_at self.new.rooms r u k ≡ version_at self.old.rooms r u k ++ one ((bytes_eq user.now u && same_room room (Some r)) && bytes_eq kind.now k) at) }
        ensures filters { OnOk result (self.new.filters ≡ self.old.filters) }
    {
        add_to_key(alloc, &mut self.users, user, at)?;
        match room {
            Some(room) => add_version(alloc, &mut self.rooms, room, user, kind, at),
            None => add_to_kind(alloc, &mut self.global, user, kind, at),
        }
    }

    /// The positions of a user's data by type, of a room or global ones where there is no room.
    pub(crate) fn types_of(&self, user: &str, room: Option<&RoomId>) -> Option<&Keys>
        ensures { (es : List Entry) → IsIndexed self.now es → (kind : List ℕ) → key_in (option_copied result) kind ≡ map position_of (filter (is_data_of user.now (option_copied room.entry) kind) es) }
    {
        match room {
            Some(room) => type_keys(&self.rooms, room, user),
            None => self.global.get(user),
        }
    }
}

/// The last position of each key, in rising order. Takes the time of the keys, however many positions each has, and of
/// sorting what is found.
pub(crate) fn tops(alloc: Global, keys: &Keys) -> Result<Vec<u64>, Memory>
    ensures ordered { OnOk result (tree.IsOrdered string_cmp keys.now) }
    ensures found { IfOk result (λ made. IsPermutation (key_tops keys.now.entries) made.items) }
    ensures rising { IfOk result (λ made. IsNonDecreasingBy itself made.items) }
{
    let mut found = Vec::new(alloc);
    push_tops(&mut found, keys)?;
    found.sort_unstable();
    Ok(found)
}

/// Puts the last positions of all keys behind others.
fn push_tops(found: &mut Vec<u64>, keys: &Keys) -> Result<(), Memory>
    ensures ordered { OnOk result (tree.IsOrdered string_cmp keys.now) }
    ensures found { OnOk result (found.new.items ≡ found.old.items ++ key_tops keys.now.entries) }
{
    'keys: for entry in keys {
        push_top(found, entry.1.as_slice())?;
    }
    Ok(())
}

fn push_top(found: &mut Vec<u64>, positions: &[u64]) -> Result<(), Memory>
    ensures { OnOk result (found.new.items ≡ found.old.items ++ option_to_list (last_of always positions.now)) }
{
    if let Some(position) = top(positions) {
        found.push(position)?;
    }
    Ok(())
}

//! The account data that entries set.

ghost use Rattle.std.specs.Prelude.{◌≡◌, IfOk, OnOk, drop, map, if◌then◌else◌};
ghost use Rattle.std.specs.Option.{option_copied};
ghost use Rattle.mx_account.specs.Entries.{is_of, pair_now};
ghost use Rattle.mx_account.specs.Data.{data_of, set_entry};

use crate::entry::Entry;
use mx_ids::{Copied, Memory, RoomId, Seq, Text, UserId};
use mx_json::Json;
use mx_lanes::Parts;
use std::alloc::Global;
use std::collections::BTreeMap;

/// A user's account data of a room, or its global ones where there is no room, as the entries at the positions after one
/// set them: under each type the last content, in byte order of types (Client-Server API, Client Config). Each content that
/// is answered is copied once; the time is in the number of these entries.
pub fn data_after(
    alloc: Global,
    user: &UserId,
    room: Option<&RoomId>,
    list: &Parts<Entry>,
    position: u64,
) -> Result<Seq<(Text, Json)>, Memory>
    ensures { IfOk result (λ made. made ≡ data_of user.now (option_copied room.entry) (drop position list.now.items)) }
{
    let wanted = room.copied();
    let mut latest: BTreeMap<&Text, &Json> = BTreeMap::new(alloc);
    let mut at = position;
    'entries: while at < list.front() {
        at += 1;
        if let Some(entry) = list.at(at) {
            set_entry(&mut latest, user, wanted, entry)?;
        }
    }
    copies(alloc, &latest)
}

/// Sets the content of an entry under its type, if it is of the user and room.
#[tactic(auto, using(crate::proofs::Latest::insert_now))]
fn set_entry<'a>(
    latest: &mut BTreeMap<&'a Text, &'a Json>,
    user: &UserId,
    room: Option<RoomId>,
    entry: &'a Entry,
) -> Result<(), Memory>
    ensures { OnOk result (map pair_now latest.new.entries ≡ (if is_of user.now room entry.now then set_entry (map pair_now latest.old.entries) entry.now else map pair_now latest.old.entries)) }
{
    if let Some((kind, content)) = entry.pair_of(user, room) {
        latest.insert(kind, content)?;
    }
    Ok(())
}

/// Copies of the contents, under copies of their types.
fn copies(alloc: Global, latest: &BTreeMap<&Text, &Json>) -> Result<Seq<(Text, Json)>, Memory>
    ensures { IfOk result (λ made. made ≡ map pair_now latest.now.entries) }
{
    let mut made = Vec::with_capacity(alloc, latest.len())?;
    'types: for (kind, content) in latest {
        made.push((kind.copy(alloc)?, content.copy(alloc)?))?;
    }
    Ok(Seq::from_vec(made))
}

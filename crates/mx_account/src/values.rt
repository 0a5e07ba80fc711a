//! The account data that stand at a position.

ghost use Rattle.std.specs.Prelude.{◌≡◌, Some, None, if◌then◌else◌};
ghost use Rattle.std.specs.Option.{option_copied};
ghost use Rattle.mx_account.specs.Entries.{content_of, is_data_of};
ghost use Rattle.mx_account.specs.Values.{AreInPlace, value_at};

use crate::entry::Entry;
use mx_ids::{RoomId, Text, UserId};
use mx_json::Json;
use mx_lanes::Parts;

/// The content that a user's account data of a type have at position `a`, global ones where there is no room
/// (Client-Server API, Client Config): that of the last entry of this user, room and type at a position up to `a`.
/// `None` exactly where there is no such entry.
///
/// Each item of the list stands at its own position. Takes no memory; looks back from `a`, or from the list's front
/// where `a` is above it, and costs time in the number of entries that it passes.
pub fn value<'a>(
    list: &'a Parts<Entry>,
    user: &UserId,
    room: Option<&RoomId>,
    kind: &Text,
    a: u64,
) -> Option<&'a Json>
    requires { AreInPlace list.now.items }
    ensures { option_copied result ≡ value_at user.now (option_copied room.entry) kind.now a list.now.items }
{
    let wanted = room.copied();
    let mut position = a.min(list.front());
    'entries: while let Some(entry) = list.at(position) {
        if let Some(content) = content_for(entry, user, wanted, kind) {
            return Some(content);
        }
        position -= 1;
    }
    None
}

/// The content of an entry, if it is data of this user, room and type.
fn content_for<'a>(
    entry: &'a Entry,
    user: &UserId,
    room: Option<RoomId>,
    kind: &Text,
) -> Option<&'a Json>
    ensures { option_copied result ≡ (if is_data_of user.now room kind.now entry.now then Some (content_of entry.now) else None) }
{
    match entry.pair_of(user, room) {
        Some((own_kind, content)) if own_kind == kind => Some(content),
        _ => None,
    }
}

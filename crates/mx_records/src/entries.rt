//! Account data and filters as values.

ghost use Rattle.std.specs.Prelude.{◌≡◌, ℕ, IfOk, IfSome, Some};
ghost use Rattle.mx_records.specs.Fits.{EntryFits, IsSmall, RoomFits};
ghost use Rattle.mx_records.specs.Records.{entry_in, entry_json, entry_read};

use crate::fault::RecordFault;
use crate::values::{number_of, push_copy, push_if_room, push_number, push_text, room_if};
use mx_account::Entry;
use mx_ids::{Copied, Memory, RoomId, Seq, Text, UserId, user_id};
use mx_json::Json;
use std::alloc::Global;

/// An entry as a value, without its position.
pub fn entry_value(alloc: Global, entry: &Entry) -> Result<Json, RecordFault>
    ensures value { IfOk result (λ j. j ≡ entry_json entry.now) }
    ensures fits { IfOk result (λ j. EntryFits entry.now) }
{
    match entry {
        Entry::Data {
            user,
            room,
            kind,
            content,
            ..
        } => data_value(alloc, user, *room, kind, content),
        Entry::Filter {
            user,
            id,
            filter,
            ..
        } => filter_value(alloc, user, *id, filter),
    }
}

fn data_value(
    alloc: Global,
    user: &UserId,
    room: Option<RoomId>,
    kind: &Text,
    content: &Json,
) -> Result<Json, RecordFault>
    ensures value { IfOk result (λ j. (at : ℕ) → j ≡ entry_json (Entry.Data user.now room kind.now content.now at)) }
    ensures fits { IfOk result (λ j. RoomFits room) }
{
    let mut parts = Seq::new(alloc);
    push_text(alloc, &mut parts, user.as_text())?;
    push_if_room(alloc, &mut parts, room)?;
    push_text(alloc, &mut parts, kind)?;
    push_copy(alloc, &mut parts, content)?;
    Ok(Json::List(parts))
}

fn filter_value(alloc: Global, user: &UserId, id: u64, filter: &Json) -> Result<Json, RecordFault>
    ensures value { IfOk result (λ j. (at : ℕ) → j ≡ entry_json (Entry.Filter user.now id filter.now at)) }
    ensures fits { IfOk result (λ j. IsSmall id) }
{
    let mut parts = Seq::new(alloc);
    push_text(alloc, &mut parts, user.as_text())?;
    push_number(&mut parts, id)?;
    push_copy(alloc, &mut parts, filter)?;
    Ok(Json::List(parts))
}

/// The entry that a value says, without a position; `None` where it says none, or its user is no user id.
pub fn read_entry(alloc: Global, json: &Json) -> Result<Option<Entry>, Memory>
    ensures { IfOk result (λ o. IfSome o (λ e. entry_read json.now ≡ Some e)) }
{
    match json.as_list() {
        Some(parts) => read_parts(alloc, parts.as_slice()),
        None => Ok(None),
    }
}

fn read_parts(alloc: Global, parts: &[Json]) -> Result<Option<Entry>, Memory>
    ensures { IfOk result (λ o. IfSome o (λ e. entry_in parts.now ≡ Some e)) }
{
    match parts {
        [user, room, kind, content] => {
            let Some(((user, room), kind)) = user.as_text().zip(room_if(room)).zip(kind.as_text())
            else {
                return Ok(None);
            };
            data_of(alloc, user, room, kind, content)
        }
        [user, id, filter] => {
            let Some((user, id)) = user.as_text().zip(number_of(id)) else {
                return Ok(None);
            };
            filter_of(alloc, user, id, filter)
        }
        _ => Ok(None),
    }
}

fn data_of(
    alloc: Global,
    user: &Text,
    room: Option<RoomId>,
    kind: &Text,
    content: &Json,
) -> Result<Option<Entry>, Memory>
    ensures { IfOk result (λ o. IfSome o (λ e. e ≡ Entry.Data user.now room kind.now content.now 0)) }
{
    let kind = kind.copy(alloc)?;
    let content = content.copy(alloc)?;
    let Some(user) = user_id(user.copy(alloc)?) else {
        return Ok(None);
    };
    Ok(Some(Entry::Data {
        user,
        room,
        kind,
        content,
        at: 0,
    }))
}

fn filter_of(alloc: Global, user: &Text, id: u64, filter: &Json) -> Result<Option<Entry>, Memory>
    ensures { IfOk result (λ o. IfSome o (λ e. e ≡ Entry.Filter user.now id filter.now 0)) }
{
    let filter = filter.copy(alloc)?;
    let Some(user) = user_id(user.copy(alloc)?) else {
        return Ok(None);
    };
    Ok(Some(Entry::Filter {
        user,
        id,
        filter,
        at: 0,
    }))
}

//! Numbers, texts and rooms as values, each behind others in a list, and as they are read.

ghost use Rattle.std.specs.Prelude.{◌≡◌, [], ◌∷◌, ◌++◌, IfOk, IfSome, OnOk, Some, option_map};
ghost use Rattle.mx_json.specs.declared.value.Json.TheVariants as json;
ghost use Rattle.mx_records.specs.Fits.{IsSmall, RoomFits};
ghost use Rattle.mx_records.specs.Values.{nat_json, nat_of, option_json, option_read, room_json, room_read};
ghost use Rattle.mx_json.specs.Fields.{text_of};

use crate::fault::RecordFault;
use mx_ids::{Copied, Memory, RoomId, Seq, Text};
use mx_json::Json;
use std::alloc::Global;

/// The largest number that is read back.
const LARGEST: u64 = 9_007_199_254_740_991;

/// Puts a number behind other values.
pub(crate) fn push_number(parts: &mut Seq<Json>, n: u64) -> Result<(), RecordFault>
    ensures value { OnOk result (parts.new ≡ parts.old ++ nat_json n ∷ []) }
    ensures fits { OnOk result (IsSmall n) }
{
    if n > LARGEST {
        return Err(RecordFault::Large);
    }
    parts.push(Json::Int(n as i64))?;
    Ok(())
}

/// Puts a text behind other values.
pub(crate) fn push_text(alloc: Global, parts: &mut Seq<Json>, text: &Text) -> Result<(), Memory>
    ensures { OnOk result (parts.new ≡ parts.old ++ json.Text text.now ∷ []) }
{
    parts.push(Json::Text(text.copy(alloc)?))
}

/// Puts a text behind other values, or null where there is none.
pub(crate) fn push_if_text(
    alloc: Global,
    parts: &mut Seq<Json>,
    text: Option<&Text>,
) -> Result<(), Memory>
    ensures { OnOk result (parts.new ≡ parts.old ++ option_json json.Text (option_map (λ t. t.now) text.entry) ∷ []) }
{
    match text {
        Some(text) => push_text(alloc, parts, text),
        None => parts.push(Json::Null),
    }
}

/// Puts a copy of a value behind other values.
pub(crate) fn push_copy(alloc: Global, parts: &mut Seq<Json>, value: &Json) -> Result<(), Memory>
    ensures { OnOk result (parts.new ≡ parts.old ++ value.now ∷ []) }
{
    parts.push(value.copy(alloc)?)
}

/// Puts a room behind other values.
pub(crate) fn push_room(
    alloc: Global,
    parts: &mut Seq<Json>,
    room: RoomId,
) -> Result<(), RecordFault>
    ensures value { OnOk result (parts.new ≡ parts.old ++ room_json room ∷ []) }
    ensures fits { OnOk result (IsSmall room.at) }
{
    let mut pair = Seq::new(alloc);
    push_number(&mut pair, u64::from(room.writer))?;
    push_number(&mut pair, room.at)?;
    parts.push(Json::List(pair))?;
    Ok(())
}

/// Puts a room behind other values, or null where there is none.
pub(crate) fn push_if_room(
    alloc: Global,
    parts: &mut Seq<Json>,
    room: Option<RoomId>,
) -> Result<(), RecordFault>
    ensures value { OnOk result (parts.new ≡ parts.old ++ option_json room_json room ∷ []) }
    ensures fits { OnOk result (RoomFits room) }
{
    match room {
        Some(room) => push_room(alloc, parts, room),
        None => Ok(parts.push(Json::Null)?),
    }
}

/// The number that a value is.
pub(crate) fn number_of(json: &Json) -> Option<u64>
    ensures { result ≡ nat_of json.now }
{
    let found = json.as_int()?;
    if found < 0 {
        return None;
    }
    Some(found as u64)
}

/// The text that a value is, or nothing where it is null.
pub(crate) fn text_if(json: &Json) -> Option<Option<&Text>>
    ensures { IfSome result (λ o. option_read text_of json.now ≡ Some (option_map (λ t. t.now) o)) }
{
    match json {
        Json::Null => Some(None),
        Json::Text(text) => Some(Some(text)),
        _ => None,
    }
}

/// The room that a value says; `None` also where its writer is no writer's number.
pub(crate) fn room_of(json: &Json) -> Option<RoomId>
    ensures { IfSome result (λ r. room_read json.now ≡ Some r) }
{
    let [writer, at] = json.as_list()?.as_slice() else {
        return None;
    };
    let (writer, at) = number_of(writer).zip(number_of(at))?;
    if writer > 255 {
        return None;
    }
    Some(RoomId {
        writer: writer as u8,
        at,
    })
}

/// The room that a value says, or nothing where it is null.
pub(crate) fn room_if(json: &Json) -> Option<Option<RoomId>>
    ensures { IfSome result (λ o. option_read room_read json.now ≡ Some o) }
{
    match json {
        Json::Null => Some(None),
        Json::List(_) => Some(Some(room_of(json)?)),
        _ => None,
    }
}

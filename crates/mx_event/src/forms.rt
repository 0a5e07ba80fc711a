//! An event as clients see it.
ghost use Rattle.std.specs.Prelude.{◌≡◌, ◌++◌, ◌∷◌, [], true, ◌==◌, if◌then◌else◌, length, min, pos, IfOk, OnOk, List, ℕ, Some, None, codes, option_and_then, option_map};
ghost use Rattle.std.specs.Ordering.{nat_cmp, is_lt};
ghost use Rattle.std.specs.Cmp.Lexicographic.{slice_cmp};
ghost use Rattle.mx_ids.specs.Ids.{event_id_text, room_id_text};
ghost use Rattle.mx_json.specs.Keys.{are_ordered, keys_of};
ghost use Rattle.mx_json.specs.Numbers.{largest};
ghost use Rattle.mx_json.specs.declared.members.Member.{Member};
ghost use Rattle.mx_json.specs.declared.value.Json.{Json};
ghost use Rattle.mx_json.specs.declared.value.Json.TheVariants as json;
ghost use Rattle.mx_event.specs.Forms.{bare_form, client_form, event_members, event_with, member, member_if, redacts_of, room_of, txn_for, unsigned_of};

use crate::event::{Event, Shown};
use mx_ids::{Copied, Memory, Text, write_event_id, write_room_id};
use mx_json::{Json, Members};
use std::alloc::Global;

/// The largest whole number in JSON (Appendices, Canonical JSON).
pub(crate) const LARGEST: u64 = 9_007_199_254_740_991;

/// An event as a device sees it (Client-Server API, Room Event Format): with the room's id where
/// `with_room` says so, and in `unsigned` the id of its transaction, where the device with that
/// number sent it, and the redaction for which it is redacted. `server` is the server's name.
/// `Memory` where an allocation is refused.
pub fn client_form(
    alloc: Global,
    shown: &Shown,
    device: u32,
    with_room: bool,
    server: &str,
) -> Result<Json, Memory>
    ensures { IfOk result (λ j. j ≡ client_form server.now with_room device shown.now) }
{
    let unsigned = unsigned_of(alloc, shown, device, with_room, server)?;
    event_form(alloc, &shown.event, unsigned, with_room, server)
}

/// What isn't part of the event: for which redaction it is redacted, and the transaction of the device.
fn unsigned_of(
    alloc: Global,
    shown: &Shown,
    device: u32,
    with_room: bool,
    server: &str,
) -> Result<Members<Json>, Memory>
    ensures { IfOk result (λ ms. ms ≡ unsigned_of server.now with_room device shown.now) }
{
    let because = because(alloc, shown, with_room, server)?;
    let txn = transaction_id(alloc, &shown.event, device)?;
    let mut unsigned = Members::new(alloc);
    put_if(alloc, &mut unsigned, "redacted_because", because)?;
    put_if(alloc, &mut unsigned, "transaction_id", txn)?;
    Ok(unsigned)
}

/// The redaction for which an event is redacted, without `unsigned`.
fn because(
    alloc: Global,
    shown: &Shown,
    with_room: bool,
    server: &str,
) -> Result<Option<Json>, Memory>
    ensures { IfOk result (λ o. o ≡ option_map (bare_form server.now with_room) shown.now.because) }
{
    match &shown.because {
        Some(redaction) => {
            let unsigned = Members::new(alloc);
            Ok(Some(event_form(alloc, redaction, unsigned, with_room, server)?))
        }
        None => Ok(None),
    }
}

/// The id of the transaction by which the device sent an event.
fn transaction_id(alloc: Global, event: &Event, device: u32) -> Result<Option<Json>, Memory>
    ensures { IfOk result (λ o. o ≡ option_and_then (txn_for device) event.now.txn) }
{
    match &event.txn {
        Some(txn) if txn.device == device => Ok(Some(Json::Text(txn.id.copy(alloc)?))),
        _ => Ok(None),
    }
}

/// The members of an event, with its `unsigned` where that isn't empty.
fn event_form(
    alloc: Global,
    event: &Event,
    unsigned: Members<Json>,
    with_room: bool,
    server: &str,
) -> Result<Json, Memory>
    ensures { IfOk result (λ j. j ≡ json.Object (event_members server.now with_room unsigned event.now)) }
{
    let mut members = Members::new(alloc);
    put_event(alloc, &mut members, event, with_room, server)?;
    put_if(alloc, &mut members, "unsigned", unless_empty(unsigned))?;
    Ok(Json::Object(members))
}

/// Puts the members of an event but `unsigned`, each key above those before it.
fn put_event(
    alloc: Global,
    members: &mut Members<Json>,
    event: &Event,
    with_room: bool,
    server: &str,
) -> Result<(), Memory>
    requires { are_ordered (keys_of members.old ++ codes "content" ∷ []) ≡ true }
    ensures put { OnOk result ((last : List (Member Json)) → members.new ++ last ≡ members.old ++ event_with server.now with_room last event.now) }
    ensures next { OnOk result ((k : List ℕ) → is_lt (slice_cmp nat_cmp (codes "type") k) ≡ true → are_ordered (keys_of members.new ++ k ∷ []) ≡ true) }
{
    put(alloc, members, "content", event.content.copy(alloc)?)?;
    put(alloc, members, "event_id", event_id(alloc, event, server)?)?;
    put(alloc, members, "origin_server_ts", timestamp(event.ts))?;
    put_if(alloc, members, "redacts", redacts(alloc, event)?)?;
    let room = room_id(alloc, event, with_room, server)?;
    put_if(alloc, members, "room_id", room)?;
    let sender = event.sender.as_text().copy(alloc)?;
    put(alloc, members, "sender", Json::Text(sender))?;
    put_if(alloc, members, "state_key", state_key(alloc, event)?)?;
    put(alloc, members, "type", Json::Text(event.kind.copy(alloc)?))
}

fn event_id(alloc: Global, event: &Event, server: &str) -> Result<Json, Memory>
    ensures { IfOk result (λ j. j ≡ json.Text (event_id_text server.now event.now.id)) }
{
    let mut text = Text::new(alloc);
    write_event_id(alloc, &event.id, server, &mut text)?;
    Ok(Json::Text(text))
}

fn timestamp(ts: u64) -> Json
    ensures { result ≡ json.Int (pos (min ts largest)) }
{
    Json::Int(ts.min(LARGEST) as i64)
}

/// The room's id, where it is asked for.
fn room_id(
    alloc: Global,
    event: &Event,
    with_room: bool,
    server: &str,
) -> Result<Option<Json>, Memory>
    ensures { IfOk result (λ o. o ≡ room_of server.now with_room event.now) }
{
    if !with_room {
        return Ok(None);
    }
    let mut text = Text::new(alloc);
    write_room_id(alloc, &event.room, server, &mut text)?;
    Ok(Some(Json::Text(text)))
}

/// What an event names, where it is a redaction.
fn redacts(alloc: Global, event: &Event) -> Result<Option<Json>, Memory>
    ensures { IfOk result (λ o. o ≡ redacts_of event.now) }
{
    match event.redacts() {
        Some(named) => Ok(Some(named.copy(alloc)?)),
        None => Ok(None),
    }
}

/// The state key, where there is one.
fn state_key(alloc: Global, event: &Event) -> Result<Option<Json>, Memory>
    ensures { IfOk result (λ o. o ≡ option_map json.Text event.now.state_key) }
{
    match &event.state_key {
        Some(key) => Ok(Some(Json::Text(key.copy(alloc)?))),
        None => Ok(None),
    }
}

/// An object of members, where there are any.
fn unless_empty(members: Members<Json>) -> Option<Json>
    ensures { result ≡ (if length members == 0 then None else Some (json.Object members)) }
{
    if members.is_empty() {
        None
    } else {
        Some(Json::Object(members))
    }
}

/// Puts a member at the end, whose key is above all keys there are, where there is a value.
fn put_if(
    alloc: Global,
    members: &mut Members<Json>,
    key: &str,
    value: Option<Json>,
) -> Result<(), Memory>
    requires { are_ordered (keys_of members.old ++ key.now ∷ []) ≡ true }
    ensures put { OnOk result (members.new ≡ members.old ++ member_if key.now value) }
    ensures next { OnOk result ((k : List ℕ) → is_lt (slice_cmp nat_cmp key.now k) ≡ true → are_ordered (keys_of members.new ++ k ∷ []) ≡ true) }
{
    match value {
        Some(value) => put(alloc, members, key, value),
        None => Ok(()),
    }
}

/// Puts a member at the end, whose key is above all keys there are.
fn put(alloc: Global, members: &mut Members<Json>, key: &str, value: Json) -> Result<(), Memory>
    requires { are_ordered (keys_of members.old ++ key.now ∷ []) ≡ true }
    ensures put { OnOk result (members.new ≡ members.old ++ member key.now value ∷ []) }
    ensures next { OnOk result ((k : List ℕ) → is_lt (slice_cmp nat_cmp key.now k) ≡ true → are_ordered (keys_of members.new ++ k ∷ []) ≡ true) }
{
    let key = Text::from_string(String::from_str(alloc, key)?);
    members.push(key, value)
}

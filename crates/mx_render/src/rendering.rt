//! What is answered, as an answer of the protocol.
ghost use Rattle.std.specs.Prelude.{◌≡◌, true, IfOk, decimal};
ghost use Rattle.mx_event.specs.Forms.{client_form};
ghost use Rattle.mx_ids.specs.Ids.{event_id_text, room_id_text};
ghost use Rattle.mx_json.specs.Texts.{json_text};
ghost use Rattle.mx_json.specs.declared.value.Json.TheVariants as json;
ghost use Rattle.mx_http.specs.Answers.{body_text};
ghost use Rattle.mx_render.specs.Errors as error;
ghost use Rattle.mx_render.specs.Rendered as form;

use crate::refusals::{code_of, status_of, text_of};
use mx_api::{error_json, text};
use mx_ask::{Refusal, Said};
use mx_event::{Shown, client_form};
use mx_http::{Answer, Body};
use mx_ids::{EventId, Memory, RoomId, Seq, Text, UserId, write_event_id, write_room_id};
use mx_json::{Json, Members};
use mx_pager::page_form;
use mx_sync_json::reply_form;
use std::alloc::Global;

/// The status and the body of what is answered, at the server of a name, to the device of a number in the users file
/// (Client-Server API). `Memory` where there is no room for the body; that for `NoMemory` itself takes none.
pub fn render(alloc: Global, server: &str, device: u32, said: Said) -> Result<Answer, Memory>
    ensures status { IfOk result (λ a. a.status ≡ form.said_status said) }
    ensures body { IfOk result (λ a. body_text a.body ≡ form.said_text server.now device said) }
{
    match said {
        Said::Refused(refusal) => refused(alloc, refusal),
        Said::Named(user, name) => Ok(ok(named_json(alloc, user, name)?)),
        Said::Done => Ok(ok(Json::Object(Members::new(alloc)))),
        Said::Sent(event) => Ok(ok(sent_json(alloc, server, event)?)),
        Said::Room(room) => {
            let id = room_json(alloc, server, &room)?;
            Ok(ok(single(alloc, "room_id", id)?))
        }
        Said::Rooms(rooms) => {
            let rooms = rooms_json(alloc, server, &rooms)?;
            Ok(ok(single(alloc, "joined_rooms", rooms)?))
        }
        Said::Content(content) => Ok(ok(content)),
        Said::State(events) => Ok(ok(events_json(alloc, server, device, &events)?)),
        Said::Members(events) => {
            let events = events_json(alloc, server, device, &events)?;
            Ok(ok(single(alloc, "chunk", events)?))
        }
        Said::Event(event) => Ok(ok(client_form(alloc, &event, device, true, server)?)),
        Said::Paged(page) => Ok(ok(page_form(alloc, server, device, &page)?)),
        Said::Synced(reply) => Ok(ok(reply_form(alloc, server, device, &reply)?)),
        Said::Filter(id) => Ok(ok(filter_json(alloc, id)?)),
        Said::NoMemory(refused) => Ok(no_memory(refused)),
    }
}

/// The answer for want of memory. Takes no memory.
pub fn no_memory(_refused: Memory) -> Answer
    ensures status { result.status ≡ 503 }
    ensures body { body_text result.body ≡ form.no_memory_text }
{
    Answer {
        status: 503,
        body: Body::Fixed(b"{\"errcode\":\"ORG_MXSYNC_NO_MEMORY\",\"error\":\"no memory\"}"),
    }
}

/// An error with the status of its refusal.
fn refused(alloc: Global, refusal: Refusal) -> Result<Answer, Memory>
    ensures status { IfOk result (λ a. a.status ≡ error.status_of refusal) }
    ensures body { IfOk result (λ a. body_text a.body ≡ json_text (form.refused_json refusal)) }
{
    let json = error_json(alloc, code_of(refusal), text_of(alloc, refusal)?)?;
    Ok(Answer {
        status: status_of(refusal),
        body: Body::Json(json),
    })
}

/// A value with status 200.
fn ok(json: Json) -> Answer
    ensures status { result.status ≡ 200 }
    ensures body { body_text result.body ≡ json_text json }
{
    Answer {
        status: 200,
        body: Body::Json(json),
    }
}

/// Who asks.
fn named_json(alloc: Global, user: UserId, name: Text) -> Result<Json, Memory>
    ensures { IfOk result (λ j. j ≡ form.named_json user name) }
{
    let mut object = Members::new(alloc);
    object.push(text(alloc, "device_id")?, Json::Text(name))?;
    object.push(
        text(alloc, "user_id")?,
        Json::Text(text(alloc, user.as_str())?),
    )?;
    Ok(Json::Object(object))
}

/// An object of one member.
fn single(alloc: Global, key: &str, value: Json) -> Result<Json, Memory>
    ensures { IfOk result (λ j. j ≡ form.single key.now value) }
{
    let mut object = Members::new(alloc);
    object.push(text(alloc, key)?, value)?;
    Ok(Json::Object(object))
}

/// The event that was sent.
fn sent_json(alloc: Global, server: &str, event: EventId) -> Result<Json, Memory>
    ensures { IfOk result (λ j. j ≡ form.sent_json server.now event) }
{
    let mut id = Text::new(alloc);
    write_event_id(alloc, &event, server, &mut id)?;
    single(alloc, "event_id", Json::Text(id))
}

/// The id of a filter.
fn filter_json(alloc: Global, id: u64) -> Result<Json, Memory>
    ensures { IfOk result (λ j. j ≡ form.filter_json id) }
{
    let text = decimal_text(alloc, id)?;
    single(alloc, "filter_id", Json::Text(text))
}

fn decimal_text(alloc: Global, number: u64) -> Result<Text, Memory>
    ensures { IfOk result (λ text. text ≡ decimal number) }
{
    let text = format!(in alloc; "{number}")?;
    Ok(Text::from_string(text))
}

/// The id of a room.
fn room_json(alloc: Global, server: &str, room: &RoomId) -> Result<Json, Memory>
    ensures { IfOk result (λ j. j ≡ form.room_json server.now room.now) }
{
    let mut id = Text::new(alloc);
    write_room_id(alloc, room, server, &mut id)?;
    Ok(Json::Text(id))
}

/// The ids of rooms.
fn rooms_json(alloc: Global, server: &str, rooms: &Seq<RoomId>) -> Result<Json, Memory>
    ensures { IfOk result (λ j. j ≡ form.rooms_json server.now rooms.now) }
{
    let mut ids = Vec::with_capacity(alloc, rooms.len())?;
    'rooms: for room in rooms.as_slice() {
        ids.push(room_json(alloc, server, room)?)?;
    }
    Ok(Json::List(Seq::from_vec(ids)))
}

/// Events as a device sees them, each with its room (Client-Server API, Room Event Format).
fn events_json(
    alloc: Global,
    server: &str,
    device: u32,
    events: &Seq<Shown>,
) -> Result<Json, Memory>
    ensures { IfOk result (λ j. j ≡ form.events_json server.now device events.now) }
{
    let mut forms = Vec::with_capacity(alloc, events.len())?;
    'events: for shown in events.as_slice() {
        forms.push(client_form(alloc, shown, device, true, server)?)?;
    }
    Ok(Json::List(Seq::from_vec(forms)))
}

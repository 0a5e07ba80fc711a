//! Events of a room, as a device sees them.

ghost use Rattle.std.specs.Prelude.{◌≡◌, [], map, unwrap_or, IfOk, OnOk};
ghost use Rattle.mx_ids.specs.Page.{page_text};
ghost use Rattle.mx_ids.specs.declared.page_token.PageToken.{PageToken};
ghost use Rattle.mx_json.specs.declared.value.Json.TheVariants as json;
ghost use Rattle.mx_sync_json.specs.Rooms as form;

use crate::members::{events_form, put};
use mx_event::{Event, Shown, client_form};
use mx_ids::{Copied, Memory, PageToken, Seq, Text, write_page_token};
use mx_json::{Json, Members};
use mx_parts::RoomPart;
use std::alloc::Global;

/// For whom a reply is written: the server's name, the device's number, and the front of events.
#[derive(Clone, Copy)]
pub(crate) struct Reader<'a> {
    pub(crate) server: &'a str,
    pub(crate) device: u32,
    pub(crate) front: u64,
}

fn shown_form(alloc: Global, to: &Reader<'_>, events: &Seq<Shown>) -> Result<Vec<Json>, Memory>
    ensures { IfOk result (λ made. made.items ≡ form.shown_form to.now.server.now to.now.device to.now.front events.now) }
{
    let mut made = Vec::with_capacity(alloc, events.len())?;
    'events: for shown in events.as_slice() {
        made.push(client_form(alloc, shown, to.device, false, to.server)?)?;
    }
    Ok(made)
}

/// The state that is sent.
pub(crate) fn state_form(alloc: Global, to: &Reader<'_>, part: &RoomPart) -> Result<Json, Memory>
    ensures { IfOk result (λ j. j ≡ form.state_form to.now.server.now to.now.device to.now.front part.now) }
{
    let events = shown_form(alloc, to, &part.state)?;
    events_form(alloc, events)
}

/// The timeline that is sent (Client-Server API, Syncing, Timeline).
pub(crate) fn timeline_form(alloc: Global, to: &Reader<'_>, part: &RoomPart) -> Result<Json, Memory>
    ensures { IfOk result (λ j. j ≡ form.timeline_form to.now.server.now to.now.device to.now.front part.now) }
{
    let events = shown_form(alloc, to, &part.timeline)?;
    let prev_batch = page_text(alloc, part.cut, to.front)?;
    let mut members = Members::new(alloc);
    put(
        alloc,
        &mut members,
        "events",
        Json::List(Seq::from_vec(events)),
    )?;
    put(alloc, &mut members, "limited", Json::Bool(part.limited))?;
    put(alloc, &mut members, "prev_batch", Json::Text(prev_batch))?;
    Ok(Json::Object(members))
}

/// The text of a page token.
fn page_text(alloc: Global, at: u64, front: u64) -> Result<Text, Memory>
    ensures { IfOk result (λ t. t ≡ page_text (record { at = at; e = front })) }
{
    let token = PageToken { at, e: front };
    let mut text = Text::new(alloc);
    write_page_token(alloc, &token, &mut text)?;
    Ok(text)
}

/// Events of the stripped state (Client-Server API, Stripped state).
pub(crate) fn stripped_form(alloc: Global, events: &Seq<Shown>) -> Result<Vec<Json>, Memory>
    ensures { IfOk result (λ made. made.items ≡ map form.stripped_form events.now) }
{
    let mut made = Vec::with_capacity(alloc, events.len())?;
    'events: for shown in events.as_slice() {
        made.push(bare_form(alloc, &shown.event)?)?;
    }
    Ok(made)
}

fn bare_form(alloc: Global, event: &Event) -> Result<Json, Memory>
    ensures { IfOk result (λ j. j ≡ form.bare_form event.now) }
{
    let mut members = Members::new(alloc);
    put_bare(alloc, &mut members, event)?;
    Ok(Json::Object(members))
}

/// Puts the members of an event of the stripped state into an object that has none.
fn put_bare(alloc: Global, members: &mut Members<Json>, event: &Event) -> Result<(), Memory>
    requires { members.old ≡ [] }
    ensures { OnOk result (json.Object members.new ≡ form.bare_form event.now) }
{
    let content = event.content.copy(alloc)?;
    put(alloc, members, "content", content)?;
    let sender = event.sender.as_text().copy(alloc)?;
    put(alloc, members, "sender", Json::Text(sender))?;
    let key = key_or_empty(alloc, event)?;
    put(alloc, members, "state_key", Json::Text(key))?;
    let kind = event.kind.copy(alloc)?;
    put(alloc, members, "type", Json::Text(kind))?;
    Ok(())
}

fn key_or_empty(alloc: Global, event: &Event) -> Result<Text, Memory>
    ensures { IfOk result (λ t. t ≡ unwrap_or event.now.state_key []) }
{
    match &event.state_key {
        Some(key) => key.copy(alloc),
        None => Ok(Text::new(alloc)),
    }
}

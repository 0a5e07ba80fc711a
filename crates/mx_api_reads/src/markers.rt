//! Calls that mark what was read.
ghost use Rattle.std.specs.Prelude.{◌≡◌, IfOk};
ghost use Rattle.mx_api.specs.Calls.{IsAsked};
ghost use Rattle.mx_api_reads.specs.Markers.{event_named, marked_asked, marked_by, markers_by, markers_from, markers_to, read_markers_asked, receipt_asked, text_or};
ghost use Rattle.mx_json.specs.Fields.{text_of};

use mx_api::{Asked, Authenticated, Field, Refused, four_parts, post_body, room_of};
use mx_ask::{Ask, Request, Who};
use mx_ids::{Copied, Memory, Text};
use mx_json::Json;
use mx_receipt::ReceiptKind;
use std::alloc::Global;

/// To mark one event of a room (Client-Server API, Receipts).
#[tactic(auto, unfolding(crate::specs::Markers::receipt_asked))]
pub(crate) fn mark(alloc: Global, call: Authenticated, body: &[u8]) -> Result<Asked, Memory>
    ensures asked { IfOk result (λ asked. asked ≡ receipt_asked call body.now) }
    ensures sound { IfOk result (λ asked. IsAsked asked) }
{
    let who = call.who;
    let Some((room, _, word, event)) = four_parts(call.parts) else {
        return Ok(Asked::Refused(Refused::BadPath));
    };
    match marked_by(word.as_str()) {
        Some(kind) => mark_as(alloc, who, room, event, body, kind),
        None => Ok(Asked::Refused(Refused::BadPath)),
    }
}

/// What a type of a receipt marks, where it is known. No kind is `m.fully_read`.
fn marked_by(word: &str) -> Option<Option<ReceiptKind>>
    ensures { result ≡ marked_by word.now }
{
    match word {
        "m.read" => Some(Some(ReceiptKind::Read)),
        "m.read.private" => Some(Some(ReceiptKind::Private)),
        "m.fully_read" => Some(None),
        _ => None,
    }
}

/// To mark an event by a kind, where the body is an object.
fn mark_as(
    alloc: Global,
    who: Who,
    room: Text,
    event: Text,
    body: &[u8],
    kind: Option<ReceiptKind>,
) -> Result<Asked, Memory>
    ensures asked { IfOk result (λ asked. asked ≡ marked_asked who room event body.now kind) }
    ensures sound { IfOk result (λ asked. IsAsked asked) }
{
    match post_body(alloc, body)? {
        Ok(_) => {
            let ask = Ask::Receipt { room, kind, event };
            Ok(Asked::Request(Request { who, ask }))
        }
        Err(refused) => Ok(Asked::Refused(refused)),
    }
}

/// To mark up to which events of a room the caller has read (Client-Server API, Fully read markers). The first refusal that
/// applies: those of `post_body`, and `BadShape` with the first of `m.fully_read`, `m.read` and `m.read.private` that is there and is no
/// text.
#[tactic(auto, unfolding(crate::specs::Markers::read_markers_asked))]
pub(crate) fn read_markers(alloc: Global, call: Authenticated, body: &[u8]) -> Result<Asked, Memory>
    ensures asked { IfOk result (λ asked. asked ≡ read_markers_asked call body.now) }
    ensures sound { IfOk result (λ asked. IsAsked asked) }
{
    let who = call.who;
    let Some(room) = room_of(call.parts) else {
        return Ok(Asked::Refused(Refused::BadPath));
    };
    match post_body(alloc, body)? {
        Ok(body) => markers_by(alloc, who, room, &body),
        Err(refused) => Ok(Asked::Refused(refused)),
    }
}

/// To mark the events that a body names.
fn markers_by(alloc: Global, who: Who, room: Text, body: &Json) -> Result<Asked, Memory>
    ensures asked { IfOk result (λ asked. asked ≡ markers_by who room body.now) }
    ensures sound { IfOk result (λ asked. IsAsked asked) }
{
    match event_named(alloc, "m.fully_read", Field::FullyRead, body)? {
        Ok(fully_read) => markers_from(alloc, who, room, fully_read, body),
        Err(refused) => Ok(Asked::Refused(refused)),
    }
}

/// The same, where the event of `m.fully_read` is known.
fn markers_from(
    alloc: Global,
    who: Who,
    room: Text,
    fully_read: Option<Text>,
    body: &Json,
) -> Result<Asked, Memory>
    ensures asked { IfOk result (λ asked. asked ≡ markers_from who room fully_read body.now) }
    ensures sound { IfOk result (λ asked. IsAsked asked) }
{
    match event_named(alloc, "m.read", Field::Read, body)? {
        Ok(read) => markers_to(alloc, who, room, fully_read, read, body),
        Err(refused) => Ok(Asked::Refused(refused)),
    }
}

/// The same, where that of `m.read` is known too.
fn markers_to(
    alloc: Global,
    who: Who,
    room: Text,
    fully_read: Option<Text>,
    read: Option<Text>,
    body: &Json,
) -> Result<Asked, Memory>
    ensures asked { IfOk result (λ asked. asked ≡ markers_to who room fully_read read body.now) }
    ensures sound { IfOk result (λ asked. IsAsked asked) }
{
    match event_named(alloc, "m.read.private", Field::ReadPrivate, body)? {
        Ok(private) => {
            let ask = Ask::ReadMarkers {
                room,
                fully_read,
                read,
                private,
            };
            Ok(Asked::Request(Request { who, ask }))
        }
        Err(refused) => Ok(Asked::Refused(refused)),
    }
}

/// The event that a body names at a key: none where the key isn't there.
fn event_named(
    alloc: Global,
    key: &str,
    name: Field,
    body: &Json,
) -> Result<Result<Option<Text>, Refused>, Memory>
    ensures { IfOk result (λ event. event ≡ event_named key.now name body.now) }
{
    match body.field(key) {
        None => Ok(Ok(None)),
        Some(value) => text_or(alloc, name, value),
    }
}

fn text_or(
    alloc: Global,
    name: Field,
    value: &Json,
) -> Result<Result<Option<Text>, Refused>, Memory>
    ensures { IfOk result (λ event. event ≡ text_or name (text_of value.now)) }
{
    match value.as_text() {
        Some(text) => Ok(Ok(Some(text.copy(alloc)?))),
        None => Ok(Err(Refused::BadShape(name))),
    }
}

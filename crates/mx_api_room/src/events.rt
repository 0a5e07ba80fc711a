//! Calls that send events to a room, and that read its state at a key.
ghost use Rattle.std.specs.Prelude.{◌≡◌, IfOk, IfSome, Some, option_map, slice_get};
ghost use Rattle.mx_api.specs.Calls.{IsAsked};
ghost use Rattle.mx_api.specs.Parts.{four_parts};
ghost use Rattle.mx_api_room.specs.Events.{at_key_asked, in_txn, redact_asked, redaction_asked, send_asked, state_asked, state_at_key_asked};

use mx_api::{Asked, Authenticated, Refused, four_parts, object_body, text_field, three_parts};
use mx_ask::{Ask, Request, Who};
use mx_event::Txn;
use mx_ids::{Copied, Memory, Seq, Text};
use mx_json::Json;
use std::alloc::Global;

/// A message event (Client-Server API, Sending events to a room).
#[tactic(auto, unfolding(crate::specs::Events::send_asked))]
pub(crate) fn send(alloc: Global, call: Authenticated, body: &[u8]) -> Result<Asked, Memory>
    ensures asked { IfOk result (λ asked. asked ≡ send_asked call body.now) }
    ensures sound { IfOk result (λ asked. IsAsked asked) }
{
    let who = call.who;
    let Some((room, kind, txn)) = in_txn(alloc, who.device, call.parts)? else {
        return Ok(Asked::Refused(Refused::BadPath));
    };
    match object_body(alloc, body)? {
        Ok(content) => {
            let ask = Ask::Send {
                room,
                kind,
                txn,
                content,
            };
            Ok(Asked::Request(Request { who, ask }))
        }
        Err(refused) => Ok(Asked::Refused(refused)),
    }
}

/// A redaction (Client-Server API, Redactions).
#[tactic(auto, unfolding(crate::specs::Events::redact_asked))]
pub(crate) fn redact(alloc: Global, call: Authenticated, body: &[u8]) -> Result<Asked, Memory>
    ensures asked { IfOk result (λ asked. asked ≡ redact_asked call body.now) }
    ensures sound { IfOk result (λ asked. IsAsked asked) }
{
    let who = call.who;
    let Some((room, event, txn)) = in_txn(alloc, who.device, call.parts)? else {
        return Ok(Asked::Refused(Refused::BadPath));
    };
    match object_body(alloc, body)? {
        Ok(body) => redaction(alloc, who, room, event, txn, &body),
        Err(refused) => Ok(Asked::Refused(refused)),
    }
}

/// A redaction of an event of a room, with the reason that the body has.
fn redaction(
    alloc: Global,
    who: Who,
    room: Text,
    event: Text,
    txn: Txn,
    body: &Json,
) -> Result<Asked, Memory>
    requires { slice_get txn.path 0 ≡ Some room }
    ensures asked { IfOk result (λ asked. asked ≡ redaction_asked who room event txn body.now) }
    ensures sound { IfOk result (λ asked. IsAsked asked) }
{
    let ask = Ask::Redact {
        room,
        event,
        txn,
        reason: text_field(alloc, body, "reason")?,
    };
    Ok(Asked::Request(Request { who, ask }))
}

/// The room of a path of four parts, what stands before its transaction id, and the transaction of a device (Client-Server
/// API, Transaction identifiers).
fn in_txn(alloc: Global, device: u32, parts: Seq<Text>) -> Result<Option<(Text, Text, Txn)>, Memory>
    ensures found { IfOk result (λ found. found ≡ option_map (in_txn device) (four_parts parts)) }
    ensures path { IfOk result (λ found. IfSome found (λ p. slice_get p.2.path 0 ≡ Some p.0)) }
{
    let Some((room, word, part, id)) = four_parts(parts) else {
        return Ok(None);
    };
    let mut path = Seq::new(alloc);
    path.push(room.copy(alloc)?)?;
    path.push(word)?;
    path.push(part.copy(alloc)?)?;
    Ok(Some((room, part, Txn { device, id, path })))
}

/// A room's state at a key, by the method (Client-Server API, Getting events for a room, Sending events to a room).
#[tactic(auto, unfolding(crate::specs::Events::state_at_key_asked))]
pub(crate) fn state_at_key(
    alloc: Global,
    method: &str,
    call: Authenticated,
    body: &[u8],
) -> Result<Asked, Memory>
    ensures asked { IfOk result (λ asked. asked ≡ state_at_key_asked method.now call body.now) }
    ensures sound { IfOk result (λ asked. IsAsked asked) }
{
    let Some((room, _, kind, key)) = four_parts(call.parts) else {
        return Ok(Asked::Refused(Refused::BadPath));
    };
    at_key(alloc, method, call.who, room, kind, key, body)
}

/// The same at the empty key.
#[tactic(auto, unfolding(crate::specs::Events::state_asked))]
pub(crate) fn state(
    alloc: Global,
    method: &str,
    call: Authenticated,
    body: &[u8],
) -> Result<Asked, Memory>
    ensures asked { IfOk result (λ asked. asked ≡ state_asked method.now call body.now) }
    ensures sound { IfOk result (λ asked. IsAsked asked) }
{
    let Some((room, _, kind)) = three_parts(call.parts) else {
        return Ok(Asked::Refused(Refused::BadPath));
    };
    let key = Text::new(alloc);
    at_key(alloc, method, call.who, room, kind, key, body)
}

/// To read the content at a key, or to send a state event there, by the method.
#[tactic(auto, unfolding(crate::specs::Events::at_key_asked))]
fn at_key(
    alloc: Global,
    method: &str,
    who: Who,
    room: Text,
    kind: Text,
    key: Text,
    body: &[u8],
) -> Result<Asked, Memory>
    ensures asked { IfOk result (λ asked. asked ≡ at_key_asked method.now who room kind key body.now) }
    ensures sound { IfOk result (λ asked. IsAsked asked) }
{
    if method == "GET" {
        let ask = Ask::GetState { room, kind, key };
        return Ok(Asked::Request(Request { who, ask }));
    }
    match object_body(alloc, body)? {
        Ok(content) => {
            let ask = Ask::PutState {
                room,
                kind,
                key,
                content,
            };
            Ok(Asked::Request(Request { who, ask }))
        }
        Err(refused) => Ok(Asked::Refused(refused)),
    }
}

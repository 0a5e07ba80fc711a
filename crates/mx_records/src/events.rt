//! Events as values, and as the drafts that are read of them.

ghost use Rattle.std.specs.Prelude.{◌≡◌, ◌∷◌, [], IfOk, IfSome, Some, option_map};
ghost use Rattle.mx_records.specs.Fits.{EventFits};
ghost use Rattle.mx_records.specs.Records.{draft_by, draft_in, draft_read, event_json};
ghost use Rattle.mx_records.specs.Values.{option_read, txn_read};

use crate::fault::RecordFault;
use crate::transactions::{push_if_txn, txn_if};
use crate::values::{
    number_of, push_copy, push_if_text, push_number, push_room, push_text, room_of, text_if,
};
use mx_event::{Draft, Event, Txn};
use mx_ids::{Copied, Memory, RoomId, Seq, Text, UserId, user_id};
use mx_json::Json;
use std::alloc::Global;

/// An event as a value: what it was made of, without its position.
pub fn event_value(alloc: Global, event: &Event) -> Result<Json, RecordFault>
    ensures value { IfOk result (λ j. j ≡ event_json event.now) }
    ensures fits { IfOk result (λ j. EventFits event.now) }
{
    let mut parts = Seq::new(alloc);
    push_text(alloc, &mut parts, &event.kind)?;
    push_if_text(alloc, &mut parts, event.state_key.as_ref())?;
    push_text(alloc, &mut parts, event.sender.as_text())?;
    push_copy(alloc, &mut parts, &event.content)?;
    push_number(&mut parts, event.ts)?;
    push_if_txn(alloc, &mut parts, event.txn.as_ref())?;
    push_room(alloc, &mut parts, event.room)?;
    Ok(Json::List(parts))
}

/// The draft of the event that a value says; `None` where it says none, or its sender is no user id.
pub fn read_draft(alloc: Global, json: &Json) -> Result<Option<Draft>, Memory>
    ensures { IfOk result (λ o. IfSome o (λ d. draft_read json.now ≡ Some d)) }
{
    let Some(seen) = seen_draft(json) else {
        return Ok(None);
    };
    let Some(sender) = user_id(seen.sender.copy(alloc)?) else {
        return Ok(None);
    };
    let Some(txn) = txn_if(alloc, seen.txn)? else {
        return Ok(None);
    };
    drafted_of(alloc, seen, sender, txn)
}

/// The parts of an event, as they are seen in a value; its transaction isn't read yet.
#[derive(Clone, Copy)]
struct SeenDraft<'a> {
    kind: &'a Text,
    key: Option<&'a Text>,
    sender: &'a Text,
    content: &'a Json,
    ts: u64,
    txn: &'a Json,
    room: RoomId,
}

fn seen_draft(json: &Json) -> Option<SeenDraft<'_>>
    ensures { IfSome result (λ s. draft_read json.now ≡ draft_by (Some s.kind.now) (Some (option_map (λ t. t.now) s.key)) (Some s.sender.now) s.content.now (Some s.ts)
        (option_read txn_read s.txn.now) (Some s.room)) }
{
    seen_of(draft_parts(json)?)
}

/// The values of which an event is made.
#[derive(Clone, Copy)]
struct DraftParts<'a> {
    kind: &'a Json,
    key: &'a Json,
    sender: &'a Json,
    content: &'a Json,
    ts: &'a Json,
    txn: &'a Json,
    room: &'a Json,
}

fn draft_parts(json: &Json) -> Option<DraftParts<'_>>
    ensures { IfSome result (λ p. draft_read json.now ≡ draft_in (p.kind.now ∷ p.key.now ∷ p.sender.now ∷ p.content.now ∷ p.ts.now ∷ p.txn.now ∷ p.room.now ∷ [])) }
{
    let [kind, key, sender, content, ts, txn, room] = json.as_list()?.as_slice() else {
        return None;
    };
    Some(DraftParts {
        kind,
        key,
        sender,
        content,
        ts,
        txn,
        room,
    })
}

fn seen_of(parts: DraftParts<'_>) -> Option<SeenDraft<'_>>
    ensures { IfSome result (λ s. draft_in (parts.entry.kind.now ∷ parts.entry.key.now ∷ parts.entry.sender.now ∷ parts.entry.content.now ∷ parts.entry.ts.now ∷ parts.entry.txn.now ∷ parts.entry.room.now ∷ [])
        ≡ draft_by (Some s.kind.now) (Some (option_map (λ t. t.now) s.key)) (Some s.sender.now) s.content.now (Some s.ts) (option_read txn_read s.txn.now) (Some s.room)) }
{
    let ((((kind, key), sender), ts), room) = parts
        .kind
        .as_text()
        .zip(text_if(parts.key))
        .zip(parts.sender.as_text())
        .zip(number_of(parts.ts))
        .zip(room_of(parts.room))?;
    Some(SeenDraft {
        kind,
        key,
        sender,
        content: parts.content,
        ts,
        txn: parts.txn,
        room,
    })
}

/// The draft of these parts.
fn drafted_of(
    alloc: Global,
    seen: SeenDraft<'_>,
    sender: UserId,
    txn: Option<Txn>,
) -> Result<Option<Draft>, Memory>
    ensures { IfOk result (λ o. o ≡ draft_by (Some seen.entry.kind.now) (Some (option_map (λ t. t.now) seen.entry.key)) (Some sender) seen.entry.content.now (Some seen.entry.ts) (Some txn) (Some seen.entry.room)) }
{
    let kind = seen.kind.copy(alloc)?;
    let content = seen.content.copy(alloc)?;
    let state_key = copy_if(alloc, seen.key)?;
    Ok(Some(Draft {
        room: seen.room,
        kind,
        state_key,
        sender,
        content,
        ts: seen.ts,
        txn,
    }))
}

fn copy_if(alloc: Global, text: Option<&Text>) -> Result<Option<Text>, Memory>
    ensures { IfOk result (λ copy. copy ≡ option_map (λ t. t.now) text.entry) }
{
    match text {
        Some(text) => Ok(Some(text.copy(alloc)?)),
        None => Ok(None),
    }
}

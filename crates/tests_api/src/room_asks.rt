//! Whether a room is written to as a row says.
use crate::told::{are, body_of, or_none};
use mx_ask::Ask;
use mx_event::Txn;
use mx_ids::Text;
use mx_json::Json;
use std::process::Abort;

fn path_at(txn: &Txn, index: usize) -> &str {
    match txn.path.get(index) {
        Some(part) => part.as_str(),
        None => "none",
    }
}

/// Whether a write with a transaction is what the row says.
fn is_in_txn(
    rt: &impl Abort,
    row: &Json,
    word: &str,
    room: &Text,
    of: &Text,
    txn: &Txn,
    last: &str,
) -> bool {
    let texts = [
        word,
        room.as_str(),
        of.as_str(),
        txn.id.as_str(),
        path_at(txn, 0),
        path_at(txn, 1),
        path_at(txn, 2),
        last,
    ];
    are(rt, row, texts.as_slice())
}

fn is_of_user(
    rt: &impl Abort,
    row: &Json,
    word: &str,
    room: &Text,
    user: &Text,
    reason: &Option<Text>,
) -> bool {
    let texts = [word, room.as_str(), user.as_str(), or_none(reason)];
    are(rt, row, texts.as_slice())
}

fn is_own(rt: &impl Abort, row: &Json, word: &str, room: &Text, reason: &Option<Text>) -> bool {
    are(rt, row, [word, room.as_str(), or_none(reason)].as_slice())
}

fn is_at_key(
    rt: &impl Abort,
    row: &Json,
    word: &str,
    room: &Text,
    kind: &Text,
    key: &Text,
) -> bool {
    let texts = [word, room.as_str(), kind.as_str(), key.as_str()];
    are(rt, row, texts.as_slice())
}

fn is_state(
    rt: &impl Abort,
    row: &Json,
    room: &Text,
    kind: &Text,
    key: &Text,
    content: &Json,
) -> bool {
    let texts = [
        "state",
        room.as_str(),
        kind.as_str(),
        key.as_str(),
        body_of(content),
    ];
    are(rt, row, texts.as_slice())
}

/// Whether a user's membership is changed.
fn is_membership(rt: &impl Abort, row: &Json, ask: &Ask) -> bool {
    match ask {
        Ask::Invite { room, user, reason } => is_of_user(rt, row, "invite", room, user, reason),
        Ask::Kick { room, user, reason } => is_of_user(rt, row, "kick", room, user, reason),
        Ask::Ban { room, user, reason } => is_of_user(rt, row, "ban", room, user, reason),
        Ask::Unban { room, user, reason } => is_of_user(rt, row, "unban", room, user, reason),
        _ => false,
    }
}

/// Whether the caller's own membership is changed, or another user's.
fn is_move(rt: &impl Abort, row: &Json, ask: &Ask) -> bool {
    match ask {
        Ask::Join { room, reason } => is_own(rt, row, "join", room, reason),
        Ask::Leave { room, reason } => is_own(rt, row, "leave", room, reason),
        _ => is_membership(rt, row, ask),
    }
}

/// Whether state is set or read.
fn is_keyed(rt: &impl Abort, row: &Json, ask: &Ask) -> bool {
    match ask {
        Ask::PutState {
            room,
            kind,
            key,
            content,
        } => is_state(rt, row, room, kind, key, content),
        Ask::GetState { room, kind, key } => is_at_key(rt, row, "get", room, kind, key),
        _ => is_move(rt, row, ask),
    }
}

/// Whether this is what the row says.
pub fn is_room_ask(rt: &impl Abort, row: &Json, ask: &Ask) -> bool {
    match ask {
        Ask::CreateRoom { body } => are(rt, row, ["create", body_of(body)].as_slice()),
        Ask::Send {
            room,
            kind,
            txn,
            content,
        } => is_in_txn(rt, row, "send", room, kind, txn, body_of(content)),
        Ask::Redact {
            room,
            event,
            txn,
            reason,
        } => is_in_txn(rt, row, "redact", room, event, txn, or_none(reason)),
        _ => is_keyed(rt, row, ask),
    }
}

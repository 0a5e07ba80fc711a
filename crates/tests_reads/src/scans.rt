//! What is read of a list of events by plain scans. A list is compared by the digest of its positions.

use mx_event::Event;
use mx_ids::{RoomId, Text, UserId};

/// The digest of a list with one position more.
pub fn with(digest: u64, position: u64) -> u64 {
    digest.wrapping_mul(31).wrapping_add(position)
}

pub fn digest(events: &[&Event]) -> u64 {
    let mut sum = 0u64;
    for event in events {
        sum = with(sum, event.id.at);
    }
    sum
}

/// Which events of a room are asked for.
#[derive(Clone, Copy)]
pub enum Look {
    All,
    Members,
    States,
    Versions,
}

/// The type of the versions that are asked for, which have the empty key.
pub const KIND: &str = "m.room.history_visibility";

fn is_member(event: &Event) -> bool {
    event.is_of("m.room.member") && event.state_key.is_some()
}

fn passes(look: Look, event: &Event) -> bool {
    match look {
        Look::All => true,
        Look::Members => is_member(event),
        Look::States => event.state_key.is_some(),
        Look::Versions => event.has_key(KIND, ""),
    }
}

/// The events of a room in a window that are asked for.
pub fn scanned(events: &[Event], look: Look, room: &RoomId, low: u64, high: u64) -> u64 {
    let mut sum = 0u64;
    for event in events {
        let at = event.id.at;
        if low < at && at <= high && event.room == *room && passes(look, event) {
            sum = with(sum, at);
        }
    }
    sum
}

/// The last of them up to a position, or 0.
pub fn last_scanned(events: &[Event], look: Look, room: &RoomId, high: u64) -> u64 {
    let mut last = 0;
    for event in events {
        if event.id.at <= high && event.room == *room && passes(look, event) {
            last = event.id.at;
        }
    }
    last
}

/// Whether a later event up to a position has the key of a state event.
fn is_replaced(events: &[Event], event: &Event, key: &Text, high: u64) -> bool {
    events.iter().any(|other| {
        event.id.at < other.id.at
            && other.id.at <= high
            && other.room == event.room
            && other.has_key(event.kind.as_str(), key.as_str())
    })
}

fn stands(events: &[Event], event: &Event, high: u64) -> bool {
    match &event.state_key {
        Some(key) => !is_replaced(events, event, key, high),
        None => false,
    }
}

/// The state of a room at `high`, as far as it lies after `low`.
pub fn state_scanned(events: &[Event], room: &RoomId, low: u64, high: u64) -> u64 {
    let mut sum = 0u64;
    for event in events {
        let at = event.id.at;
        if low < at && at <= high && event.room == *room && stands(events, event, high) {
            sum = with(sum, at);
        }
    }
    sum
}

/// The member events in the state of a room.
pub fn members_scanned(events: &[Event], room: &RoomId, high: u64) -> u64 {
    let mut sum = 0u64;
    for event in events {
        let here = event.id.at <= high && event.room == *room;
        if here && is_member(event) && stands(events, event, high) {
            sum = with(sum, event.id.at);
        }
    }
    sum
}

/// How many of them give a membership.
pub fn count_scanned(events: &[Event], room: &RoomId, high: u64, membership: &str) -> u64 {
    let mut count = 0u64;
    for event in events {
        let here = event.id.at <= high && event.room == *room;
        let gives = is_text(event.content.text_at("membership"), membership);
        if here && is_member(event) && gives && stands(events, event, high) {
            count = count.saturating_add(1);
        }
    }
    count
}

/// The first event up to `high` that redacts the one at a position, or 0.
pub fn first_scanned(events: &[Event], position: u64, high: u64) -> u64 {
    for event in events {
        let at = event.id.at;
        if position < at && at <= high && event.named_id().map(|id| id.at) == Some(position) {
            return at;
        }
    }
    0
}

/// What the content of the last state event of a key has at a name.
fn last_text<'a>(
    events: &'a [Event],
    room: &RoomId,
    key: (&str, &str),
    high: u64,
    name: &str,
) -> Option<&'a Text> {
    let mut last = None;
    for event in events {
        if event.id.at <= high && event.room == *room && event.has_key(key.0, key.1) {
            last = event.content.text_at(name);
        }
    }
    last
}

fn is_text(found: Option<&Text>, wanted: &str) -> bool {
    match found {
        Some(text) => text.as_str() == wanted,
        None => false,
    }
}

fn joins_later(events: &[Event], user: &UserId, event: &Event, front: u64) -> bool {
    events.iter().any(|other| {
        event.id.at < other.id.at
            && other.id.at <= front
            && other.room == event.room
            && other.has_key("m.room.member", user.as_str())
            && is_text(other.content.text_at("membership"), "join")
    })
}

fn allows(events: &[Event], user: &UserId, room: &RoomId, at: u64, later: bool) -> bool {
    let own = last_text(
        events,
        room,
        ("m.room.member", user.as_str()),
        at,
        "membership",
    );
    let setting = last_text(events, room, (KIND, ""), at, "history_visibility");
    if is_text(setting, "joined") {
        is_text(own, "join")
    } else if is_text(setting, "invited") {
        is_text(own, "join") || is_text(own, "invite")
    } else {
        is_text(setting, "world_readable") || is_text(own, "join") || later
    }
}

/// Whether a user sees an event at a front.
pub fn sees(events: &[Event], user: &UserId, event: &Event, front: u64) -> bool {
    let at = event.id.at;
    let later = joins_later(events, user, event, front);
    let before = event.has_key(KIND, "") || event.has_key("m.room.member", user.as_str());
    allows(events, user, &event.room, at, later)
        || (before && allows(events, user, &event.room, at.saturating_sub(1), later))
}

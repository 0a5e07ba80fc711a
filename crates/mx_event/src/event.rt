//! An event of a room, as it is stored and as it is shown.
ghost use Rattle.std.specs.Prelude.{◌≡◌, option_map};
ghost use Rattle.mx_event.specs.Forms.{redacts_of};
ghost use Rattle.mx_event.specs.Kinds.{has_key, is_of, is_redaction};
ghost use Rattle.mx_event.specs.Shown.{named_id};

use crate::event_types::REDACTION;
use mx_ids::{EventId, RoomId, Seq, Text, UserId, read_event_id};
use mx_json::Json;

/// An event of a room (Client-Server API, Events). It is a state event where it has a state key.
#[derive(Debug, Drop)]
pub struct Event {
    /// Its position in the stream of events.
    pub id: EventId,
    pub room: RoomId,
    /// The event type, as `m.room.message`.
    pub kind: Text,
    pub state_key: Option<Text>,
    pub sender: UserId,
    pub content: Json,
    /// `origin_server_ts`: milliseconds since 1970, at most 9,007,199,254,740,991.
    pub ts: u64,
    /// The transaction by which a device sent it.
    pub txn: Option<Txn>,
    /// Whether the content has a key `url` as it was sent. Redaction keeps it, as filters by `contains_url` read it.
    pub has_url: bool,
}

/// A transaction of a device (Client-Server API, Transaction identifiers): its id, on the decoded parts of a path.
#[derive(Debug, Drop)]
pub struct Txn {
    /// The device's number in the users file.
    pub device: u32,
    pub id: Text,
    /// The decoded parts of the request's path from `{roomId}` on, without the transaction id: `[room, "send", type]` or
    /// `[room, "redact", event]`.
    pub path: Seq<Text>,
}

/// An event as it is shown at a front: redacted where a redaction up to that front names it.
#[derive(Debug, Drop)]
pub struct Shown {
    pub event: Event,
    /// The first redaction that names it, as shown at the same front.
    pub because: Option<Event>,
}

impl Event {
    /// Whether the event is of a type, whatever its state key.
    pub fn is_of(&self, kind: &str) -> bool
        ensures { result ≡ is_of kind.now self.now }
    {
        self.kind.as_str() == kind
    }

    /// Whether the event is the state event of a type and a state key (Client-Server API, Types of room events).
    pub fn has_key(&self, kind: &str, key: &str) -> bool
        ensures { result ≡ has_key kind.now key.now self.now }
    {
        match &self.state_key {
            Some(found) => self.is_of(kind) && found.as_str() == key,
            None => false,
        }
    }

    /// Whether the event is a redaction: a message event of type `m.room.redaction` (Room Version 11, Redactions).
    pub fn is_redaction(&self) -> bool
        ensures { result ≡ is_redaction self.now }
    {
        self.kind.as_str() == REDACTION && self.state_key.is_none()
    }

    /// What a redaction has at the key `redacts` of its content: in a well-formed one the id of the event
    /// that it redacts. `None` where the event is no redaction, or has nothing there.
    pub fn redacts(&self) -> Option<&Json>
        ensures { option_map (λ j. j.now) result ≡ redacts_of self.now }
    {
        if self.is_redaction() {
            self.content.field("redacts")
        } else {
            None
        }
    }

    /// The id of the event that a redaction names, if it is that of an event of its sender's server. `None` where the event
    /// is no redaction. Takes no memory.
    pub fn named_id(&self) -> Option<EventId>
        ensures { result ≡ named_id self.now }
    {
        if self.is_redaction() {
            let named = self.content.text_at("redacts")?;
            read_event_id(named.as_str(), self.sender.server())
        } else {
            None
        }
    }
}

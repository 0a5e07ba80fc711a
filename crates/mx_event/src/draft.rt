//! An event before it is admitted to its room.
ghost use Rattle.std.specs.Prelude.{◌≡◌};
ghost use Rattle.mx_event.specs.Drafts.{drafted};

use crate::event::{Event, Txn};
use mx_ids::{EventId, RoomId, Text, UserId};
use mx_json::Json;

/// An event that a user asks to send, before it has a position.
#[derive(Debug, Drop)]
pub struct Draft {
    /// The room, at position 0 where the draft is one of a block that creates its room.
    pub room: RoomId,
    /// The event type, as `m.room.message`.
    pub kind: Text,
    pub state_key: Option<Text>,
    pub sender: UserId,
    pub content: Json,
    /// `origin_server_ts`: milliseconds since 1970, at most 9,007,199,254,740,991.
    pub ts: u64,
    /// The transaction by which a device sends it.
    pub txn: Option<Txn>,
}

impl Draft {
    /// The event that the draft makes, before it has a position. Takes no memory.
    pub fn into_event(self) -> Event
        ensures { result ≡ drafted self }
    {
        let has_url = self.content.field("url").is_some();
        Event {
            id: EventId { at: 0 },
            room: self.room,
            kind: self.kind,
            state_key: self.state_key,
            sender: self.sender,
            content: self.content,
            ts: self.ts,
            txn: self.txn,
            has_url,
        }
    }
}

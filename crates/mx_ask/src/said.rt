//! What is told.

use crate::refusal::Refusal;
use mx_event::Shown;
use mx_ids::{EventId, Memory, RoomId, Seq, Text, UserId};
use mx_json::Json;
use mx_pager::Page;
use mx_sync::Reply;

/// What is answered.
#[derive(Drop)]
pub enum Said {
    Refused(Refusal),
    /// Who asks: the user, and the name of the device.
    Named(UserId, Text),
    /// That it was done.
    Done,
    /// The event that was sent.
    Sent(EventId),
    /// The room that was created or joined.
    Room(RoomId),
    /// The rooms that the caller is joined in: by writer, then by position.
    Rooms(Seq<RoomId>),
    /// A value that is answered as it is: the content of a state event or of account data, a filter, tags, or push rules.
    Content(Json),
    /// The events of a room's state, in order of position.
    State(Seq<Shown>),
    /// The member events of a room's state, in order of position.
    Members(Seq<Shown>),
    /// An event.
    Event(Shown),
    /// A page of a room's events.
    Paged(Page),
    /// The reply to a sync.
    Synced(Reply),
    /// The id of a filter that was stored.
    Filter(u64),
    /// That the allocator refused.
    NoMemory(Memory),
}

//! What a reply sends of a room's events.

use mx_event::Shown;
use mx_ids::Seq;

/// What a reply sends of the events of a joined or left room (Client-Server API, Syncing).
#[derive(Drop)]
pub struct RoomPart {
    /// An event that may be sent isn't in the timeline.
    pub limited: bool,
    /// The position of `prev_batch`.
    pub cut: u64,
    pub state: Seq<Shown>,
    pub timeline: Seq<Shown>,
}

//! A room as a user's filter reads it.

use mx_filter::Filter;
use mx_ids::{RoomId, Text, UserId};
use mx_snapshot::Events;

/// A room, with the user and the filter by which it is read. Events are judged and shown at the front of `events`.
#[derive(Clone, Copy)]
pub struct Reading<'a> {
    pub events: &'a Events,
    pub room: &'a RoomId,
    /// The text of the room's id.
    pub room_text: &'a Text,
    pub user: &'a UserId,
    pub filter: &'a Filter,
}

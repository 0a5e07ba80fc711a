//! What push rules read beside the event.
use mx_auth::AuthState;
use mx_ids::{Text, UserId};

/// What push rules read beside the event: for whom they are tried, and the room as it was before the event.
#[derive(Clone, Copy)]
pub struct Context<'a> {
    /// Whose rules they are.
    pub user: &'a UserId,
    /// The text `displayname` of the user's member event that stands in the room (Client-Server API, m.room.member).
    pub name: Option<&'a Text>,
    /// How many members are joined in the room.
    pub joined: u64,
    /// The state of the room.
    pub state: &'a AuthState,
    /// The text of the room's id.
    pub room: &'a str,
    /// The text of the event's id.
    pub event_id: &'a str,
}

//! The summary of a room.

use mx_ids::{Seq, Text};

/// The summary of a room's members, for one of them (Client-Server API, Syncing, RoomSummary).
#[derive(Debug, Drop)]
pub struct Summary {
    /// The ids of the first five other users who are joined or invited, by position of their member event; where there is
    /// none, of the first five who left or are banned.
    pub heroes: Seq<Text>,
    /// How many users are joined.
    pub joined: u64,
    /// How many users are invited.
    pub invited: u64,
}

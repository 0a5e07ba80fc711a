ghost use Rattle.std.specs.Prelude.{◌≡◌, option_map};
ghost use Rattle.mx_account.specs.Entries.{are_placed, pair_now, pair_of, placed_at};

use mx_ids::{Copied, Memory, RoomId, Text, UserId};
use mx_json::Json;
use mx_lanes::Placed;
use std::alloc::Global;

/// An item of the stream of account data.
#[derive(Debug, Drop)]
pub enum Entry {
    /// Account data that a user set under a type, global or of a room (Client-Server API, Client Config).
    Data {
        /// The user that set the data, and alone receives it.
        user: UserId,
        /// The room, or `None` where the data is global.
        room: Option<RoomId>,
        /// The type.
        kind: Text,
        /// The content.
        content: Json,
        /// The item's position in the stream of account data, from 1, below 2^48.
        at: u64,
    },
    /// A filter that a user stored (Client-Server API, Filtering). It is in no sync's account data.
    Filter {
        /// The user that stored the filter, and alone reads it.
        user: UserId,
        /// The filter's id, whose text is decimal: the user's filters are numbered from 0.
        id: u64,
        /// The filter as it was given.
        filter: Json,
        /// The item's position in the stream of account data, from 1, below 2^48.
        at: u64,
    },
}

impl Entry {
    /// The type and the content of the entry, if it is data of this user and room. Takes no memory.
    pub(crate) fn pair_of(&self, user: &UserId, room: Option<RoomId>) -> Option<(&Text, &Json)>
        ensures { option_map pair_now result ≡ pair_of user.now room self.now }
    {
        match self {
            Entry::Data {
                user: own_user,
                room: own_room,
                kind,
                content,
                ..
            } if own_user == user && *own_room == room => Some((kind, content)),
            Entry::Data { .. } | Entry::Filter { .. } => None,
        }
    }
}

impl Copied for Entry {
    fn copy(&self, alloc: Global) -> Result<Entry, Memory> {
        match self {
            Entry::Data {
                user,
                room,
                kind,
                content,
                at,
            } => Ok(Entry::Data {
                user: user.copy(alloc)?,
                room: *room,
                kind: kind.copy(alloc)?,
                content: content.copy(alloc)?,
                at: *at,
            }),
            Entry::Filter {
                user,
                id,
                filter,
                at,
            } => Ok(Entry::Filter {
                user: user.copy(alloc)?,
                id: *id,
                filter: filter.copy(alloc)?,
                at: *at,
            }),
        }
    }
}

/// Items of a store are lawful where each stands at its own position.
impl Placed for Entry {
    ghost lawful = { λ writer before first items. are_placed first items };

    ghost placed = { λ entry first at. placed_at entry at };

    fn place(&mut self, _first: u64, at: u64) {
        match self {
            Entry::Data { at: own, .. } => *own = at,
            Entry::Filter { at: own, .. } => *own = at,
        }
    }
}

//! The reply to a sync (Client-Server API, Syncing): what is said of each of the user's rooms, and the user's account
//! data.
//!
//! The call is `reply`: the reply to a [`SyncAsk`] on what a snapshot has. It is exactly the one of its definition,
//! room by room, with each event as the user is shown it; or `TokenAhead` exactly where a position of `since` lies
//! after its stream's front. Where few events and receipts came after it, only the rooms in which they came are gone
//! through, and those of the user's account data; else a room in which nothing came costs look-ups alone.
//! `Reply::is_empty` is whether there is nothing to tell.
//!
//! The law `replies_are` says that this is *Reply*, the reply of which the laws on chains speak.
//!
//! Begin with `sync_ask.rt` and `sync_reply.rt`, which have the types, then `answering.rt` and `specs/Replies.antt`;
//! `rooms.rt` goes over the rooms that `candidates.rt` finds.
#![tactic(auto)]

mod account_data;
mod answering;
mod candidates;
mod fault;
mod invites;
mod joined_rooms;
mod known;
mod laws;
mod left_rooms;
mod quiet_rooms;
mod room_ask;
mod room_reply;
mod rooms;
mod sync_ask;
mod sync_reply;

pub use answering::{reply, reply_with};
pub use fault::SyncFault;
pub use known::Known;
pub use laws::replies_are;
pub use sync_ask::SyncAsk;
pub use sync_reply::{InvitedRoom, JoinedRoom, LeftRoom, Reply, RoomRest};

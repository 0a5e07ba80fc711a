//! The reply to a sync as JSON (Client-Server API, Syncing).
//!
//! The call is `reply_form`: the JSON of a reply as a device sees it is exactly the one of its definition, with
//! events in client form without their room, and rooms under the texts of their ids. `Memory` comes where an
//! allocation is refused.
//!
//! What a client reads of this JSON is what the reply has: `mx_copy` proves it.
//!
//! Begin with `writing.rt` and `specs/Replies.antt`; `rooms.rt` with `specs/Rooms.antt` has the objects of the rooms.
#![tactic(auto)]

mod accounts;
mod keyed;
mod members;
mod numbers;
mod receipts;
mod rooms;
mod shown;
mod writing;

pub use writing::reply_form;

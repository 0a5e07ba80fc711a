//! What is read of rooms (Client-Server API, Getting events for a room, and Room membership): the rooms of a user, a
//! room's state and members, and one event.
//!
//! The calls are `joined_rooms`, `state_content`, `room_state`, `room_members` and `one_event`, one for each route.
//! Each is told exactly what its definition says of the lists that the snapshot has: to a user who is joined the
//! state at the front, to one who left that at which the latest stay ended, each event as it is shown to the user; or
//! that it isn't there, or that the user has no access.
//!
//! `has_room` and `is_joined` are what the refusals ask, and `seen_event` is the event that a text names, if the user
//! sees it.
//!
//! Begin with `places.rt` and `specs/Places.antt`, then `room_states.rt` and `specs/Reads.antt`.
#![tactic(auto)]

mod contents;
mod lone_events;
mod member_lists;
mod places;
mod room_states;
mod showing;
mod user_rooms;

pub use contents::state_content;
pub use lone_events::{one_event, seen_event};
pub use member_lists::room_members;
pub use mx_ask::{Refusal, Said, Who};
pub use mx_rest::rules_at;
pub use places::{has_room, is_joined};
pub use room_states::room_state;
pub use user_rooms::joined_rooms;

//! What calls on rooms ask: to create one, to send and redact events, to read the state at a key, and to change
//! memberships.
//!
//! The call is `ask_room`: what a call asks of the engine, exactly by definition, or the first refusal that applies
//! in the order of `mx_api`; `NoRoute` where its path finds none of these routes. What is asked meets the conditions
//! that the engine's calls put on it: the body of a creation has its form, and the path of a transaction names its
//! room.
//!
//! `room_routes` makes the table of the routes, once for a server.
//!
//! Begin with `route.rt`, which lists the routes, then `ask.rt`; `specs/Asked.antt` and `specs/Routes.antt` have the
//! definitions.
#![tactic(auto)]

mod ask;
mod creation;
mod events;
mod membership;
mod route;

pub use ask::{RoomRoutes, ask_room, room_routes};

//! What calls that read rooms ask, and those that mark what was read: joined rooms, state, members, an event, pages,
//! receipts and read markers (Client-Server API, Getting events for a room, Receipts, Fully read markers).
//!
//! The call is `ask_read`: what a call asks of the engine, exactly by definition, or the first refusal that applies
//! in the order of `mx_api`; `NoRoute` where its path finds none of these routes. The limit of a page that is asked
//! for is at most 1,000.
//!
//! `read_routes` makes the table of the routes, once for a server.
//!
//! Begin with `route.rt`, which lists the routes, then `ask.rt`; `specs/Asked.antt` and `specs/Routes.antt` have the
//! definitions. `page_query.rt` reads the parameters of a page.
#![tactic(auto)]

mod ask;
mod markers;
mod messages;
mod page_query;
mod reads;
mod route;

pub use ask::{ReadRoutes, ask_read, read_routes};

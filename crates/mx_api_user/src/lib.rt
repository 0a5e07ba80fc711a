//! What calls on a user's own data ask: who it is, a sync, a filter, account data, tags and push rules.
//!
//! The call is `ask_user`: what a call asks of the engine, exactly by definition, or the first refusal that applies
//! in the order of `mx_api`; `NoRoute` where its path finds none of these routes. What is asked meets the conditions
//! that the engine's calls put on it.
//!
//! `user_routes` makes the table of the routes, once for a server.
//!
//! Begin with `route.rt`, which lists the routes, then `ask.rt`; `specs/Asked.antt` and `specs/Routes.antt` have the
//! definitions. `sync.rt` and `sync_query.rt` read the parameters of a sync.
#![tactic(auto)]

mod account;
mod ask;
mod filters;
mod parts;
mod route;
mod rule_names;
mod rules;
mod sync;
mod sync_query;
mod tags;

pub use ask::{UserRoutes, ask_user, user_routes};

//! What the calls of the Client-Server API have in common: which route a path has, who calls, and why a call is
//! refused before an engine is asked.
//!
//! The call is `ask_at`: what a call asks by a table of endpoints, exactly by definition, or the first refusal that
//! applies. An [`Endpoint`] is a path with parameters, its methods, and what a call on it asks; the crates of routes
//! have one type of endpoints each. `authenticate` finds the caller by the access token (Client-Server API, Using
//! access tokens), `object_body` and `post_body` read a body, and the rest reads parts of a path and values of a
//! query.
//!
//! [`Refused`] lists the refusals in the order in which they are judged, each with its status, code and text.
//!
//! Begin with `endpoint.rt`, then `asked.rt` and `refused.rt`; `specs/Endpoints.antt` has the definition.
#![tactic(auto)]

mod asked;
mod authenticated;
mod bodies;
mod depth;
mod endpoint;
mod parts;
mod queries;
mod refused;
mod routing;
mod texts;
mod tokens;

pub use asked::Asked;
pub use authenticated::{Authenticated, authenticate};
pub use bodies::{json_value, object_body, post_body, text_field};
pub use endpoint::{Endpoint, ask_at};
pub use parts::{four_parts, one_part, room_of, three_parts, two_parts};
pub use queries::{begins_object, first_wrong, number_within, value_at};
pub use refused::{Field, Parameter, Refused, refused_json};
pub use routing::{TableFault, router_of};
pub use texts::{error_json, text};
pub use tokens::{page_token_of, sync_token_of};

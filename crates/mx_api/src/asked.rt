//! What a call asks.

use crate::refused::Refused;
use mx_ask::Request;

/// What a call asks, as the routes of one crate read it.
#[derive(Drop)]
pub enum Asked {
    /// No route of these has the path.
    NoRoute,
    /// The first refusal that applies.
    Refused(Refused),
    /// A request of an engine.
    Request(Request),
}

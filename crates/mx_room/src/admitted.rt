//! What becomes of a draft.

use mx_event::Event;
use mx_ids::EventId;

/// An event that its room admits, before it has a position.
#[derive(Debug, Drop)]
pub struct Ready {
    pub event: Event,
}

/// What becomes of a draft that isn't refused.
#[derive(Debug, Drop)]
pub enum Admitted {
    /// The event may be stored.
    Ready(Ready),
    /// The device sent it before, in the transaction that the draft names: the id of that event.
    Repeat(EventId),
}

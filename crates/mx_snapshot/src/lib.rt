//! What a reader knows of the streams: the events, receipts and account data up to their fronts, with indices that
//! grow with them, so that a look-up costs what it answers and not the history.
//!
//! The type is [`Snapshot`], of [`Events`], [`Receipts`] and [`Accounts`], which contracts see as lists. `advance` of
//! each goes on to a later front of its stream: the list is then that of all items up to it, and only those after the
//! old front are looked at. For want of memory the list is left empty, and the next `advance` takes in all.
//!
//! Each look-up is a plain definition over the list, and says what it costs: the events of a room in a window, its
//! state at a position, the last version of a state key, the first redaction of an event, a user's rooms, receipts,
//! data and filters. `first_redactions_are` says that in valid rooms that redaction is of the event's own room.
//!
//! Begin with `snapshot.rt`, then `events.rt`, whose contracts cite `specs/Events.antt`.
#![tactic(auto)]

mod account_index;
mod accounts;
mod event_index;
mod events;
mod gather;
mod last_versions;
mod laws;
mod lists;
mod looks;
mod named;
mod positions;
mod receipt_index;
mod receipts;
mod snapshot;
mod steps;

pub use accounts::Accounts;
pub use events::Events;
pub use laws::{first_redactions_are, snapshots_cross_threads};
pub use receipts::Receipts;
pub use snapshot::Snapshot;
pub use steps::Steps;

//! The events of a room (Client-Server API, Events): the type, redaction, the form in which a device sees an event,
//! and its size; and the definitions of a room's state and of the authorization rules, which the crates above cite.
//!
//! The calls are `redact`, `client_form` and `fits`, each with one clause: its answer is the definition's. `redact`
//! keeps what Room Version 11 (Redactions) keeps for the type; `client_form` is the JSON for a device, with the
//! redaction for which the event is redacted; `fits` is whether the event is at most 65,536 bytes.
//!
//! The law that all above rests on is `rooms_are_valid`: in an orderly history of lawful stores each room's list up
//! to the front is valid, so no event is denied after those before it. `redacts_once` and `shown_stays` are those on
//! redaction.
//!
//! Begin with `event.rt`, then `redaction.rt` with `specs/Redaction.antt`. `specs/State.antt` and `specs/Denied.antt`
//! have the state and the rules.
#![tactic(auto)]

mod copied;
mod draft;
mod event;
pub mod event_types;
mod forms;
mod laws;
mod placed;
mod redaction;
mod size;

pub use draft::Draft;
pub use event::{Event, Shown, Txn};
pub use forms::client_form;
pub use laws::{lawful_is_valid, names_stay, redacts_once, rooms_are_valid, shown_stays};
pub use mx_core::crosses_threads;
pub use redaction::redact;
pub use size::fits;

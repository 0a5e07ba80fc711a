//! What a client reads of the JSON of replies and pages: it is what the replies and pages hold. The crate has
//! definitions and laws, and no code that runs.
//!
//! The laws are `replies_read_back` and `pages_read_back`: what a client finds by the keys of the standard
//! (Client-Server API, Syncing, and Getting events for a room) is what the reply or the page has, each member of each
//! room, and each event with the redaction that is shown (`events_read_back`). `rooms_are_found` says that a room
//! stands under the text of its id, and no room twice.
//!
//! `texts_read_back` says the same of the texts that are sent, where the JSON may be written, and `may_be_written`
//! when it may.
//!
//! Begin with `specs/Looks.antt`, how a client looks things up, then `specs/Replies.antt` and `laws.rt`.
#![tactic(auto)]

mod laws;

pub use laws::{
    events_read_back, may_be_written, pages_read_back, replies_read_back, rooms_are_found,
    texts_read_back,
};

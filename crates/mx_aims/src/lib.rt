//! What the requests of users ask of the writers of a server, and the writer of events.
//!
//! A [`Site`] is a server: its users, and the number of writers of each stream. For each route that writes a method
//! of it (`send_aim`, `state_aim`, `join_aim`, `create_aim` and the like) gives an aim: which writer is asked, and
//! what it is asked to store; or why the request is refused before a writer is asked. Each is exactly what its
//! definition says.
//!
//! [`Rooms`] is the value of the writer of events, a `Folds` of `mx_writers` over a `RoomBook`: what it decides on
//! its own stores on an event, a join, the end of a ban and the first events of a room. `event_refusal` and
//! `entry_refusal` say why a writer stores nothing, as a user is told it.
//!
//! Begin with `aim.rt` and `site.rt`, then `routes.rt` with `specs/Aims.antt`; `events.rt` has the writer.
#![tactic(auto)]

mod again;
mod aim;
mod contents;
mod creation;
mod entry_aims;
mod events;
mod lookups;
mod marker_aims;
mod refusals;
mod routes;
mod site;
mod start;

pub use again::event_draft;
pub use aim::{Aim, Told};
pub use creation::Creation;
pub use entry_aims::{EntryAim, ReceiptAim};
pub use events::{EventDraft, EventFault, Rooms};
pub use marker_aims::{NoteAim, marker_draft};
pub use refusals::{entry_refusal, event_refusal};
pub use site::Site;
pub use start::rooms;

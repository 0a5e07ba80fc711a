//! Rooms as users see them: how the events of a room are read, what a filter keeps of them, how they are shown, and
//! what a reply and a picture say of a room. The crate has definitions and laws, and no code that runs.
//!
//! It is the folding law's room (`mx_folding`) over events as they are stored (`mx_event`). The law is
//! `valid_is_story`: a valid list of a room's events is a room of the folding law, whatever the filter and the user;
//! so `valid_folds` holds of it. `same_told` and `same_paged` say that a reply and a page at a front are the same
//! over a list that goes on.
//!
//! Each law is the contract of a function with an empty body.
//!
//! Begin with `specs/Rooms.antt` and `specs/Valid.antt`, then `laws.rt`.
#![tactic(auto)]

mod laws;

pub use laws::{pictures_are, same_paged, same_read, same_told, valid_folds, valid_is_story};
pub use mx_event::Event;

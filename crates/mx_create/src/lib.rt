//! The events by which a room is created (Client-Server API, `POST /createRoom`).
//!
//! The calls are `block` and `admit_block`. `block` gives the drafts that a body asks for, in the order in which they
//! stand in the room: the create event, the creator's join, power levels, join rules, history visibility and guest
//! access by the preset, `initial_state`, name, topic, and an invitation for each that is invited; or the first
//! fault. `admit_block` judges them as the first events of a room of a writer, and readies them in its `RoomBook`; or
//! it gives the first fault, and the rooms are as they were.
//!
//! The law `block_is_lawful` says that what is admitted is a lawful store after the writer's own stores.
//!
//! Begin with `creation.rt` and `specs/Blocks.antt`, then `admission.rt`; `wrong_field` of `body.rt` says what of a
//! body isn't of its form.
#![tactic(auto)]

mod admission;
mod body;
mod contents;
mod creation;
mod fault;
mod invited;
mod laws;
mod preset;

pub use admission::admit_block;
pub use body::{BodyField, is_create_body, wrong_field};
pub use creation::block;
pub use fault::CreateFault;
pub use laws::block_is_lawful;
pub use preset::Preset;

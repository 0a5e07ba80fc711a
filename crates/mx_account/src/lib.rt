//! Account data (Client-Server API, Client Config): the items of their stream, among them stored filters, and what is
//! read of a list of them.
//!
//! The call is `value`: the content of a user's account data of a type at a position, of a room or global, which is
//! that of the last entry of this user, room and type; `None` exactly where there is none. `data_after` answers what
//! the entries after a position set: under each type the last content, in byte order of types.
//!
//! `with_tag` and `without_tag` give the content of `m.tag` with one tag set or taken out, and all else as it was
//! (Client-Server API, Room Tagging).
//!
//! Begin with `entry.rt`, then `values.rt` with `specs/Values.antt`; `tags.rt` stands by itself.
#![tactic(auto)]

mod account_data;
mod entry;
mod tags;
mod values;

pub use account_data::data_after;
pub use entry::Entry;
pub use tags::{tags_of, with_tag, without_tag};
pub use values::value;

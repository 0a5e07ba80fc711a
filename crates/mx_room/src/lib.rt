//! The rooms of one writer: which drafts they admit, and what they are after the writer's stores.
//!
//! The type is [`RoomBook`], which contracts see as the writer's own stores. The calls are `weigh`, which needs no room, and `admit`: what becomes of a
//! draft is what its definition says of these stores. It is an event that may be stored, the id of the event that the
//! device sent before in the same transaction (Client-Server API, Transaction identifiers), or a refusal, by the
//! first cause in their order; a refusal leaves the rooms as they were. `take_in` then stores the block that is
//! ready, without memory.
//!
//! The law `ready_is_lawful` is what the running stream asks of a store: what a writer's rooms admit is lawful after
//! the writer's own stores, wherever it stands.
//!
//! Begin with `room_book.rt` and `specs/Books.antt`; `admitted.rt` and `fault.rt` are the answers.
#![tactic(auto)]

mod admitted;
mod fault;
mod judged;
mod laws;
mod ledger;
mod room_book;
mod rooms;
mod txn_key;
mod txns;
mod weighed;

pub use admitted::{Admitted, Ready};
pub use fault::RoomFault;
pub use laws::ready_is_lawful;
pub use room_book::{RoomBook, book};
pub use weighed::{Weighed, weigh};

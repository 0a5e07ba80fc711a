//! Receipts (Client-Server API, Receipts): the items of their stream, and what is read of a list of them.
//!
//! The calls are `standing` and `furthest`. `standing` is the last receipt of a user in a room, of a kind, that is
//! stored up to a position, or `None` exactly where there is none. `furthest` is the greatest position of an event
//! that a user's receipts in a room name. Both take no memory and walk the list in place.
//!
//! A [`Receipt`] is an item of a stream: it can be copied, and be placed at a position, exactly.
//!
//! Begin with `receipt.rt`, then `reading.rt` and the definitions that its contracts cite, in `specs/Receipts.antt`.
//! The crate is small, and shows each kind of file that a crate here has.
#![tactic(auto)]

mod reading;
mod receipt;

pub use mx_lanes::Parts;
pub use reading::{furthest, standing};
pub use receipt::{Receipt, ReceiptKind};

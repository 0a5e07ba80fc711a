//! What a request asks of the streams: an answer that is read off what they cover, or a write of one of them.
//!
//! `kind_of` says which of the two, and of which stream. `read` is the answer to a request that reads, off a
//! snapshot; `event_aim`, `entry_aim`, `receipt_aim` and `note_aim` are what a request that writes asks of which
//! writer, or why it is refused before one is asked.
//!
//! Their contracts share one definition, `asked` of `specs/Acts.antt`, which says route by route what a request asks:
//! each call gives what it says for requests of its kind. The engine's *Answer* is stated by it.
//!
//! Begin with `specs/Acts.antt` and `kind.rt`, then `reads.rt` and `sends.rt`.
#![tactic(auto)]

mod kind;
mod pages;
mod reads;
mod room_reads;
mod sends;
mod stores;
mod syncs;

pub use kind::{ActKind, kind_of};
pub use reads::{named, read};
pub use sends::event_aim;
pub use stores::{entry_aim, note_aim, receipt_aim};
pub use syncs::sync_said;

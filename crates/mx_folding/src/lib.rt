//! The folding law: what a client holds, after it has folded sync replies and pages into it, is what one unlimited
//! initial sync at its token shows. The crate has definitions and laws, and no code that runs.
//!
//! `specs/` states, over events of any type, what a reply and a page say of a room (Client-Server API, Syncing, and
//! Getting events for a room), what a client does with it, and when a client agrees with the picture at its token.
//! Each law is the contract of a function with an empty body.
//!
//! The law of the crate is `chains_fold`: from a client without a token, after any replies that answer its tokens and
//! any pages of its gaps, the client agrees with the picture at its token. `folds_room` is its step, for one reply
//! and one room.
//!
//! Begin with `specs/Rooms.antt` (a room), `specs/Stories.antt` (a room over time) and `specs/Chains.antt`; the laws
//! stand in `chain_laws.rt`. `mx_folding_needs` shows that each premise is needed.
#![tactic(auto)]

mod chain_laws;
mod list_laws;
mod room_laws;
mod visible_laws;

pub use chain_laws::{chains_fold, folds_room};
pub use list_laws::{all_told_at, same_page, same_part};
pub use room_laws::{
    closed_timeline, folds_new, folds_nothing, folds_page, folds_reply, open_timeline,
    section_is_window, sent_is_visible, whole_state,
};
pub use visible_laws::{same_visible, stays_visible};

//! The members of a room: who is in its state, its summary, and which member events a reply with lazy members sends
//! (Client-Server API, Syncing, and Lazy-loading room members).
//!
//! `members` gives the member events in the state of a room at a position, in order of position. `summary` is the
//! number of joined and invited members and the heroes, for one user of the room; `summary_stays` says that it stays
//! the same where no member event comes.
//!
//! The call for replies is `Picker::picks`: whether a reply sends an event of the state, with lazy members and
//! without. The law `picks_are` says that this is what a reply sends by the definitions of the folding law.
//! `stayed_joined` is whether a user was joined at every position between two, on which leaving out members rests.
//!
//! Begin with `picker.rt` and `specs/Picks.antt`, then `summarizing.rt`.
#![tactic(auto)]

mod laws;
mod picker;
mod room_summary;
mod standing_members;
mod staying;
mod summarizing;

pub use laws::{picks_are, summary_stays};
pub use mx_state::{is_standing, state_at};
pub use mx_visible::{
    Membership, Sighted, last_join, last_mark, last_visible, membership_of, sight, visible,
};
pub use picker::{Pick, Picker, senders};
pub use room_summary::Summary;
pub use standing_members::members;
pub use staying::stayed_joined;
pub use summarizing::summary;

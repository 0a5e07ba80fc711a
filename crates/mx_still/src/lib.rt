//! What came that concerns a user, so that a reply to a sync which had nothing to tell goes on having nothing to tell
//! where nothing did (Client-Server API, Syncing).
//!
//! The call is `is_still`: whether nothing that a snapshot has beyond a token concerns a user, which is an event or a
//! receipt of a room in which it has a member event, or account data of its own. It takes no memory, and costs a
//! look-up for each event and receipt beyond the token.
//!
//! The law `stays_empty` says that a reply which goes on from a token, and is empty at some fronts, is empty at later
//! ones where that is so.
//!
//! Begin with `specs/Concerns.antt`, then `still.rt`. `tests_sync` has a story of two rooms.
#![tactic(auto)]

mod laws;
mod still;

pub use laws::stays_empty;
pub use mx_sync::Known;
pub use still::is_still;

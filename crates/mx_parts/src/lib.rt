//! What a reply to a sync and a page send of a room's events (Client-Server API, Syncing, and Getting events for a
//! room): the section of the timeline, the state beside it, and each event as it is shown to the user.
//!
//! The call is `room_part`: for a window of positions with a limit it gives the section, whether it is limited, the
//! position at which it is cut, and the events of the state that a picker picks, exactly by definition. `section` is
//! its first step, and `sendable` are the events of a window from which a section is cut. What is shown is shown at
//! the front.
//!
//! The law `parts_are` says that this is the part of a reply of which the folding law speaks.
//!
//! Begin with `window.rt` and `reading.rt`, which have the types, then `settling.rt`, `sent.rt` and
//! `specs/Sections.antt`.
#![tactic(auto)]

mod latest;
mod laws;
mod part;
mod passing;
mod reading;
mod sending;
mod sent;
mod settling;
mod showing;
mod state;
mod under_keys;
mod window;

pub use laws::parts_are;
pub use mx_lazy::{
    Membership, Pick, Summary, last_join, members, membership_of, state_at, stayed_joined, visible,
};
pub use part::RoomPart;
pub use reading::Reading;
pub use sending::sendable;
pub use sent::room_part;
pub use settling::section;
pub use showing::all_shown;
pub use state::sender_keys;
pub use under_keys::{StateKey, standing_under};
pub use window::{Section, Window};

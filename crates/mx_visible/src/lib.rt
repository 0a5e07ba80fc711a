//! Which events of a room a user may see (Client-Server API, Room History Visibility).
//!
//! The call is `visible`: whether a user sees an event of its room at a front, by the history visibility and the
//! user's memberships at the event and up to the front, exactly as the definition of `mx_folding` says. `sight` gives
//! the events of a stretch of a room, each with the same answer, in one walk; `last_visible` finds the last one that it sees.
//!
//! `membership_of` and `setting_of` read the membership and the visibility that an event gives; `last_join` finds the
//! user's last join.
//!
//! Begin with `readings.rt`, then `visibility.rt`; `specs/Walks.antt` has what `sight` keeps while it walks.
#![tactic(auto)]

mod joins;
mod marks;
mod readings;
mod sights;
mod visibility;

pub use joins::last_join;
pub use marks::{last_mark, last_visible};
pub use readings::{HistoryVisibility, Membership, is_own, is_setting, membership_of, setting_of};
pub use sights::{Sighted, StoodBefore, sight_from};
pub use visibility::{sight, visible};

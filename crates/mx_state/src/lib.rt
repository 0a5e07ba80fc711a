//! The state of a room at a position (Client-Server API, Room state), read off a snapshot's events.
//!
//! The calls are `state_event`, the event that stands under a type and a state key at a position, and `state_at`, all
//! of them in order of position. Each answers the last state event of its key up to the position. `difference` gives
//! those of the state at a position that lie after another one, at a cost in the events between the two, not in the
//! state.
//!
//! `state_event` counts its comparisons of positions: one, and at most two for each binary digit of the number of versions
//! of the key that lie later.
//!
//! Begin with `state.rt`, which is all the code; `specs/Standing.antt` has the definitions.
#![tactic(auto)]

mod state;

pub use state::{difference, is_standing, state_at, state_event};

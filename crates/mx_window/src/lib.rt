//! Windows of one room's list: what stands at the positions after a lower and up to an upper one. The crate has
//! definitions and laws, and no code that runs.
//!
//! `specs/Windows.antt` and `specs/Lasts.antt` have the words that the other crates cite for a room at a position,
//! for the window of a sync reply, for the section of a timeline and for a page (Client-Server API, Syncing, and
//! Getting events for a room).
//!
//! Each law is the contract of a function with an empty body. The one that `limit` rests on is `latest_are_window`:
//! the last `n` items of a window that pass are the passing items of a window. The others join and nest windows, and
//! say what the last item of a key is.
//!
//! Begin with `specs/Windows.antt`, then `laws.rt`. `proofs/` has lemmas on lists that the proofs of other crates
//! use.
#![tactic(auto)]

mod laws;

pub use laws::{
    current_by_key, last_of_joined, latest_are_window, none_passes_after_last, windows_join,
    windows_nest,
};

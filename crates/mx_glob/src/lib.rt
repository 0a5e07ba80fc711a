//! Globs: patterns in which `*` stands for any sequence of characters.
//!
//! The calls are `glob`, over a whole text, and `glob_in_words`, over a stretch of it between word boundaries
//! (Client-Server API, Push rules, Conditions for execution). Each answers true exactly where the text, or a stretch,
//! can be cut into parts that the pattern's characters fit. Both take no memory, and time in at most the product of
//! the two lengths.
//!
//! [`Same`] says how the other characters compare: each with itself alone, or ASCII letters without regard to case
//! and `?` with any character.
//!
//! Begin with `globs.rt` and `specs/Globs.antt`.
#![tactic(auto)]

mod edge;
mod globs;
mod place;
mod wildcards;

pub use globs::{glob, glob_in_words};
pub use wildcards::Same;

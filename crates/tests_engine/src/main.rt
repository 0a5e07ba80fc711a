//! Tests of the engine, through its public items.
//!
//! They show what calls on rooms are answered in order, that what is written through one pass is answered through
//! another, at which reading of the clock a sync that waits is answered, and what those who wait are told.
//!
//! Begin with `rooms.rt`; `writers.rt` has three writers and two passes, `polls.rt` the syncs that wait,
//! `polls_by_hand.rt` those that are polled, `told.rt` what is told of a store.
#![tactic(auto)]

#[cfg(test)]
mod polls;
#[cfg(test)]
mod polls_by_hand;
#[cfg(test)]
mod rooms;
#[cfg(test)]
mod told;
#[cfg(test)]
mod writers;

/// The crate is its tests: a program, so that nothing is built of it for crates above.
fn main() {}

//! Tests of what calls ask, and of what is answered, through the public items of the crates that read and render
//! them.
//!
//! They show that each path finds its route, what a call on it asks, and which refusal comes first; and the status
//! and the JSON of an engine's answers. Most are tables: a row is a call, and beside it stands what it asks.
//!
//! Begin with `room_calls.rt`, whose rows `room_asks.rt` judges; `rendered.rt` has the answers.
#![tactic(auto)]

#[cfg(test)]
mod asking;
#[cfg(test)]
mod make;
#[cfg(test)]
mod read_asks;
#[cfg(test)]
mod read_calls;
#[cfg(test)]
mod rendered;
#[cfg(test)]
mod room_asks;
#[cfg(test)]
mod room_calls;
#[cfg(test)]
mod told;
#[cfg(test)]
mod user_asks;
#[cfg(test)]
mod user_calls;

/// The crate is its tests: a program, so that nothing is built of it for crates above.
fn main() {}

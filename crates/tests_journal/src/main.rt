//! Tests of a journal, through public items.
//!
//! An engine on a journal in memory answers a session whose log fails at each of its calls in turn; engines on that journal, cut off
//! at each of its bytes, and with each of its bytes changed, have what was answered, or are refused with the line.
//!
//! Begin with `restarts.rt`; `make.rt` has the session.
#![tactic(auto)]

#[cfg(test)]
mod make;
#[cfg(test)]
mod restarts;

/// The crate is its tests: a program, so that nothing is built of it for crates above.
fn main() {}

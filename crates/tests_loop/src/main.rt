//! Tests of sessions that are moved step by step, and of a loop over ports in memory, through the public items of `mx_loop`.
#![tactic(auto)]

#[cfg(test)]
mod turns;

/// The crate is its tests: a program, so that nothing is built of it for crates above.
fn main() {}

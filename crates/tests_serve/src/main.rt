//! Tests of runs of the program, over sources, sinks and files in memory.
//!
//! Most are sessions as tables: a line is a call of a user, and the line below it the answer, status and body. They
//! show what each route answers, which refusal comes first, how a connection and a run end, two connections at once of
//! which one write is held between its draw and its store, and three connections on two seats; a client that goes away while its
//! sync waits; and how a run goes on from a journal, or is refused.
//!
//! Begin with `sessions.rt`, which has the form of the tables, then `tables.rt` with `rooms.rt`, and `sync_tables.rt`
//! with `syncs.rt`. `at_once.rt` has the two connections, `seats.rt` the three.
#![tactic(auto)]

#[cfg(test)]
mod at_once;
#[cfg(test)]
mod default_rules;
#[cfg(test)]
mod ends;
#[cfg(test)]
mod hostile;
#[cfg(test)]
mod journals;
#[cfg(test)]
mod leaving;
#[cfg(test)]
mod loops;
#[cfg(test)]
mod make;
#[cfg(test)]
mod meeting;
#[cfg(test)]
mod refusal_tables;
#[cfg(test)]
mod refusals;
#[cfg(test)]
mod rooms;
#[cfg(test)]
mod runs;
#[cfg(test)]
mod seats;
#[cfg(test)]
mod servers;
#[cfg(test)]
mod sessions;
#[cfg(test)]
mod silence;
#[cfg(test)]
mod sync_tables;
#[cfg(test)]
mod syncs;
#[cfg(test)]
mod tables;
#[cfg(test)]
mod user_data;
#[cfg(test)]
mod user_tables;
#[cfg(test)]
mod whole_port;
#[cfg(test)]
mod whole_sink;
#[cfg(test)]
mod writers;

/// The crate is its tests: a program, so that nothing is built of it for crates above.
fn main() {}

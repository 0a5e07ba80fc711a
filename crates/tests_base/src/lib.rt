//! Tests of the lower crates, through their public items: the outside, waiting, ids and tokens, users, JSON, HTTP,
//! the command line, the machine of a stream and its lanes.
//!
//! They show that calls succeed with ample memory, which no contract says, and what the forms in memory and the
//! adapters to the system do. They call the laws at concrete types besides.
//!
//! Begin with `requests.rt`, whose texts are requests with what a reader makes of them, or with `machine.rt`, a run
//! of three writers.
#![tactic(auto)]

#[cfg(test)]
mod answers;
#[cfg(test)]
mod book_of_lanes;
#[cfg(test)]
mod clocks;
#[cfg(test)]
mod ids_and_tokens;
#[cfg(test)]
mod intakes;
#[cfg(test)]
mod jobs;
#[cfg(test)]
mod json_values;
#[cfg(test)]
mod laws;
#[cfg(test)]
mod listeners;
#[cfg(test)]
mod machine;
#[cfg(test)]
mod make;
#[cfg(test)]
mod ports;
#[cfg(test)]
mod requests;
#[cfg(test)]
mod sources_and_sinks;
#[cfg(test)]
mod users_file;
#[cfg(test)]
mod waits;
#[cfg(test)]
mod wakers;
#[cfg(test)]
mod words;

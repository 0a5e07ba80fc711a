//! Tests of the crates of events and rooms, through their public items: events, the rules by which they are allowed,
//! a writer's rooms, their creation, account data and receipts.
//!
//! They show that the calls succeed with ample memory, and worked values of their definitions: a room as clients make
//! it with the rule that refuses each event, the events of a creation for each preset, what redaction keeps.
//!
//! Begin with `rules.rt`, whose rooms and cases are JSON texts.
#![tactic(auto)]

#[cfg(test)]
mod account_data;
#[cfg(test)]
mod creation;
#[cfg(test)]
mod events;
#[cfg(test)]
mod make;
#[cfg(test)]
mod receipts;
#[cfg(test)]
mod rooms;
#[cfg(test)]
mod rules;
#[cfg(test)]
mod tags;

//! Tests of snapshots, of the state of rooms and of what users see, through their public items.
//!
//! They show that what a snapshot finds of a thousand events in three rooms is what plain scans find, and worked
//! values of summaries, lazy members, receipts, account data and unread counts.
//!
//! Begin with `reads.rt`, whose plain scans stand in `scans.rt`.
#![tactic(auto)]

#[cfg(test)]
mod known;
#[cfg(test)]
mod make;
#[cfg(test)]
mod members;
#[cfg(test)]
mod others;
#[cfg(test)]
mod reads;
#[cfg(test)]
mod rests;
#[cfg(test)]
mod rows;
#[cfg(test)]
mod scans;
#[cfg(test)]
mod unread;

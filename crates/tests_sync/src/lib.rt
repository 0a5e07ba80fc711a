//! Tests of replies to syncs and of pages, of rooms whose events are valid.
//!
//! They show worked values of replies and pages: limits, gaps, lazy members, invites, left rooms, and their JSON. A
//! room is built event by event, so that the checker knows that its list is valid. A story of two rooms shows what of it
//! concerns a user that waits.
//!
//! Begin with `replies.rt`; `built.rt` has how a room is built.
#![tactic(auto)]

#[cfg(test)]
mod built;
#[cfg(test)]
mod concerns;
#[cfg(test)]
mod pages;
#[cfg(test)]
mod parts;
#[cfg(test)]
mod replies;
#[cfg(test)]
mod texts;

//! What is read of a user's own data: stored filters, account data, tags and push rules (Client-Server API,
//! Filtering, Client Config, Room Tagging, Push rules).
//!
//! The calls are one for each route: `stored_filter`, `account_value`, `room_tags`, `push_rules`, `push_rule`,
//! `rule_enabled` and `rule_actions`. Each is told exactly what its definition says of the lists that the snapshot
//! has, or `NotFound` exactly where that says so. `filter_named` is the filter by which a sync asks that names a
//! stored one.
//!
//! Begin with `values.rt` and `specs/Values.antt`; `specs/Told.antt` has how a definition's answer is told.
#![tactic(auto)]

mod filters;
mod one_rule;
mod rules;
mod told;
mod values;

pub use filters::{filter_named, stored_filter};
pub use mx_room_reads::{
    has_room, joined_rooms, one_event, room_members, room_state, state_content,
};
pub use rules::{push_rule, push_rules, rule_actions, rule_enabled};
pub use values::{account_value, room_tags};

//! The push rules of a user (Client-Server API, Push rules): kind by kind, each with its id, in the order in which
//! they are tried.
//!
//! The type is [`RuleSet`]. Each of its changes, `put`, `remove`, `set_enabled` and `set_actions`, gives the rules
//! that its definition says, or the first fault in their order, and then the rules are as they were. `defaults` are
//! the predefined rules.
//!
//! `to_json` and `from_json` are the content of `m.push_rules`. The laws `content_reads_back` and
//! `content_is_written` say that they are inverse: a content that is read is just the one that is written of the
//! rules it says.
//!
//! Begin with `rule_set.rt` and `specs/Edits.antt`; `rule.rt` has the types of the kinds, `fault.rt` the faults in
//! their order.
#![tactic(auto)]

mod body;
mod builtin;
mod conditions;
mod edits;
mod fault;
mod judging;
mod laws;
mod predefined;
mod reading;
mod rule;
mod rule_set;
mod writing;

pub use fault::{RuleFault, Side};
pub use laws::{content_is_written, content_reads_back};
pub use predefined::defaults;
pub use rule::{Kind, Rule, Test};
pub use rule_set::RuleSet;
pub use writing::{entry_json, kinds_json, single};

//! Tests of globs, filters, push rules and what they say of events, through their public items.
//!
//! They show worked values of each definition: patterns with the texts that they fit, filters with what passes,
//! changes of push rules with the fault that comes first, and events with whether they notify.
//!
//! Begin with `notifies.rt`; `push_rules.rt` has the changes and the JSON of rules.
#![tactic(auto)]

#[cfg(test)]
mod filters;
#[cfg(test)]
mod globs;
#[cfg(test)]
mod make;
#[cfg(test)]
mod notifies;
#[cfg(test)]
mod push_rules;

//! What a user's push rules say of an event (Client-Server API, Push rules).
//!
//! The call is `decide`: of the rules, tried kind by kind in their order, the first enabled one that matches decides
//! by its actions whether the event notifies the user, and whether it is highlighted. `None` exactly where the event
//! is the user's own, no rule matches, or the first that does doesn't notify. Each condition matches as its
//! definition says.
//!
//! A [`Context`] is what the rules read beside the event: for whom they are tried, and the room before the event. The
//! law `paths_lead_into_form` says that a dotted path of a condition leads where its parts lead in the event's client
//! form, though that form isn't made.
//!
//! Begin with `decision.rt` and `specs/Notifies.antt`; `conditions.rt` with `specs/Conditions.antt` has the
//! conditions.
#![tactic(auto)]

mod conditions;
mod counts;
mod decision;
mod laws;
mod property;
mod setting;
mod words;

pub use decision::{Notify, decide};
pub use laws::paths_lead_into_form;
pub use setting::Context;

//! The authorization rules of a room (Room Version 11, Authorization rules), over what they read of the room's state.
//!
//! The call is `allowed`: an event may come next in its room exactly where no rule refuses it, and else the answer is
//! the number of the first rule that does, 1 to 12, by the definition `denied` of `mx_event`. It takes no memory, and
//! doesn't look at the room's history.
//!
//! [`AuthState`] is the room's state as far as the rules read it. Contracts see it as the list of the events that it
//! took in. `make_ready` does all that takes memory for an event, so that `take_ready` takes it in afterwards without
//! any.
//!
//! Begin with `denial.rt`, which lists the rules in their order, then `state.rt`. `membership_rules.rt` has the rules
//! on member events, `rules.rt` the others.
#![tactic(auto)]

mod changes;
mod denial;
mod kept;
mod kinds;
mod levels;
mod membership_rules;
mod places;
mod rules;
mod senders;
mod state;
mod taken;

pub use denial::{Denial, allowed};
pub use levels::level;
pub use rules::has_target;
pub use state::AuthState;

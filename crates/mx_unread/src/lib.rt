//! The numbers of unread events of a room, for a user (Client-Server API, Syncing, Unread notification counts).
//!
//! The call is `counts`: at a token, of the events of a room after the user's furthest receipt and latest entry,
//! those that another user sent, that the user sees, that aren't redacted and of which the user's push rules notify;
//! and how many of them are highlighted. The answer is exactly what the definition `counts_at` of `specs/Unread.antt`
//! says of the streams, of which each room's list is valid.
//!
//! A [`Tally`] keeps the counts of a user in a room at a token with the positions of the unread events, so that `advance`
//! to a later token costs what came to the room since. `counts_with` counts by [`Tallies`], which keep those that were used
//! last, and the push rules that were read last. The laws `tallies_last` and `rules_last` say that these stand for each longer
//! snapshot.
//!
//! The law `counts_stay` says that the numbers stay the same where nothing came on which they rest, so a sync needn't
//! count anew. `rules_at` gives the push rules that stand at a position.
//!
//! Begin with `counting.rt` and `specs/Unread.antt`; `window.rt` has what isn't read, `decider.rt` how one event is
//! judged. Of tallies begin with `running.rt`, `advancing.rt` and `specs/Kept.antt`, of kept push rules with `read_rules.rt`
//! and `specs/Standing.antt`.
#![tactic(auto)]

mod advancing;
mod beginning;
mod counting;
mod decider;
mod entering;
mod held;
mod joined;
mod kept;
mod laws;
mod leaving;
mod levels;
mod marks;
mod news;
mod pooling;
mod read_rules;
mod running;
mod same_rules;
mod stored_rules;
mod tallies;
mod tally_cache;
mod tally_key;
mod unread_counts;
mod window;

pub use beginning::tally;
pub use counting::counts;
pub use laws::{counts_stay, rules_last, tallies_last};
pub use mx_lazy::{Summary, summary};
pub use pooling::counts_with;
pub use running::Tally;
pub use stored_rules::rules_at;
pub use tallies::Tallies;
pub use unread_counts::Counts;

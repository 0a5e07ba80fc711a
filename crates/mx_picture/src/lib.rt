//! Laws that say the picture in words that aren't the reply's own. What a client is said to hold of a room is by the headline
//! what the picture has of it; here receipts, account data, counts and summary of the picture are those that stand in the
//! streams at the token (`standing` of `mx_receipt`, `value_at` of `mx_account`, `counts_at` of `mx_unread`, `summary_at` of
//! `mx_lazy`), and a forward page is a stretch of the picture's timeline, as a backward one of a gap is by `mx_pager`. The crate
//! has definitions and laws, and no code that runs.
#![tactic(auto)]

mod laws;
mod rows;

pub use laws::{forward_pages_are, rests_are};
pub use rows::{forward_computes, rests_compute};

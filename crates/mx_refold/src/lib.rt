//! Clients that redact their copies by all redactions that their timelines hold: they agree with the picture at their token
//! after pages of any front of at least that at which their gap was cut. The crate has definitions and laws, and no code that
//! runs.
#![tactic(auto)]

mod chain_laws;
mod client_laws;
mod room_laws;

pub use chain_laws::{chains_redact, needs_redactions};
pub use client_laws::{clients_redact, redacts_alike};
pub use room_laws::{folds_any_page, redacts_page, redacts_part};

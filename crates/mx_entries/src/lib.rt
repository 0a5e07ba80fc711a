//! What the writers of account data and of receipts decide on what users ask them to store.
//!
//! The types are [`Accounts`] and [`Receipts`], the values of these writers: each is a `Folds` of `mx_writers`, the
//! fold of its writer's own stores. Its contract is that trait's: what is decided on a draft is what the definitions
//! say of the own stores, and what is stored is lawful after them wherever it stands. Account data is stored as it is
//! asked, a filter under the user's next id, a tag in the room's tags, a change of push rules or its first fault, and
//! a receipt where it comes after the standing one.
//!
//! `accounts` and `receipts` make the values of a writer without stores.
//!
//! Begin with `drafts.rt`, what is asked, then `specs/Decided.antt` and `account_writer.rt`; `receipt_writer.rt` is
//! the smaller of the two.
#![tactic(auto)]

mod account_writer;
mod data;
mod drafts;
mod filters;
mod lasts;
mod laws;
mod receipt_writer;
mod rules;
mod shelf;
mod start;
mod tags;

pub use account_writer::Accounts;
pub use drafts::{EntryDraft, EntryFault, Never, ReceiptDraft, RuleChange};
pub use laws::writers_go_to_threads;
pub use receipt_writer::Receipts;
pub use start::{accounts, receipts};

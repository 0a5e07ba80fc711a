//! The folding law needs each of its premises: a history for each shows that without it the law is false. The crate
//! has definitions and laws, and no code that runs.
//!
//! `specs/Premises.antt` states the law of `mx_folding` with each premise either asked or dropped; `all_are_asked`
//! says that with all of them asked it is that law, and each `needs_` law of `premises.rt` that it fails without the
//! named ones. `specs/Changes.antt` has the laws of one room with a definition changed, and the laws of `changes.rt`
//! say that these fail too: a section that isn't cut at a break, lazy members of a page at another front, members
//! that are omitted more freely.
//!
//! Begin with `premises.rt` and the list of premises in `specs/Premises.antt`.
#![tactic(auto)]

mod changes;
mod premises;

pub use changes::{
    needs_base, needs_break, needs_gap_order, needs_omission, needs_page_members, unchanged_is_same,
};
pub use premises::{
    all_are_asked, needs_joined, needs_keys, needs_order, needs_page, needs_redaction, needs_rest,
};

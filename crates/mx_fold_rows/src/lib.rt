//! Worked values of the definitions of replies, pages and chains, computed by the checker over literal events. They
//! pin what the folding law alone doesn't: each row is a law that one wrong reading of a room breaks. The crate has
//! no code that runs.
//!
//! Each function of `rows.rt` has an empty body, and its clauses are the rows: limits and breaks, stays, visibility,
//! redactions, lazy members, chains over one connection and over two, account data. `specs/` has the literal events
//! (`specs/Events.antt`) and what each row says.
//!
//! Begin with `rows.rt`, then `specs/Limits.antt`.
#![tactic(auto)]

mod rows;

pub use rows::{
    account_computes, chains_compute, connections_compute, contents_say, exchanges_compute,
    limits_compute, members_compute, redactions_compute, stays_compute, visibility_computes,
};

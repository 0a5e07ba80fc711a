//! Chains of syncs over restarts: the headline's law on what several runs of a server answered. The crate has definitions and
//! laws, and no code that runs.
//!
//! The law is `restarts_redact`: whichever runs answered a client's syncs and pages, the client agrees with the picture at its
//! last token, in the last run. Asked of the runs is that the last one began with the stores that the earlier ones had seen,
//! each writer's in their order, and that these stood in place (`specs/Kept.antt`). `restarts_agree` says it of a client that
//! doesn't redact its copies, and `kept_goes_on` that what is kept at a start is kept at later ones.
//!
//! It joins `mx_chains`, which has the laws on one run, to `mx_replay`, whose law says what tokens cover after a restart.
//!
//! Begin with `specs/Restarts.antt`, then `laws.rt`.
#![tactic(auto)]

mod laws;

pub use laws::{kept_goes_on, restarts_agree, restarts_redact};

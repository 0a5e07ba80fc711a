//! What clients hold after the answers to their syncs and pages: the headline's law on what an engine answers. The
//! crate has definitions and laws, and no code that runs.
//!
//! The law is `answers_agree`: whatever is asked on a pass, and whatever others store in between, the chain of each
//! device with each filter that picks state by type and room agrees with the picture at its token (Client-Server API,
//! Syncing). `answers_see` says that each event of a timeline or a page was visible to its user at the front.
//! `clients_agree`, `clients_see` and `followers_agree` say it of answers on several passes of an engine, in any order, and
//! `clients_redact` of a client that redacts its copies by all redactions that its timelines hold, wherever its pages were asked.
//!
//! It joins `mx_engine`, which says what is answered, to `mx_fold` and `mx_refold`, which have the laws on exchanges.
//! `specs/Heard.antt` says what a client takes from an answer.
//!
//! Begin with `specs/Chains.antt`, then `laws.rt`.
#![tactic(auto)]

mod laws;

pub use laws::{
    answers_agree, answers_see, clients_agree, clients_redact, clients_see, followers_agree,
};

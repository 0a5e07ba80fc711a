//! The engine: what a homeserver's users ask is answered on its streams, to which several writers store.
//!
//! The call is `Engine::answer`. Whatever the writers of other requests store meanwhile, the answer is *Answer*'s on
//! the stores that its [`Mark`] counts: those that the pass has then seen. A write is in the list at its mark, at the
//! position of the mark, decided on its writer's own stores; what is refused or only reads stores nothing, but for
//! the one case that `answer` names.
//!
//! An [`Engine`] has the running streams of events, receipts and account data. An [`EnginePass`] is a reader: it
//! keeps a snapshot, which goes on at each look, and two passes of one engine can `meet`. The law `exchanges_go_on`
//! says that what a pass has answered, call by call, are the exchanges of which the laws on chains speak.
//!
//! Begin with `answered.rt` and `held.rt`, which have the types, then `answer.rt` and `specs/Answers.antt`;
//! `writes.rt` makes a write, `reading.rt` looks.
#![tactic(auto)]

mod answer;
mod answered;
mod asking;
mod filing;
mod held;
mod knowing;
mod laws;
mod noting;
mod outside;
mod passes;
mod reading;
mod record;
mod replaying;
mod seat;
mod start;
mod storing;
mod taking;
mod waiting;
mod writes;

pub use answered::{Answered, Counts, Mark, Unstored};
pub use held::{Engine, EnginePass};
pub use laws::{engines_cross_threads, exchanges_go_on};
pub use outside::Outside;
pub use record::{Again, Record, Unreplayed};
pub use start::{Setup, engine};

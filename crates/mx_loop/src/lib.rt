//! Many connections on one thread: sessions, as states, whose input and output may be not ready.
//!
//! A [`Session`] is a port with what it took, what it has yet to put and what it does next; `step` moves it once, and never waits for its
//! port. What it has done, with the bytes that are on their way, is what `serve_connection` of `mx_serve` promises of a connection, at each
//! moment (*Stands*), over the stores that the session has seen: all sessions of a loop share one pass of the engine, and a session has
//! seen the stores that its last mark counts. What other sessions do in between changes nothing of it.
//!
//! Begin with `line.rt` and `specs/Stands.antt`.
#![tactic(auto)]

mod answering;
mod laws;
mod line;
mod looping;
mod opened;
mod outbox;
mod places;
mod printed;
mod reading;
mod resting;
mod session;
mod sessions;
mod turns;
mod writing;

pub use laws::sessions_agree;
pub use line::{Line, Next, Read, Rest, State, Stepped};
pub use looping::{Limits, Looped, run_loop};
pub use opened::Watch;
pub use outbox::Outbox;
pub use session::Session;
pub use sessions::Sessions;

//! A run of the program: one connection over the standard streams, or a server for many.
//!
//! The call is `run`. It reads the words and the users file, and serves on an engine that has no store, or on a journal. In mode
//! `pipe` what a run did is what `serve_connection` of `mx_serve` promises for the users of the file, with the
//! headline in its clause. Each [`Status`] has its cause: `Usage` comes exactly where the words aren't of their form,
//! and `Outside` and `Listener` only where a count of faults rose. In mode `serve` what a run did is what `serve` promises.
//!
//! `serve` serves the connections of a listener, each by a job on one of the seats of a `Pool`, of which each has a pass of
//! the server's engine. Once it has ended each job that was started has served a connection as `serve_connection` promises, and the
//! headline holds over all of them.
//!
//! Begin with `session.rt` and `specs/Runs.antt`, then `serving.rt`, `seated.rt` and `specs/Connections.antt`.
#![tactic(auto)]

mod connection;
mod gathering;
mod kept;
mod looping;
mod pool;
mod seated;
mod serving;
mod session;
mod site;
mod status;
mod telling;

pub use serving::{Served, serve};
pub use session::{Ran, run};
pub use status::{JournalFault, Status};
pub use telling::tell;

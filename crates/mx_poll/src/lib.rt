//! The answers to what users ask, of which a sync waits until there is something to tell (Client-Server API,
//! Syncing).
//!
//! The call is `answer`: what is asked is answered as the engine answers it, on the stores that the mark counts. A
//! sync with `since` and without `full_state` that has nothing to tell rests among the engine's waiters, and looks
//! again when something was stored; it tells that there is nothing only once a reading of the clock has come to its
//! deadline. Any other request is answered at the reading of the request. At each wake, and at least each second, the
//! sink of who asks is asked whether it has gone away: then the sync is answered at once, and [`Outcome`] says so.
//!
//! Such a sync is a plain state, a [`SyncPoll`], that `begin` makes and `poll` asks: `answer` drives it in the
//! caller's thread, and one thread may hold many. Before `poll` says that there is nothing yet, it has parked a waker
//! at each stream and then looked at each (`look_after`): *Parked*. Where nothing came that concerns the user it makes
//! no reply.
//!
//! That a rest ends soon is no part of the contract: see `mx_wait`.
//!
//! Begin with `states.rt`, which has the types, then `polling.rt` and `specs/Polls.antt`; `answering.rt` has the loop,
//! and `specs/Waits.antt` what waiting may change.
#![tactic(auto)]

mod answering;
mod beginning;
mod polling;
mod states;
mod telling;

pub use answering::answer;
pub use beginning::begin;
pub use mx_engine::{Answered, Engine, EnginePass, Mark, Outside, Setup, engine};
pub use polling::{look_after, poll};
pub use states::{Begun, Outcome, Parked, Polled, Seen, SyncPoll};

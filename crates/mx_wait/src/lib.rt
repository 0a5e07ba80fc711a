//! Waiting until something has changed: who waits is woken by the next store.
//!
//! The calls are `Waiters::register` and `Waiters::moved`. Who waits parks a waker at each stream before it looks. Who
//! stored tells the stream's front, and all wakers that are parked there are handed out where it is greater than all
//! that were told before. [`Registry`] and [`Board`] are this as plain values, and their contracts say it whole;
//! [`Waiters`] keeps a board under a lock. No contract says that a waker's owner runs, nor how long a rest takes.
//!
//! The law `none_is_lost` says that who is parked at a stream is handed out by the time that a greater front of it is
//! told. Threads share those who wait: `waiters_cross_threads`.
//!
//! Begin with `parking.rt` and `telling.rt`, then `specs/Parked.antt`; `resting.rt` has the lock. `tests_base` has
//! rests that another thread ends.
#![tactic(auto)]

mod counts;
mod flags;
mod laws;
mod names;
mod parking;
mod resting;
mod start;
mod telling;

pub use flags::Flag;
pub use laws::{none_is_lost, waiters_cross_threads};
pub use names::StreamName;
pub use parking::{Registry, Ticket, Tickets, Wake};
pub use resting::Waiters;
pub use start::{board, flag, registry};
pub use telling::{Board, Handed, Told};

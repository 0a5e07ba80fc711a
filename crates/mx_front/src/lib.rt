//! A running stream: several writers draw blocks of positions without waiting for one another and store them in any
//! order, and readers look at what is stored up to the front.
//!
//! A [`Pen`] stores for one writer: `draw`, `reserve` and `finish` of [`Stream`] are its calls. A
//! [`Pass`] is a reader: `look` gives it the items up to a front, `glance` lets it see as much without them, and
//! `note` and `meet` let it see what a pen or another pass has seen. Each store is made with a pass, so while there is
//! one pass alone it has seen all that is stored.
//!
//! The law is `seats_see_one_history`: between any two steps, whatever the interleaving of the threads, there is one
//! history, a state that a run of `mx_core`'s machine reaches. What each pen and pass has seen begins it, and the
//! front of what is seen covers no unfinished write. `steps_keep_history` says that it only grows.
//!
//! Begin with `handles.rt` (pens and passes), then `writing.rt` and `reading.rt` for the calls; `specs/World.antt`
//! has the rule that every step keeps, and `specs/Laws.antt` the laws.
#![tactic(auto)]

mod board;
mod front;
mod handles;
mod laws;
mod plays;
mod queue;
mod reading;
mod start;
mod turns;
mod view;
mod writing;

pub use front::Stream;
pub use handles::{Drawn, Full, Pass, Pen};
pub use laws::{seats_see_one_history, steps_keep_history, streams_cross_threads};
pub use queue::{Owed, claim, come};
pub use start::stream;
pub use view::{Right, Role, Turn, View};

//! The stream of a homeserver as a plain value: writers draw blocks of positions, store them in any order, and the
//! front is the greatest position up to which all is stored. Every claim about interleaved writers rests on it.
//!
//! The call is `Machine::apply`: one step of one writer, a draw or a store, or the first cause for which it is
//! refused; on a refusal nothing changes. The law is `front_covers_no_unfinished_write`: in every run of a machine
//! each position up to the front is stored, and no block that is held meets it. `front_never_falls` and
//! `runs_are_orderly` say that what was covered stays, and that a run stores each position once.
//!
//! The running stream of `mx_front` is proved to go only through states that such a machine reaches.
//!
//! Begin with `specs/History.antt` and `specs/Front.antt`, then `machine.rt` and `laws.rt`. `specs/Limits.antt` has
//! the numbers that bound a stream.
#![tactic(auto)]

mod history;
mod laws;
mod machine;
mod placed;

pub use history::Stored;
pub use laws::{
    covered_stands_in_place, covers_more, covers_to_front, crosses_threads,
    front_covers_no_unfinished_write, front_never_falls, goes_to_threads, machines_cross_threads,
    runs_are_orderly,
};
pub use machine::{Block, Machine, Moved, Step, StepFault};
pub use placed::{Placed, Prepared, placed_at};

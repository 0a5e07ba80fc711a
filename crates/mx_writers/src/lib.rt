//! The writers of a running stream: each decides on drafts by its own stores, draws a block of positions, and stores
//! in it.
//!
//! The call is `write_in`: one write of one writer. It is decided on the writer's own list as it stands, by the
//! definition `decides` of the writer's value; where that gives items they are stored as one block, and else nothing
//! is stored. All memory is taken before the draw, so a block that was drawn is stored, unless what the value keeps its
//! stores by has failed: then the writer stores nothing more. `write_seen` of [`Writers`] makes the same write in the
//! writer's turn, and lets a pass see it.
//!
//! A writer's value is of a type with the trait [`Folds`]: the fold of its own stores, with `prepare` and `commit`. A
//! [`Gate`] is called between draw and store; tests hold a write there.
//!
//! Begin with `folds.rt`, then `writing.rt`. `number.rt` is the smallest such value.
#![tactic(auto)]

mod answers;
mod board;
mod folds;
mod gate;
mod laws;
mod number;
mod plays;
mod shards;
mod start;
mod turn;
mod view;
mod write_seen;
mod writing;

pub use answers::{Refused, Written};
pub use folds::{Folds, Lost, Made, Unmade};
pub use gate::{Gate, Open, Watch};
pub use laws::writers_cross_threads;
pub use number::{Number, Numbers, Zero};
pub use shards::{Shard, Writers};
pub use start::{numbers, shard, writers};
pub use writing::write_in;

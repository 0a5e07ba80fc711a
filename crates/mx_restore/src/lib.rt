//! The start of an engine from a journal.
//!
//! The call is [`engine_on`]: an engine on the journal of a name, which has the stores of its lines. Each of these is made again through the
//! writers, one after the other, and each line has to come out as itself ([`restore`]); the lines are read by another thread, a batch
//! ahead. [`Kept`] stands outside of such an engine: its writers keep their stores at a desk.
//!
//! Begin with `opening.rt` and `specs/Restored.antt`, then `restoring.rt` and `specs/Said.antt`, then `reading.rt` and
//! `specs/Batches.antt`; `heads.rt` has the first lines of a journal.
#![tactic(auto)]

mod drafts;
mod heads;
mod kept;
mod opening;
mod reading;
mod records;
mod restoring;
mod wrong;

pub use kept::Kept;
pub use opening::engine_on;
pub use restoring::{Restored, Restoring, restore};
pub use wrong::{RestoreFault, Wrong};

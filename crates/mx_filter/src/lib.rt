//! Filters of syncs and pages (Client-Server API, Filtering): which rooms they pick, and what passes.
//!
//! The calls are `read` and `read_part`: the filter that an object says, of a sync or of a page, or which known field
//! is the first of a wrong type; fields that aren't known have no effect. `everything` is the filter of a request
//! that has none. `Filter::picks`, `passes` and `passes_type` answer as their definitions say whether a room is
//! picked and whether an event, account data or a receipt passes. They take no memory.
//!
//! The laws join filters to the folding law: `folds_by_type` says which filters pick state by type and room alone,
//! and `pages_fit` which page filters let pass what a sync's timeline does.
//!
//! Begin with `parts.rt`, which is the type, then `reading.rt` and `passes.rt` with `specs/Passes.antt`.
#![tactic(auto)]

mod checks;
mod fault;
mod field;
mod laws;
mod parts;
mod passes;
mod reading;
mod texts;

pub use fault::FilterFault;
pub use laws::{filters_are_same, folds_by_type, pages_fit};
pub use parts::{DataPart, EventFilter, Filter, Part, Selection, TypeFilter};
pub use reading::{everything, read, read_part};

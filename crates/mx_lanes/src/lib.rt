//! A stream's stores as they stand in memory: one lane for each writer, the front, and the items up to a front.
//!
//! The type is [`Book`]. `reserve` makes the space of a lane before a block is drawn, so that `store` takes no memory
//! and can't fail. A store puts just its items to the history of the book, and the front is that of this history.
//! `up_to` gives the items at the positions from 1 to a front as [`Parts`]: no item is copied, the book and all parts
//! share it, and a later store doesn't change them.
//!
//! `book_stands_for_one_history` and `parts_are_covered` are the laws by which the crate above speaks of a history,
//! without looking at how the book keeps it.
//!
//! Begin with `book.rt` and `specs/Held.antt`, which is what contracts see of a book, then `parts.rt`.
#![tactic(auto)]

mod book;
mod entry;
mod laws;
mod order;
mod parts;
mod shared;
mod shelf;
mod shelving;
mod space;

pub use book::Book;
pub use laws::{
    book_stands_for_one_history, book_stands_still, book_stands_with_one_store_more,
    books_cross_threads, parts_are_covered,
};
pub use mx_core::Placed;
pub use parts::Parts;
pub use shared::Shared;

//! What a stream has stored.

use mx_ids::Seq;

/// One store: the items that a writer put at consecutive positions.
#[derive(Debug, Drop)]
pub struct Stored<I> {
    /// The writer's number, from 0.
    pub writer: u8,
    /// The position of the first item, at least 1.
    pub first: u64,
    /// The items in order, at least one. The item after the one at position p stands at p + 1.
    pub items: Seq<I>,
}

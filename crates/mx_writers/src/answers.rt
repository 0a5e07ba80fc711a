//! What a write answers.

use mx_ids::Memory;

/// A write that was taken.
#[derive(Clone, Copy, Debug, PartialEq, Eq)]
pub struct Written {
    /// The first position of the store; where nothing is stored, the number that the decision kept.
    pub first: u64,
    /// The number of items stored, 1 to 512, or 0 where nothing is stored.
    pub count: u16,
    /// The number of own stores by which it was decided.
    pub lane: u64,
    /// The front after the store, or 0 where nothing is stored.
    pub front: u64,
}

/// Why a write was refused. Nothing is stored then.
#[derive(Debug, Drop, PartialEq, Eq)]
pub enum Refused<E> {
    /// The decision is this fault, by so many own stores.
    Fault(E, u64),
    /// The stream is full: the number of positions that were drawn, at least its stop, and the number of own stores by
    /// which it was decided.
    Full(u64, u64),
    /// What the writer keeps its stores by has failed, in this write or in an earlier one; the number of own stores then.
    Lost(u64),
    /// An allocation was refused.
    Memory(Memory),
}

impl<E> From<Memory> for Refused<E> {
    ghost use Rattle.std.specs.Prelude.{◌≡◌};
    ghost use Rattle.mx_writers.specs.declared.answers.Refused.TheVariants as refusals;

    ghost from_gives = { λ m e. e ≡ refusals.Memory m };

    fn from(refused: Memory) -> Refused<E> {
        Refused::Memory(refused)
    }
}

//! A writer's value: the fold of its own stores, and what it decides on a draft.

ghost use Rattle.std.specs.Prelude.{◌≡◌, ℕ, List, Option, Some, Bool, false, IsOk, OnOk, OnErr};
ghost use Rattle.mx_core.specs.declared.history.Stored.{Stored};
ghost use Rattle.mx_core.specs.History.{IsLane};
ghost use Rattle.mx_writers.specs.Decision.{Decision, Prepares, MayFollow, AreLawful, with_store};

use mx_core::{Placed, Prepared};
use mx_ids::{Copied, Memory};
use std::alloc::Global;
use std::sync::Wait;

/// What a draft was made into.
#[derive(Debug, Drop)]
pub enum Made<I> {
    /// Items to store, 1 to 512 of them.
    Items(Prepared<I>),
    /// Nothing is to be stored: the request was stored before at this position, or it stores nothing and this is 0.
    Kept(u64),
}

/// Why a draft was made into nothing.
#[derive(Debug, Drop)]
pub enum Unmade<E> {
    /// The decision is a fault.
    Fault(E),
    /// An allocation was refused.
    Memory(Memory),
}

impl<E> From<Memory> for Unmade<E> {
    ghost use Rattle.std.specs.Prelude.{◌≡◌};
    ghost use Rattle.mx_writers.specs.declared.folds.Unmade.TheVariants as unmade;

    ghost from_gives = { λ m e. e ≡ unmade.Memory m };

    fn from(refused: Memory) -> Unmade<E> {
        Unmade::Memory(refused)
    }
}

/// What a writer keeps its stores by has failed: the block that it drew isn't stored, and no block after it is.
#[derive(Clone, Copy, Debug, PartialEq, Eq)]
pub struct Lost;

/// A writer's value. It is the fold of the stores of its writer, its own list, and decides on drafts by it.
pub trait Folds: Sized + Drop {
    /// What a stream holds.
    type Item: Copied + Placed;
    /// What a request asks to store.
    type Draft;
    /// Why a draft is refused.
    type Fault;

    // The writer, which no call changes.
    ghost writer: { Self → ℕ };

    // The own list: the stores that it is the fold of.
    ghost own: { Self → List (Stored Self.Item) };

    // The block that is prepared and not taken in yet, beside the fold.
    ghost pending: { Self → Option (List Self.Item) };

    // What is decided by a writer on its own stores and a draft.
    ghost decides: { ℕ → List (Stored Self.Item) → Self.Draft → Decision Self.Item Self.Fault };

    // Whether what it keeps its stores by may fail.
    ghost loses: { Bool };

    /// Decides on a draft by the own list, which stays as it was. Where it answers `Items`, these are the pending block
    /// then, with all space that `commit` needs. `Memory` where the allocator refuses what the items or that space need.
    fn prepare(
        &mut self,
        alloc: Global,
        draft: Self::Draft,
    ) -> Result<Made<Self::Item>, Unmade<Self::Fault>>
        ensures kept { (writer self.new ≡ writer self.old) × (own self.new ≡ own self.old) }
        ensures decided { Prepares (decides (writer self.old) (own self.old) draft) result (pending self.new) };

    /// Takes the pending block in as a store from the position `first` on: at least 1 and above each position of the own
    /// list, with the last position below 2^48. The own list is lawful. Takes no memory. Where the store has to be kept
    /// elsewhere before it is made it may wait, and answers `Lost` where it isn't kept: the own list is as before.
    fn commit<R: Wait>(
        &mut self,
        rt: &R,
        first: u64,
        prepared: &Prepared<Self::Item>,
    ) -> Result<(), Lost>
        requires pending { pending self.old ≡ Some prepared.now.items }
        requires lane { IsLane Self.Item.lawful (writer self.old) (own self.old) }
        requires follows { MayFollow (own self.old) first prepared.now.items }
        ensures writer { writer self.new ≡ writer self.old }
        ensures own { OnOk result (own self.new ≡ with_store Self.Item.placed (writer self.old) (own self.old) first prepared.now.items) }
        ensures lost { OnErr result (own self.new ≡ own self.old) }
        ensures sure { loses ≡ false → IsOk result };

    // Decided items are 1 to 512, and a lawful store after the own list wherever they may be placed.
    ghost lawful: { AreLawful Self.Item.lawful Self.Item.placed decides };
}

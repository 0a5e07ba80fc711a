//! What a writer keeps its stores by.

ghost use Rattle.std.specs.Prelude.{◌≡◌, ℕ, Bool, true, false, List, IsOk, OnOk, OnErr};
ghost use Rattle.mx_core.specs.declared.history.Stored.{Stored};
ghost use Rattle.mx_writers.specs.Decision.{with_store};

use mx_core::{Placed, Prepared};
use mx_ids::Memory;
use mx_writers::Lost;
use std::alloc::Global;
use std::sync::Wait;

/// What one writer keeps its stores by, each before it is made.
pub trait Keeper<I: Placed>: Sized + Drop {
    // The writer, which no call changes.
    ghost writer: { Self → ℕ };

    // Whether it tells what is kept.
    ghost tells: { Bool };

    // Whether it may fail.
    ghost loses: { Bool };

    // The stores that are kept, in their order, where it tells them.
    ghost kept: { Self → List (Stored I) };

    // Whether a block of these items is ready to be kept.
    ghost ready: { Self → List I → Bool };

    /// Readies a block, with all memory that `keep` wants. What is kept stays as it was.
    fn prepare(&mut self, alloc: Global, prepared: &Prepared<I>) -> Result<(), Memory>
        ensures kept { (writer self.new ≡ writer self.old) × (kept self.new ≡ kept self.old) }
        ensures ready { OnOk result (ready self.new prepared.now.items ≡ true) };

    /// Keeps the block that is ready as a store from a position on. It may wait, and takes no memory. `Lost` where it
    /// isn't kept, which comes only of a keeper that may fail: what is kept stays as it was.
    fn keep<R: Wait>(&mut self, rt: &R, first: u64, prepared: &Prepared<I>) -> Result<(), Lost>
        requires ready { ready self.old prepared.now.items ≡ true }
        ensures writer { writer self.new ≡ writer self.old }
        ensures kept { OnOk result (tells ≡ true → kept self.new ≡ with_store I.placed (writer self.old) (kept self.old) first prepared.now.items) }
        ensures lost { OnErr result (kept self.new ≡ kept self.old) }
        ensures sure { loses ≡ false → IsOk result };
}

//! Items that carry their own position.

ghost use Rattle.std.specs.Prelude.{◌≡◌, ◌+◌, ◌^◌, ◌≤◌, ℕ, List, Bool, length};
ghost use Rattle.mx_core.specs.declared.history.Stored.{Stored};
ghost use Rattle.mx_core.specs.History.{placed_from};

use mx_ids::Seq;

/// An item that carries its own position, and the test of the lawful stores of such items.
pub trait Placed: Sized {
    // The test of a store: its writer, the stores of that writer before it, its first position, and its items.
    ghost lawful: { ℕ → List (Stored Self) → ℕ → List Self → Bool };

    // The item as it stands in a block: the block's first position, then the item's own.
    ghost placed: { Self → ℕ → ℕ → Self };

    /// Sets the item's own position to `at`, in a block that begins at `first`. Takes no memory.
    fn place(&mut self, first: u64, at: u64)
        ensures { self.new ≡ placed self.old first at };
}

/// A block of items that is ready to be stored once its positions are drawn.
#[derive(Debug, Drop)]
pub struct Prepared<I> {
    /// The items in order, each with no position yet.
    pub items: Seq<I>,
}

/// The items as they stand in a block that begins at a position. Takes no memory.
pub fn placed_at<I: Placed>(items: Seq<I>, first: u64) -> Seq<I>
    requires { first + length items ≤ 2 ^ 48 }
    ensures items { result ≡ placed_from I.placed first first items }
    ensures count { length result ≡ length items }
{
    let mut items = items.into_vec();
    let mut at = first;
    'items: for item in items.iter_mut() {
        item.place(first, at);
        at += 1;
    }
    Seq::from_vec(items)
}

//! The order of a book's stores by position: a list of indices into its history.

ghost use Rattle.std.specs.Prelude.{◌≡◌, ◌<◌, ◌≤◌, ◌+◌, ◌-◌, ◌^◌, [], ◌∷◌, ◌++◌, ◌⊎◌, ℕ, false, length, take, drop, slice_get, Some, vec_len};
ghost use Rattle.std.specs.Vec.{vec_capacity};
ghost use Rattle.std.specs.List.{AllByRecursion};
ghost use Rattle.mx_core.specs.declared.history.Stored.{Stored};
ghost use Rattle.mx_core.specs.History.{is_stored};
ghost use Rattle.mx_lanes.specs.Book.{IsBook};
ghost use Rattle.mx_lanes.specs.Order.{by_index, IsReach};

use crate::entry::Entry;

/// How far the stores reach from position 1 on without a gap.
#[derive(Clone, Copy, Debug)]
pub struct Reach {
    /// The number of stores that reach the front.
    pub passed: usize,
    /// The front.
    pub front: u64,
}

/// The store at a place of the order.
pub fn store_at<'a, I>(history: &'a [Entry<I>], order: &[usize], place: usize) -> &'a Entry<I>
    requires valid { AllByRecursion (λ i. i < length history.now) order.now }
    requires place { place < length order.now }
    ensures { slice_get (by_index history.now order.now) place ≡ Some result.now }
{
    &history[order[place]]
}

/// The place of a store that begins at `first`, among those that the front hasn't passed. It looks from the end, so it
/// costs time in the number of stores above `first`.
pub fn place_for<I: Drop>(history: &[Entry<I>], order: &[usize], passed: usize, first: u64) -> usize
    requires valid { AllByRecursion (λ i. i < length history.now) order.now }
    requires passed { passed ≤ length order.now }
    ensures bounds { (passed ≤ result) × (result ≤ length order.now) }
    ensures above { AllByRecursion (λ s. first < s.first) (drop result (by_index history.now order.now)) }
    ensures below { (result ≡ passed) ⊎ ((s : Stored I) × (slice_get (by_index history.now order.now) (result - 1) ≡ Some s) × (s.first ≤ first)) }
{
    let mut place = order.len();
    'places: while place > passed {
        if store_at(history, order, place - 1).first() <= first {
            return place;
        }
        place -= 1;
    }
    place
}

/// Passes each store that begins at the position after the front. Costs one look for each store that it passes.
pub fn advanced<I: Drop>(history: &[Entry<I>], order: &[usize], from: Reach) -> Reach
    requires valid { AllByRecursion (λ i. i < length history.now) order.now }
    requires reach { IsReach (by_index history.now order.now) from.passed from.front 0 }
    ensures reach { IsReach (by_index history.now order.now) result.passed result.front 1 }
    ensures passed { from.passed ≤ result.passed }
{
    let mut reach = from;
    'stores: while reach.passed < order.len() {
        let store = store_at(history, order, reach.passed);
        if store.first() != reach.front + 1 {
            return reach;
        }
        reach = Reach {
            passed: reach.passed + 1,
            front: reach.front + store.len(),
        };
    }
    reach
}

/// Puts a store at the end of the history and at its place in the order, and moves the front. Takes no memory.
pub fn put_store<I>(
    history: &mut Vec<Entry<I>>,
    order: &mut Vec<usize>,
    reach: Reach,
    store: Entry<I>,
) -> Reach
where
    I: Drop,
    requires book { IsBook history.old.items order.old.items reach.passed reach.front }
    requires history { vec_len history.old < vec_capacity history.old }
    requires order { vec_len order.old < vec_capacity order.old }
    requires items { 0 < length store.items }
    requires first { 1 ≤ store.first }
    requires last { store.first + length store.items ≤ 2 ^ 48 }
    requires apart { (p : ℕ) → store.first ≤ p → p < store.first + length store.items → is_stored history.old.items p ≡ false }
    ensures book { IsBook history.new.items order.new.items result.passed result.front }
    ensures history { history.new.items ≡ history.old.items ++ store ∷ [] }
    ensures lengths { (vec_len history.new ≡ vec_len history.old + 1) × (vec_len order.new ≡ vec_len order.old + 1) }
    ensures passed { reach.passed ≤ result.passed }
    ensures kept { (n : ℕ) → n ≤ reach.passed → take n (by_index history.new.items order.new.items) ≡ take n (by_index history.old.items order.old.items) }
    ensures space { (vec_capacity history.old ≤ vec_capacity history.new) × (vec_capacity order.old ≤ vec_capacity order.new) }
{
    let place = place_for(
        history.as_slice(),
        order.as_slice(),
        reach.passed,
        store.first(),
    );
    order.insert(place, history.len()).unwrap();
    history.push(store).unwrap();
    advanced(history.as_slice(), order.as_slice(), reach)
}

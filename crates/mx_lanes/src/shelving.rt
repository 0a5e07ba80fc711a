//! How stored items come onto the shelf.

ghost use Rattle.std.specs.Prelude.{◌≡◌, ◌<◌, ◌≤◌, ◌++◌, length, take, vec_len, IfOk, OnOk};
ghost use Rattle.std.specs.List.{AllByRecursion};
ghost use Rattle.std.specs.Vec.{vec_capacity};
ghost use Rattle.mx_core.specs.History.{items_of};
ghost use Rattle.mx_lanes.specs.Book.{IsShelved};
ghost use Rattle.mx_lanes.specs.Order.{by_index};

use crate::entry::Entry;
use crate::parts::Parts;
use crate::shared::Shared;
use crate::shelf::Shelf;
use mx_ids::{Copied, Memory};
use std::alloc::Global;

/// Brings the items of the first `passed` stores onto the shelf, which then shares them with the history. `Memory`
/// leaves a shelf that may be empty.
pub(crate) fn shelve<I: Drop>(
    alloc: Global,
    history: &mut Vec<Entry<I>>,
    order: &[usize],
    passed: usize,
    shelf: &mut Shelf<I>,
    shelved: &mut usize,
) -> Result<(), Memory>
    requires valid { AllByRecursion (λ i. i < length history.old.items) order.now }
    requires passed { passed ≤ length order.now }
    requires shelved { IsShelved history.old.items order.now passed shelved.old shelf.old }
    ensures same { (history.new.items ≡ history.old.items) × (vec_len history.new ≡ vec_len history.old) × (vec_capacity history.new ≡ vec_capacity history.old) }
    ensures shelved { IsShelved history.old.items order.now passed shelved.new shelf.new }
    ensures ok { OnOk result (shelf.new ≡ items_of (take passed (by_index history.old.items order.now))) }
{
    match shelve_from(alloc, history, order, passed, *shelved, shelf) {
        Ok(()) => {
            *shelved = passed;
            Ok(())
        }
        Err(refused) => {
            *shelf = Shelf::new(alloc);
            *shelved = 0;
            Err(refused)
        }
    }
}

fn shelve_from<I: Drop>(
    alloc: Global,
    history: &mut Vec<Entry<I>>,
    order: &[usize],
    passed: usize,
    from: usize,
    shelf: &mut Shelf<I>,
) -> Result<(), Memory>
    requires valid { AllByRecursion (λ i. i < length history.old.items) order.now }
    requires passed { passed ≤ length order.now }
    requires from { from ≤ passed }
    requires shelf { shelf.old ≡ items_of (take from (by_index history.old.items order.now)) }
    ensures same { (history.new.items ≡ history.old.items) × (vec_len history.new ≡ vec_len history.old) × (vec_capacity history.new ≡ vec_capacity history.old) }
    ensures ok { OnOk result (shelf.new ≡ items_of (take passed (by_index history.old.items order.now))) }
{
    'stores: for place in from..passed {
        history[order[place]].shelve(alloc, shelf)?;
    }
    Ok(())
}

/// Parts of some items, which are copied.
pub(crate) fn parts_of<I: Copied>(
    alloc: Global,
    items: &[I],
    stores: u64,
) -> Result<Parts<I>, Memory>
    ensures { IfOk result (λ p. p ≡ record { items = items.now; stores = stores }) }
{
    let mut shelf = Shelf::new(alloc);
    'items: for item in items {
        shelf.put(alloc, Shared::new(alloc, item.copy(alloc)?)?)?;
    }
    shelf.parts(alloc, items.len() as u64, stores)
}

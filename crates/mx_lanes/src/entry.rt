//! A store as a book has it.

ghost use Rattle.std.specs.Prelude.{◌≡◌, [], ◌++◌, length, reverse, OnOk};
ghost use Rattle.mx_core.specs.declared.history.Stored.{Stored};

use crate::shared::Shared;
use crate::shelf::Shelf;
use mx_ids::{Memory, Seq};
use std::alloc::Global;
use std::marker::Model;

/// One store of a book. Its items stand in the list that it was made of, until they move, each without a copy, to places
/// that the shelf has too. Contracts see it as the `Stored` of its items.
#[derive(Drop)]
pub(crate) struct Entry<I> {
    writer: u8,
    first: u64,
    /// The first items, which the shelf shares.
    shared: Vec<Shared<I>>,
    /// The items after them, the last one first: each moves from the end of this list.
    rest: Vec<I>,
}

impl<I> Model for Entry<I> {
    ghost use Rattle.std.specs.Prelude.{◌++◌, reverse};
    ghost use Rattle.mx_core.specs.declared.history.Stored.{Stored};

    ghost Value = { Stored I };

    ghost view = { λ e. record { writer = e.writer; first = e.first; items = e.shared.items ++ reverse e.rest.items } };
}

impl<I: Drop> Entry<I> {
    /// The store of a writer's items at the positions from `first` on. Takes no memory.
    pub(crate) fn new(writer: u8, first: u64, items: Seq<I>) -> Entry<I>
        ensures { result ≡ record { writer = writer; first = first; items = items } }
    {
        let mut rest = items.into_vec();
        rest.reverse();
        Entry {
            writer,
            first,
            shared: Vec::new(*rest.allocator()),
            rest,
        }
    }

    /// The position of the first item.
    pub(crate) fn first(&self) -> u64
        ensures { result ≡ self.now.first }
    {
        self.first
    }

    /// The number of items.
    pub(crate) fn len(&self) -> u64
        ensures { result ≡ length self.now.items }
    {
        (self.shared.len() + self.rest.len()) as u64
    }

    /// Puts the items at the end of a shelf, which then shares them. `Memory` leaves some of them there.
    pub(crate) fn shelve(&mut self, alloc: Global, shelf: &mut Shelf<I>) -> Result<(), Memory>
        ensures same { self.new ≡ self.old }
        ensures ok { OnOk result (shelf.new ≡ shelf.old ++ self.old.items) }
    {
        share(alloc, &mut self.shared, &mut self.rest)?;
        shelf.put_all(alloc, self.shared.as_slice())
    }
}

/// Moves items from the end of one list to places of their own, in another list. `Memory` leaves those that have no
/// place where they were.
fn share<I: Drop>(
    alloc: Global,
    shared: &mut Vec<Shared<I>>,
    rest: &mut Vec<I>,
) -> Result<(), Memory>
    ensures same { shared.new.items ++ reverse rest.new.items ≡ shared.old.items ++ reverse rest.old.items }
    ensures ok { OnOk result (rest.new.items ≡ []) }
{
    if rest.is_empty() {
        return Ok(());
    }
    shared.reserve_exact(rest.len())?;
    'items: while let Some(item) = rest.pop() {
        match Shared::new(alloc, item) {
            Ok(item) => shared.push_reserved(item),
            Err(failed) => {
                let (value, refused) = Memory::with_value(failed);
                rest.push_reserved(value);
                return Err(refused);
            }
        }
    }
    *rest = Vec::new(alloc);
    Ok(())
}

//! The book of a stream: its stores, its front, and the space of each lane.

ghost use Rattle.std.specs.Prelude.{◌≡◌, ◌<◌, ◌≤◌, ◌+◌, ◌^◌, [], ◌∷◌, ◌++◌, ℕ, false, length, IfOk, OnOk, OnErr};
ghost use Rattle.mx_core.specs.Front.{IsFront};
ghost use Rattle.mx_core.specs.History.{is_stored};
ghost use Rattle.mx_lanes.specs.Held.{empty, spare_of, Keeps, OthersKeep};
ghost use Rattle.mx_lanes.specs.Parts.{IsUpTo};

use crate::entry::Entry;
use crate::order::{Reach, put_store};
use crate::parts::Parts;
use crate::shelf::Shelf;
use crate::shelving::shelve;
use crate::space::total_spare;
use mx_ids::{Memory, Seq};
use std::alloc::Global;
use std::marker::Model;

/// The stores of a stream, with one lane for each writer, numbered from 0. A lane's space is made by `reserve`, so that
/// `store` takes no memory. Contracts see a book as a `Held`: its history, the spare space of each lane, and the front.
///
/// Beside the stores stands their order by position. A writer that holds one block at a time makes each store of the
/// others wait for at most that block, so a store is moved in this order at most once for each lane.
#[derive(Drop)]
pub struct Book<I> {
    history: Vec<Entry<I>>,
    order: Vec<usize>,
    reach: Reach,
    spares: Vec<u16>,
    /// The items of the first stores of the order, which history and parts share.
    shelf: Shelf<I>,
    /// How many stores these are.
    shelved: usize,
}

impl<I> Model for Book<I> {
    ghost use Rattle.std.specs.Prelude.{◌≤◌, length};
    ghost use Rattle.std.specs.Vec.{vec_len, vec_capacity};
    ghost use Rattle.mx_lanes.specs.Held.{Held};
    ghost use Rattle.mx_lanes.specs.Book.{IsBook, IsShelved};
    ghost use Rattle.mx_lanes.specs.Space.{HasSpace};

    ghost Value = { Held I };

    ghost view = { λ b. record { history = b.history.items; spare = b.spares.items; front = b.reach.front } };

    ghost invariant = { λ b. IsBook b.history.items b.order.items b.reach.passed b.reach.front
        × HasSpace b.spares.items (vec_len b.history) (vec_capacity b.history)
        × HasSpace b.spares.items (vec_len b.order) (vec_capacity b.order)
        × (length b.spares.items ≤ 255)
        × IsShelved b.history.items b.order.items b.reach.passed b.shelved b.shelf };
}

impl<I: Drop> Book<I> {
    /// An empty book of `writers` lanes, none of which has space. `Memory` where the allocator refuses their list.
    pub fn new(alloc: Global, writers: u8) -> Result<Book<I>, Memory>
        ensures { IfOk result (λ b. b ≡ empty writers) }
    {
        Ok(Book {
            history: Vec::new(alloc),
            order: Vec::new(alloc),
            reach: Reach {
                passed: 0,
                front: 0,
            },
            spares: vec![in alloc; 0; usize::from(writers)]?,
            shelf: Shelf::new(alloc),
            shelved: 0,
        })
    }

    /// Makes space for `count` items in a lane. Afterwards the lane's spare is at least `count` and at least what it
    /// was, and that of every other lane is as before. `Memory` leaves the book as it was.
    pub fn reserve(&mut self, lane: u8, count: u16) -> Result<(), Memory>
        requires { lane < length self.old.spare }
        ensures space { OnOk result (count ≤ spare_of self.new lane) }
        ensures kept { Keeps self.old self.new }
        ensures others { OthersKeep lane self.old self.new }
        ensures same { OnErr result (self.new ≡ self.old) }
    {
        let lane = usize::from(lane);
        let spare = self.spares[lane];
        let more = count.saturating_sub(spare);
        let space = total_spare(self.spares.as_slice()) + usize::from(more);
        self.history.reserve(space)?;
        self.order.reserve(space)?;
        self.spares[lane] = spare + more;
        Ok(())
    }

    /// Stores items of a lane's writer at the positions from `first` on, of which none is stored yet and the last is
    /// below 2^48. Takes no memory: the lane has space for the items, and its spare falls by their number.
    pub fn store(&mut self, lane: u8, first: u64, items: Seq<I>)
        requires lane { lane < length self.old.spare }
        requires items { 0 < length items }
        requires first { 1 ≤ first }
        requires last { first + length items ≤ 2 ^ 48 }
        requires space { length items ≤ spare_of self.old lane }
        requires apart { (p : ℕ) → first ≤ p → p < first + length items → is_stored self.old.history p ≡ false }
        ensures history { self.new.history ≡ self.old.history ++ record { writer = lane; first = first; items = items } ∷ [] }
        ensures front { IsFront self.new.history self.new.front }
        ensures spare { spare_of self.new lane + length items ≡ spare_of self.old lane }
        ensures others { OthersKeep lane self.old self.new }
    {
        let holder = usize::from(lane);
        self.spares[holder] = left_of(self.spares[holder], items.len());
        let entry = Entry::new(lane, first, items);
        self.reach = put_store(&mut self.history, &mut self.order, self.reach, entry);
    }

    /// The front: the greatest position such that each position from 1 to it is stored. Takes no memory.
    pub fn front(&self) -> u64
        ensures value { result ≡ self.now.front }
        ensures front { IsFront self.now.history result }
    {
        self.reach.front
    }

    /// The number of stores. Takes no memory.
    pub fn stores(&self) -> u64
        ensures { result ≡ length self.now.history }
    {
        self.history.len() as u64
    }

    /// The items at the positions from 1 to `front`, which is at most the book's front: a later store doesn't change
    /// them. No item is copied: the book and all parts share it. Each moves once in the book's life, to a place of its own;
    /// beyond that it costs a count for each full segment of 1,024 items, and one for each item after them. The book
    /// stands for the same history afterwards. `Memory` where the allocator refuses the lists, or a place for an item.
    pub fn up_to(&mut self, alloc: Global, front: u64) -> Result<Parts<I>, Memory>
        requires { front ≤ self.old.front }
        ensures found { IfOk result (λ parts. IsUpTo self.old.history front parts) }
        ensures kept { Keeps self.old self.new }
    {
        shelve(
            alloc,
            &mut self.history,
            self.order.as_slice(),
            self.reach.passed,
            &mut self.shelf,
            &mut self.shelved,
        )?;
        self.shelf.parts(alloc, front, self.history.len() as u64)
    }
}

/// The spare space that is left when items are stored.
fn left_of(spare: u16, count: usize) -> u16
    requires { count ≤ spare }
    ensures { result + count ≡ spare }
{
    spare - count as u16
}

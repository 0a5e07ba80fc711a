//! The items of a stream up to a front.

ghost use Rattle.std.specs.Prelude.{◌≡◌, ◌++◌, ◌<◌, ◌≤◌, ◌↔◌, IsSome, IfOk, [], true, length, slice_get, slice_index_or};
ghost use Rattle.std.specs.Option.{option_copied};
ghost use Rattle.mx_lanes.specs.Parts.{part_at};
ghost use Rattle.mx_lanes.specs.Segments.{all_full, joined};

use crate::shared::Shared;
use crate::shelving::parts_of;
use mx_ids::{Copied, Memory, Seq};
use std::alloc::Global;
use std::marker::Model;

/// The number of items of a segment.
pub(crate) const SEGMENT: usize = 1024;

/// Full segments, each shared by all parts that have it.
pub(crate) type Segments<I> = Seq<Shared<Seq<Shared<I>>>>;

/// The items of a stream at the positions from 1 to a front, as they were when they were taken. They are shared with
/// other parts of the same stream.
#[derive(Drop)]
pub struct Parts<I> {
    full: Segments<I>,
    tail: Seq<Shared<I>>,
    front: u64,
    stores: u64,
}

impl<I> Model for Parts<I> {
    ghost use Rattle.std.specs.Prelude.{◌≡◌, ◌++◌, true, length};
    ghost use Rattle.mx_lanes.specs.Parts.{Taken};
    ghost use Rattle.mx_lanes.specs.Segments.{all_full, joined};

    ghost Value = { Taken I };

    ghost view = { λ p. record { items = joined p.full ++ p.tail; stores = p.stores } };

    ghost invariant = { λ p. (all_full p.full ≡ true) × (length (joined p.full ++ p.tail) ≡ p.front) };
}

impl<I: Copied> Parts<I> {
    /// Parts that have copies of some items, of a number of stores.
    pub fn of(alloc: Global, items: &[I], stores: u64) -> Result<Parts<I>, Memory>
        ensures { IfOk result (λ p. p ≡ record { items = items.now; stores = stores }) }
    {
        parts_of(alloc, items, stores)
    }
}

impl<I> Parts<I> {
    /// No items, of no store. Takes no memory.
    pub fn none(alloc: Global) -> Parts<I>
        ensures { result ≡ record { items = []; stores = 0 } }
    {
        Parts {
            full: Seq::new(alloc),
            tail: Seq::new(alloc),
            front: 0,
            stores: 0,
        }
    }

    pub(crate) fn new(full: Segments<I>, tail: Seq<Shared<I>>, front: u64, stores: u64) -> Parts<I>
        requires full { all_full full ≡ true }
        requires front { length (joined full ++ tail) ≡ front }
        ensures { result ≡ record { items = joined full ++ tail; stores = stores } }
    {
        Parts {
            full,
            tail,
            front,
            stores,
        }
    }

    /// The front that the items reach: their number. Takes no memory.
    pub fn front(&self) -> u64
        ensures { result ≡ length self.now.items }
    {
        self.front
    }

    /// The number of stores that the book had made. Takes no memory.
    pub fn stores(&self) -> u64
        ensures { result ≡ self.now.stores }
    {
        self.stores
    }

    /// The item at a position: `None` exactly where the position is 0 or above the front. Takes no memory.
    pub fn at(&self, position: u64) -> Option<&I>
        ensures item { option_copied result ≡ part_at self.now position }
        ensures within { IsSome result ↔ ((0 < position) × (position ≤ length self.now.items)) }
    {
        if position == 0 {
            None
        } else {
            at_index(
                self.full.as_slice(),
                self.tail.as_slice(),
                (position - 1) as usize,
            )
        }
    }
}

fn at_index<'a, I>(
    full: &'a [Shared<Seq<Shared<I>>>],
    tail: &'a [Shared<I>],
    index: usize,
) -> Option<&'a I>
    requires { all_full full.now ≡ true }
    ensures { option_copied result ≡ slice_get (joined full.now ++ tail.now) index }
{
    let place = index / SEGMENT;
    if place < full.len() {
        at_place(segment_at(full, place), index % SEGMENT)
    } else {
        at_place(tail, index - full.len() * SEGMENT)
    }
}

/// The items of a full segment.
pub(crate) fn segment_at<I>(full: &[Shared<Seq<Shared<I>>>], place: usize) -> &[Shared<I>]
    requires { place < length full.now }
    ensures { result.now ≡ slice_index_or full.now place [] }
{
    full[place].get().as_slice()
}

fn at_place<'a, I>(items: &'a [Shared<I>], index: usize) -> Option<&'a I>
    ensures { option_copied result ≡ slice_get items.now index }
{
    match items.get(index) {
        Some(item) => Some(item.get()),
        None => None,
    }
}

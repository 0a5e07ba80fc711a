//! A list that hands out its beginnings.

ghost use Rattle.std.specs.Prelude.{◌≡◌, ◌<◌, ◌≤◌, ◌++◌, [], ◌∷◌, true, length, take, IfOk, OnOk, OnErr};
ghost use Rattle.mx_lanes.specs.Segments.{all_full, joined};

use crate::parts::{Parts, SEGMENT, Segments, segment_at};
use crate::shared::Shared;
use mx_ids::{Copied, Memory, Seq};
use std::alloc::Global;
use std::marker::Model;

/// Items, of which each beginning can be handed out: full segments are shared, and of the rest each item is.
#[derive(Drop)]
pub struct Shelf<I> {
    full: Segments<I>,
    tail: Seq<Shared<I>>,
}

impl<I> Model for Shelf<I> {
    ghost use Rattle.std.specs.Prelude.{◌≡◌, ◌<◌, ◌≤◌, ◌++◌, true, List, length};
    ghost use Rattle.std.specs.Coded.{coded_list};
    ghost use Rattle.mx_lanes.specs.Segments.{all_full, joined};

    ghost Value = { List I };

    ghost coded = { coded_list I.code };

    ghost view = { λ s. joined s.full ++ s.tail };

    ghost invariant = { λ s. (all_full s.full ≡ true) × (length s.tail ≤ 1024) };
}

impl<I: Drop> Shelf<I> {
    /// No items. Takes no memory.
    pub fn new(alloc: Global) -> Shelf<I>
        ensures { result ≡ [] }
    {
        Shelf {
            full: Seq::new(alloc),
            tail: Seq::new(alloc),
        }
    }

    /// Puts items at the end: each costs a count, in amortised constant time. `Memory` leaves some of them there.
    pub fn put_all(&mut self, alloc: Global, items: &[Shared<I>]) -> Result<(), Memory>
        ensures { OnOk result (self.new ≡ self.old ++ items.now) }
    {
        'items: for item in items {
            self.put(alloc, item.copy(alloc)?)?;
        }
        Ok(())
    }

    /// Puts an item at the end. Takes amortised constant time. `Memory` leaves the items as they were.
    pub fn put(&mut self, alloc: Global, item: Shared<I>) -> Result<(), Memory>
        ensures ok { OnOk result (self.new ≡ self.old ++ item ∷ []) }
        ensures same { OnErr result (self.new ≡ self.old) }
    {
        if self.tail.len() == SEGMENT {
            seal(alloc, &mut self.full, &mut self.tail)?;
        }
        self.tail.push(item)
    }

    /// The first `front` items, beside a number of stores. Takes time for each full segment, and for each item after
    /// the last of them: no item is copied.
    pub fn parts(&self, alloc: Global, front: u64, stores: u64) -> Result<Parts<I>, Memory>
        requires { front ≤ length self.now }
        ensures { IfOk result (λ p. p ≡ record { items = take front self.now; stores = stores }) }
    {
        let (full, tail) = beginning(
            alloc,
            self.full.as_slice(),
            self.tail.as_slice(),
            front as usize,
        )?;
        Ok(Parts::new(full, tail, front, stores))
    }
}

/// Segments and a tail that have the first `front` items.
fn beginning<I: Drop>(
    alloc: Global,
    full: &[Shared<Seq<Shared<I>>>],
    tail: &[Shared<I>],
    front: usize,
) -> Result<(Segments<I>, Seq<Shared<I>>), Memory>
    requires full { all_full full.now ≡ true }
    requires front { front ≤ length (joined full.now ++ tail.now) }
    ensures full { IfOk result (λ p. all_full p.0 ≡ true) }
    ensures items { IfOk result (λ p. joined p.0 ++ p.1 ≡ take front (joined full.now ++ tail.now)) }
{
    let place = front / SEGMENT;
    if place < full.len() {
        cut(alloc, full, place, segment_at(full, place), front % SEGMENT)
    } else {
        cut(alloc, full, full.len(), tail, front - full.len() * SEGMENT)
    }
}

/// Some first segments, and some first items of a tail.
fn cut<I: Drop>(
    alloc: Global,
    full: &[Shared<Seq<Shared<I>>>],
    place: usize,
    tail: &[Shared<I>],
    rest: usize,
) -> Result<(Segments<I>, Seq<Shared<I>>), Memory>
    requires place { place ≤ length full.now }
    requires rest { rest ≤ length tail.now }
    ensures { IfOk result (λ p. (p.0 ≡ take place full.now) × (p.1 ≡ take rest tail.now)) }
{
    let segments = copies(alloc, &full[..place])?;
    let items = copies(alloc, &tail[..rest])?;
    Ok((segments, items))
}

/// Makes a segment of a tail that fills one.
fn seal<I: Drop>(
    alloc: Global,
    full: &mut Segments<I>,
    tail: &mut Seq<Shared<I>>,
) -> Result<(), Memory>
    requires length { length tail.old ≡ 1024 }
    requires full { all_full full.old ≡ true }
    ensures full { all_full full.new ≡ true }
    ensures ok { OnOk result (tail.new ≡ []) }
    ensures err { OnErr result (tail.new ≡ tail.old) }
    ensures same { joined full.new ++ tail.new ≡ joined full.old ++ tail.old }
{
    let segment = Shared::new(alloc, tail.copy(alloc)?)?;
    full.push(segment)?;
    *tail = Seq::new(alloc);
    Ok(())
}

fn copies<T: Copied>(alloc: Global, from: &[T]) -> Result<Seq<T>, Memory>
    ensures { IfOk result (λ made. made ≡ from.now) }
{
    let mut made = Vec::with_capacity(alloc, from.len())?;
    'items: for item in from {
        made.push(item.copy(alloc)?)?;
    }
    Ok(Seq::from_vec(made))
}

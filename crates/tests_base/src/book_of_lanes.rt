//! A book of three lanes, and the laws at a concrete type.

ghost use Rattle.std.specs.Prelude.{◌≡◌, ◌≤◌, [], ◌∷◌, length, IfOk};
ghost use Rattle.mx_lanes.specs.Held.{spare_of};

use mx_ids::{Memory, Seq};
use mx_lanes::{
    Book, Parts, book_stands_for_one_history, book_stands_still, book_stands_with_one_store_more,
};
use std::alloc::Global;
use std::process::Abort;

fn one(alloc: Global, item: u64) -> Result<Seq<u64>, Memory>
    ensures { IfOk result (λ items. items ≡ item ∷ []) }
{
    let mut items = Seq::new(alloc);
    items.push(item)?;
    Ok(items)
}

fn three_lanes(alloc: Global) -> Result<Book<u64>, Memory>
    ensures history { IfOk result (λ b. b.history ≡ []) }
    ensures lanes { IfOk result (λ b. length b.spare ≡ 3) }
    ensures first { IfOk result (λ b. 1 ≤ spare_of b 0) }
    ensures second { IfOk result (λ b. 1 ≤ spare_of b 1) }
    ensures third { IfOk result (λ b. 1 ≤ spare_of b 2) }
{
    let mut book = Book::new(alloc, 3)?;
    book.reserve(0, 1)?;
    book.reserve(1, 1)?;
    book.reserve(2, 1)?;
    Ok(book)
}

/// Stores the items 30, 10 and 20 at the positions 3, 1 and 2, and answers the parts up to the first front that isn't 0.
fn filled(rt: &impl Abort, alloc: Global, book: &mut Book<u64>) -> Parts<u64>
    requires history { book.old.history ≡ [] }
    requires lanes { length book.old.spare ≡ 3 }
    requires first { 1 ≤ spare_of book.old 0 }
    requires second { 1 ≤ spare_of book.old 1 }
    requires third { 1 ≤ spare_of book.old 2 }
    ensures { 3 ≤ book.new.front }
{
    let third = one(alloc, 30).expect(rt, "memory");
    let first = one(alloc, 10).expect(rt, "memory");
    let second = one(alloc, 20).expect(rt, "memory");
    book.store(2, 3, third);
    assert_eq!(rt; book.front(), 0);
    book.store(0, 1, first);
    assert_eq!(rt; book.front(), 1);
    let parts = book.up_to(alloc, 1).expect(rt, "memory");
    book.store(1, 2, second);
    assert_eq!(rt; book.front(), 3);
    parts
}

/// Whether parts are the first item alone, of two stores.
fn are_first(parts: &Parts<u64>) -> bool {
    parts.front() == 1
        && parts.stores() == 2
        && parts.at(0).is_none()
        && parts.at(1).copied() == Some(10)
        && parts.at(2).is_none()
}

#[test]
fn stores_out_of_order_move_the_front(rt: HostRuntime) {
    let alloc = rt.alloc();
    let mut book = three_lanes(alloc).expect(&rt, "memory");
    let parts = filled(&rt, alloc, &mut book);
    assert!(rt; are_first(&parts));
    assert_eq!(rt; book.stores(), 3);
    let all = book.up_to(alloc, 3).expect(&rt, "memory");
    assert_eq!(rt; all.at(3).copied(), Some(30));
    drop(all);
    drop(parts);
    drop(book);
}

#[test]
fn laws_hold_of_numbers() {
    book_stands_for_one_history::<u64>();
    book_stands_with_one_store_more::<u64>();
    book_stands_still::<u64>();
}

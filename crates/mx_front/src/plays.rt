//! What each step at a stream's table tells.

ghost use Rattle.mx_front.specs.Told.{claimed, came, looked, glanced, read_next, drew, put, left, learned, next_maker, new_pen, same, reader_of, sharing, sharer_of, lending, lent, both, hearing, borrowing, spent};

use crate::view::View;
use atomic_table::{Join, Play, Split};
use mx_core::Placed;
use mx_lanes::Book;
use std::marker::PhantomData;

/// A try to take a ticket.
pub struct Claimed;

impl<I> Play<Option<Book<I>>, View<I>> for Claimed {
    ghost then = { claimed };
}

/// A look at the ticket that is served: the seat takes the book where the ticket is its own.
pub struct Came;

impl<I> Play<Option<Book<I>>, View<I>> for Came {
    ghost then = { came };
}

/// With the turn, a look at the stores.
pub struct Looked<I> {
    of: PhantomData<I>,
}

impl<I: Placed> Play<Option<Book<I>>, View<I>> for Looked<I> {
    ghost then = { looked I.lawful };
}

/// Without a turn, a look at the stores.
pub struct Glanced<I> {
    of: PhantomData<I>,
}

impl<I: Placed> Play<Option<Book<I>>, View<I>> for Glanced<I> {
    ghost then = { glanced I.lawful };
}

/// The number of positions that were drawn is read.
pub struct ReadNext;

impl<I> Play<Option<Book<I>>, View<I>> for ReadNext {
    ghost then = { read_next };
}

/// A block is drawn.
pub struct Drew;

impl<I> Play<Option<Book<I>>, View<I>> for Drew {
    ghost then = { drew };
}

/// With the turn, one store more.
pub struct Put;

impl<I> Play<Option<Book<I>>, View<I>> for Put {
    ghost then = { put };
}

/// The turn is over: the book goes back into the slot.
pub struct Left;

impl<I> Play<Option<Book<I>>, View<I>> for Left {
    ghost then = { left };
}

/// It is learned that what was seen and what was heard of begin one history.
pub struct Learned<I> {
    of: PhantomData<I>,
}

impl<I: Placed> Play<Option<Book<I>>, View<I>> for Learned<I> {
    ghost then = { learned I.lawful };
}

/// A pen is made.
pub struct PenMade;

impl<I> Split<View<I>> for PenMade {
    ghost left = { next_maker };

    ghost right = { new_pen };
}

/// A reader that has seen as much.
pub struct Parted;

impl<I> Split<View<I>> for Parted {
    ghost left = { same };

    ghost right = { reader_of };
}

/// Two that share the right to store, in the place of one.
pub struct Shared;

impl<I> Split<View<I>> for Shared {
    ghost left = { sharing };

    ghost right = { sharer_of };
}

/// A right to store goes from one seat to another, with what the first has seen.
pub struct Lent;

impl<I> Split<View<I>> for Lent {
    ghost left = { lending };

    ghost right = { lent };
}

impl<I> Join<View<I>> for Lent {
    ghost both = { borrowing };

    ghost spent = { spent };
}

/// What both have seen and heard of.
pub struct Met;

impl<I> Join<View<I>> for Met {
    ghost both = { both };

    ghost spent = { spent };
}

/// A seat hears of what another has seen.
pub struct Heard;

impl<I> Join<View<I>> for Heard {
    ghost both = { hearing };

    ghost spent = { spent };
}

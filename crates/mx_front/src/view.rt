//! What a pen or a pass knows of its stream.

ghost use Rattle.std.specs.Prelude.{ℕ, List};
ghost use Rattle.mx_core.specs.declared.history.Stored.{Stored};

use mx_core::{Block, Stored};
use std::marker::{Model, PhantomData};

/// Where a seat stands in the queue for the book.
pub enum Turn {
    /// It has no ticket.
    Idle,
    /// It waits with a ticket.
    Waits(u64),
    /// Its ticket is served: it may take the book.
    Has(u64),
}

/// What a seat is. Writers are numbered from 0.
pub enum Role {
    /// It only reads.
    Reader,
    /// It reads, and makes the pens: the number of those that it has made.
    Maker(u8),
    /// It is the pen of a writer.
    Pen(u8),
}

/// Whether a seat may store. A pass has the right to; a pen has it of the pass with which it stores, while it stores.
pub enum Right {
    /// It may not.
    Nothing,
    /// It may, and so may others.
    Shared,
    /// It may, and no other seat may until this one is split.
    Alone,
}

/// What a seat at a stream's table knows. No value of it is made: it is for contracts.
pub struct View<I> {
    pub turn: Turn,
    pub who: Role,
    /// The block that a pen has drawn and not stored yet.
    pub block: Option<Block>,
    /// How many items the pen's lane has space for.
    pub reserve: u64,
    /// A value of `next` that was read.
    pub read: u64,
    /// The value was read for a draw that isn't made yet.
    pub fresh: bool,
    /// The number of looks.
    pub looks: u64,
    /// Each store of the stream is of a writer below this number.
    pub writers: u8,
    /// Whether it may store.
    pub right: Right,
    of: PhantomData<Stored<I>>,
    /// The stores that it has seen.
    pub ghost seen: { List (Stored I) },
    /// Stores that another has seen, before it is learned that they begin the same history.
    pub ghost heard: { List (Stored I) },
    /// The stores of a pen's writer.
    pub ghost own: { List (Stored I) },
    /// With the turn: the stores of the book.
    pub ghost all: { List (Stored I) },
    /// With the turn: how many items each lane has space for.
    pub ghost spares: { List ℕ },
}

impl<I> Model for View<I> {
    ghost use Rattle.std.specs.Borrow.{ftrue};

    ghost also_owns = { λ _. ftrue };
}

//! The table of a stream: its words, its slot and its rule.
//!
//! Word 0 is the next ticket, word 1 the ticket that is served, word 2 the number of positions that were drawn, and word
//! 3 the number of stores. The slot has the book, unless the seat whose ticket is served has it in hand.

use crate::view::View;
use atomic_table::{Seat, Table, TableRule};
use mx_core::Placed;
use mx_lanes::Book;
use std::alloc::Global;

/// The word of the next ticket, which a split and a join of seats load too.
pub const TICKET: usize = 0;
/// The word of the ticket that is served.
pub const SERVING: usize = 1;
/// The word of the number of positions that were drawn.
pub const NEXT: usize = 2;
/// The word of the number of stores.
pub const COUNT: usize = 3;

/// What a stream is told when it is made.
#[derive(Drop)]
pub struct Key {
    /// No block is drawn once this many positions were.
    pub stop: u64,
    /// The number of writers.
    pub writers: u8,
}

/// The rule of a stream's table.
pub struct Order;

impl<I: Placed> TableRule<Option<Book<I>>, View<I>, Key> for Order {
    ghost use Rattle.mx_front.specs.World.{Ruled, opening_view};

    ghost holds = { Ruled I.lawful };

    ghost first = { opening_view };
}

pub type Board<I> = Table<Option<Book<I>>, View<I>, Key, Order, Global>;

pub type Place<I> = Seat<Option<Book<I>>, View<I>>;

//! The turn of a seat: a ticket, the book in hand, and the end of the turn.

ghost use Rattle.std.specs.Prelude.{◌≡◌, ◌+◌, ◌^◌, ◌<◌, ◌≤◌, [], ◌∷◌, None, length, slice_index, IfOk, OnOk};
ghost use Rattle.mx_lanes.specs.Held.{Held};
ghost use Rattle.mx_lanes.specs.Parts.{IsUpTo};
ghost use Rattle.mx_front.specs.Told.{leaving};
ghost use Rattle.mx_front.specs.Turns.{holding, HasBook, Entered, Seized, Ready, Stores, Grown, MayLeave};

use crate::board::{COUNT, Key, Order, Place, SERVING, TICKET};
use crate::front::Stream;
use crate::plays;
use crate::queue::{Owed, claim, come};
use crate::view::View;
use mx_core::Placed;
use mx_ids::{Memory, Seq};
use mx_lanes::{Book, Parts};
use std::alloc::Global;
use std::sync::Wait;

impl<I: Placed + Drop> Stream<I> {
    /// Waits for a turn, and takes the book.
    pub(crate) fn enter<R: Wait>(&self, rt: &R, seat: &mut Place<I>) -> Owed
        requires table { seat.old.table_id ≡ self.now.table.shared.table_id }
        requires bare { seat.old.me.1 ≡ [] }
        ensures table { seat.new.table_id ≡ seat.old.table_id }
        ensures entered { Entered seat.old.me.0 result.ticket seat.new.me }
    {
        let top = &self.table.shared;
        let ticket = claim::<plays::Claimed, Option<Book<I>>, View<I>, Key, Order, R>(
            rt, top, seat, TICKET,
        );
        come::<plays::Came, Option<Book<I>>, View<I>, Key, Order, R>(
            rt, top, seat, SERVING, ticket,
        );
        Owed { ticket }
    }

    /// Waits for a turn, takes the book, and looks at its stores: `count` is then their number.
    pub(crate) fn seize<R: Wait>(&self, rt: &R, seat: &mut Place<I>, count: &mut u64) -> Owed
        requires table { seat.old.table_id ≡ self.now.table.shared.table_id }
        requires bare { seat.old.me.1 ≡ [] }
        ensures table { seat.new.table_id ≡ seat.old.table_id }
        ensures seized { Seized I.lawful seat.old.me.0 result.ticket seat.new.me }
        ensures count { count.new ≡ length seat.new.me.0.seen }
    {
        let owed = self.enter(rt, seat);
        *count = self.table.shared.load::<plays::Looked<I>>(seat, COUNT);
        owed
    }

    /// Takes the book out of the slot in hand.
    fn take_book(&self, seat: &mut Place<I>) -> Book<I>
        requires table { seat.old.table_id ≡ self.now.table.shared.table_id }
        requires book { HasBook seat.old.me }
        ensures table { seat.new.table_id ≡ seat.old.table_id }
        ensures book { seat.old.me.1 ≡ holding result }
        ensures seat { seat.new.me ≡ (seat.old.me.0, (0, None) ∷ []) }
    {
        self.table.shared.exchange(seat, 0, None).unwrap()
    }

    /// Puts the book back into the slot in hand.
    fn put_book(&self, seat: &mut Place<I>, book: Book<I>)
        requires table { seat.old.table_id ≡ self.now.table.shared.table_id }
        requires empty { seat.old.me.1 ≡ (0, None) ∷ [] }
        ensures table { seat.new.table_id ≡ seat.old.table_id }
        ensures seat { seat.new.me ≡ (seat.old.me.0, holding book) }
    {
        self.table.shared.exchange(seat, 0, Some(book));
    }

    /// Stores items in the turn: `count` is then the number of stores. Returns the front. Takes no memory.
    pub(crate) fn put_store(
        &self,
        seat: &mut Place<I>,
        writer: u8,
        first: u64,
        items: Seq<I>,
        count: &mut u64,
    ) -> u64
        requires table { seat.old.table_id ≡ self.now.table.shared.table_id }
        requires ready { (b : Held I) × Ready I.lawful seat.old.me (record { writer = writer; first = first; items = items }) b }
        ensures table { seat.new.table_id ≡ seat.old.table_id }
        ensures stored { Stores seat.old.me.0 (record { writer = writer; first = first; items = items }) result seat.new.me }
        ensures count { count.new ≡ length seat.new.me.0.seen }
    {
        let mut book = self.take_book(seat);
        book.store(writer, first, items);
        let front = book.front();
        let stores = book.stores();
        self.put_book(seat, book);
        self.table.shared.store::<plays::Put>(seat, COUNT, stores);
        *count = stores;
        front
    }

    /// Makes space for `count` items in the writer's lane, in the turn. `Memory` leaves the book as it was.
    pub(crate) fn more_space(
        &self,
        seat: &mut Place<I>,
        writer: u8,
        count: u16,
    ) -> Result<(), Memory>
        requires table { seat.old.table_id ≡ self.now.table.shared.table_id }
        requires book { (b : Held I) × (seat.old.me.1 ≡ holding b) × (writer < length b.spare) }
        ensures table { seat.new.table_id ≡ seat.old.table_id }
        ensures grown { Grown seat.old.me seat.new.me }
        ensures space { OnOk result ((b : Held I) → seat.new.me.1 ≡ holding b → count ≤ slice_index b.spare writer) }
    {
        let mut book = self.take_book(seat);
        let made = book.reserve(writer, count);
        self.put_book(seat, book);
        made
    }

    /// Ends the turn: the book goes back, and the next ticket is served.
    pub(crate) fn leave(&self, seat: &mut Place<I>, owed: Owed)
        requires table { seat.old.table_id ≡ self.now.table.shared.table_id }
        requires turn { (b : Held I) × MayLeave seat.old.me owed.ticket b }
        ensures table { seat.new.table_id ≡ seat.old.table_id }
        ensures left { (b : Held I) → seat.old.me.1 ≡ holding b → seat.new.me ≡ (leaving seat.old.me.0 b, []) }
    {
        let Owed { ticket } = owed;
        self.table
            .shared
            .store::<plays::Left>(seat, SERVING, ticket + 1);
    }

    /// The items up to the front, in the turn.
    pub(crate) fn read_parts(&self, alloc: Global, seat: &mut Place<I>) -> Result<Parts<I>, Memory>
        requires table { seat.old.table_id ≡ self.now.table.shared.table_id }
        requires book { HasBook seat.old.me }
        ensures table { seat.new.table_id ≡ seat.old.table_id }
        ensures grown { Grown seat.old.me seat.new.me }
        ensures parts { IfOk result (λ parts. (b : Held I) → seat.old.me.1 ≡ holding b → IsUpTo b.history b.front parts) }
    {
        let mut book = self.take_book(seat);
        let front = book.front();
        let parts = book.up_to(alloc, front);
        self.put_book(seat, book);
        parts
    }
}

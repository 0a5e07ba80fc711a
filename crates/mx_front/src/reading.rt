//! What a pass does: it looks at the stores, meets another pass, and notes what a pen has seen.

ghost use Rattle.std.specs.Prelude.{◌≡◌, IfOk, IsOk, length};
ghost use Rattle.mx_front.specs.Calls.{Looks, Shows, Meets, Notes};
ghost use Rattle.mx_front.specs.Shown.{place_of, known, number, place_of_pen, reads, seen_by, place_of_pass};
ghost use Rattle.mx_front.specs.Told.{Learned, hearing, sharer_of, sharing};

use crate::board::{COUNT, Place, TICKET};
use crate::front::Stream;
use crate::handles::{Pass, Pen};
use crate::plays;
use mx_core::Placed;
use mx_ids::Memory;
use mx_lanes::Parts;
use std::alloc::Global;
use std::sync::Wait;

impl<I: Placed + Drop> Stream<I> {
    /// The items up to the front of some stores, which all that the pass had seen begins, and which have at least as
    /// many items as each value of `next` that the pass has kept, less 8,192: so far is it told which moment they are of.
    /// The pass has then seen just these, all by writers below the number that it knows, and its number of looks rises
    /// by one, also where the answer is `Memory`. A pass that alone may store finds what it had seen. Waits for its turn at the stream. `Memory` where the allocator refuses
    /// the list, or a place for an item.
    pub fn look<R: Wait>(
        &self,
        rt: &R,
        alloc: Global,
        pass: &mut Pass<I>,
    ) -> Result<Parts<I>, Memory>
        requires stream { place_of_pass pass.old ≡ place_of self.now }
        ensures stream { place_of_pass pass.new ≡ place_of_pass pass.old }
        ensures seen { Looks I.lawful (reads pass.old) (reads pass.new) }
        ensures parts { IfOk result (λ parts. Shows (seen_by pass.new) parts) }
    {
        let door = self.door.lock(rt);
        let owed = self.seize(rt, &mut pass.seat, &mut pass.stores);
        let parts = self.read_parts(alloc, &mut pass.seat);
        self.leave(&mut pass.seat, owed);
        drop(door);
        parts
    }

    /// A look that answers no items: the pass has then seen more stores, as after `look`, and its number of looks rises
    /// by one. Waits for nobody and takes no memory: one load.
    pub fn glance(&self, pass: &mut Pass<I>)
        requires stream { place_of_pass pass.old ≡ place_of self.now }
        ensures stream { place_of_pass pass.new ≡ place_of_pass pass.old }
        ensures seen { Looks I.lawful (reads pass.old) (reads pass.new) }
    {
        pass.stores = self
            .table
            .shared
            .load::<plays::Glanced<I>>(&mut pass.seat, COUNT);
    }

    /// A new pass that has seen what a pass of this stream has seen, and has kept its value of `next`. Both may store, so
    /// neither alone any more. Always `Ok`: a pass takes no memory.
    pub fn pass(&self, from: &mut Pass<I>) -> Result<Pass<I>, Memory>
        requires stream { place_of_pass from.old ≡ place_of self.now }
        ensures ok { IsOk result }
        ensures stream { (place_of_pass from.new ≡ place_of_pass from.old) × IfOk result (λ pass. place_of_pass pass ≡ place_of_pass from.old) }
        ensures from { reads from.new ≡ sharing (reads from.old) }
        ensures pass { IfOk result (λ pass. reads pass ≡ sharer_of (reads from.old)) }
    {
        let seat = self
            .table
            .shared
            .split_seat::<plays::Shared>(&mut from.seat);
        Ok(Pass {
            seat,
            stores: from.stores,
        })
    }

    /// Lets a pass see what another pass of the same stream has seen: the longer of the two lists, which both begin.
    /// It keeps the greater of their values of `next`, and its own number of looks. A pass that alone may store had seen all
    /// that the other has. Takes no memory.
    pub fn meet(&self, pass: &mut Pass<I>, other: Pass<I>)
        requires stream { (place_of_pass pass.old ≡ place_of self.now) × (place_of_pass other ≡ place_of self.now) }
        ensures stream { place_of_pass pass.new ≡ place_of_pass pass.old }
        ensures met { Meets I.lawful (reads pass.old) (reads other) (reads pass.new) }
    {
        let Pass { mut seat, stores } = other;
        self.hear(&mut pass.seat, &mut seat);
        self.table
            .shared
            .join_seat::<plays::Met>(&mut pass.seat, seat);
        pass.stores = pass.stores.max(stores);
    }

    /// Lets a pass see what a pen of the same stream has seen, and keep the value of `next` that the pen read last. The
    /// stores of the pen's writer that the pass had seen begin the pen's own list; those that it has seen afterwards
    /// are just the own list. A pass that alone may store had seen all that the pen has. The pen hears of what the pass had
    /// seen, and nothing else of it changes. Always `Ok`: it takes no memory.
    pub fn note(&self, pen: &mut Pen<I>, pass: &mut Pass<I>) -> Result<(), Memory>
        requires stream { (place_of_pen pen.old ≡ place_of self.now) × (place_of_pass pass.old ≡ place_of self.now) }
        ensures ok { IsOk result }
        ensures stream { (place_of_pen pen.new ≡ place_of_pen pen.old) × (number pen.new ≡ number pen.old) × (place_of_pass pass.new ≡ place_of_pass pass.old) }
        ensures pen { known pen.new ≡ hearing (known pen.old) (reads pass.old) }
        ensures noted { Notes I.lawful (number pen.old) (known pen.old) (reads pass.old) (reads pass.new) }
    {
        self.hear(&mut pen.seat, &mut pass.seat);
        self.hear(&mut pass.seat, &mut pen.seat);
        let top = &self.table.shared;
        let told = top.split_seat::<plays::Parted>(&mut pen.seat);
        top.join_seat::<plays::Met>(&mut pass.seat, told);
        pass.stores = pass.stores.max(pen.stores);
        Ok(())
    }

    /// A seat hears of what another has seen, and learns that both begin one history.
    fn hear(&self, seat: &mut Place<I>, other: &mut Place<I>)
        requires tables { (seat.old.table_id ≡ place_of self.now) × (other.old.table_id ≡ place_of self.now) }
        ensures tables { (seat.new.table_id ≡ seat.old.table_id) × (other.new.table_id ≡ other.old.table_id) }
        ensures other { other.new.me ≡ other.old.me }
        ensures seat { seat.new.me ≡ (hearing seat.old.me.0 other.old.me.0, seat.old.me.1) }
        ensures learned { Learned I.lawful (hearing seat.old.me.0 other.old.me.0) }
    {
        let top = &self.table.shared;
        let seen = top.split_seat::<plays::Parted>(other);
        top.join_seat::<plays::Heard>(seat, seen);
        top.load::<plays::Learned<I>>(seat, TICKET);
    }
}

impl<I: Placed> Pass<I> {
    /// How many stores the pass has seen. Takes no memory.
    pub fn stores(&self) -> u64
        ensures { result ≡ length (seen_by self.now) }
    {
        self.stores
    }
}

//! What a pen does: it draws a block, makes space for it, and stores it.

ghost use Rattle.std.specs.Prelude.{◌≡◌, ◌<◌, ◌≤◌, true, None, length, IfOk, IfErr, OnOk};
ghost use Rattle.mx_core.specs.Limits.{most_drawn};
ghost use Rattle.mx_front.specs.Calls.{Draws, Fills, Finishes, KeepsSpace, SeesStore};
ghost use Rattle.mx_front.specs.Shown.{place_of, stop_of, known, number, place_of_pen, reads, place_of_pass};
ghost use Rattle.mx_front.specs.Told.{block_at, borrowing, lending, lent};

use crate::board::{NEXT, Place};
use crate::front::Stream;
use crate::handles::{Drawn, Full, Pass, Pen};
use crate::plays;
use mx_core::Placed;
use mx_ids::{Memory, Seq};
use std::sync::Wait;

/// For how many items space is made ahead.
const AHEAD: u16 = 64;

impl<I: Placed + Drop> Stream<I> {
    /// Draws the next `n` positions, 1 to 512, for a pen of this stream that holds no block and has space for them.
    /// Waits for nobody and takes no memory: one load and one `fetch_add`. The block lies after all stores of the pen's
    /// writer, and its last position is below 2^48. `Full` exactly where the number of positions that were drawn was
    /// read at the stream's stop or past it by this call; then nothing is drawn.
    pub fn draw(&self, pen: &mut Pen<I>, n: u16) -> Result<Drawn, Full>
        requires stream { place_of_pen pen.old ≡ place_of self.now }
        requires count { (1 ≤ n) × (n ≤ most_drawn) }
        requires free { (known pen.old).block ≡ None }
        requires space { n ≤ (known pen.old).reserve }
        ensures stream { (place_of_pen pen.new ≡ place_of_pen pen.old) × (number pen.new ≡ number pen.old) }
        ensures drawn { IfOk result (λ d. Draws (known pen.old) (stop_of self.now) n d (known pen.new)) }
        ensures full { IfErr result (λ f. Fills (known pen.old) (stop_of self.now) f (known pen.new)) }
    {
        let top = &self.table.shared;
        let next = top.load::<plays::ReadNext>(&mut pen.seat, NEXT);
        if next >= self.stop {
            return Err(Full { next });
        }
        let last = top.fetch_add::<plays::Drew>(&mut pen.seat, NEXT, u64::from(n));
        Ok(Drawn {
            first: last + 1,
            count: n,
        })
    }

    /// Makes space for `n` items of a pen of this stream: its reserve is then at least `n`. Where it isn't known to be so
    /// already, it waits for its turn at the stream, and makes space for 64 items at least. Where the allocator refuses the
    /// space it answers `Memory`, and the reserve is at least what it was.
    pub fn reserve<R: Wait>(&self, rt: &R, pen: &mut Pen<I>, n: u16) -> Result<(), Memory>
        requires stream { place_of_pen pen.old ≡ place_of self.now }
        ensures stream { (place_of_pen pen.new ≡ place_of_pen pen.old) × (number pen.new ≡ number pen.old) }
        ensures space { OnOk result (n ≤ (known pen.new).reserve) }
        ensures kept { KeepsSpace (known pen.old) (known pen.new) }
    {
        if u64::from(n) <= pen.space {
            return Ok(());
        }
        let count = n.max(AHEAD);
        self.reserve_more(rt, pen, count)?;
        pen.space = u64::from(count);
        Ok(())
    }

    /// The same, in a turn, for just so many items.
    fn reserve_more<R: Wait>(&self, rt: &R, pen: &mut Pen<I>, n: u16) -> Result<(), Memory>
        requires stream { place_of_pen pen.old ≡ place_of self.now }
        ensures stream { (place_of_pen pen.new ≡ place_of_pen pen.old) × (number pen.new ≡ number pen.old) }
        ensures space { OnOk result (n ≤ (known pen.new).reserve) }
        ensures kept { KeepsSpace (known pen.old) (known pen.new) }
    {
        let door = self.door.lock(rt);
        let owed = self.enter(rt, &mut pen.seat);
        let made = self.more_space(&mut pen.seat, pen.writer, n);
        self.leave(&mut pen.seat, owed);
        drop(door);
        made
    }

    /// Stores items at the block that a pen of this stream has drawn: as many as the block has positions, and lawful
    /// after the stores of the pen's writer. The store is made with a pass of this stream. Waits for its turn at the stream,
    /// and takes no memory. What the pen and the pass have seen then ends with this store, and the answer is the front of
    /// that list. A pass that alone may store has then seen this store besides what it had seen, and no other.
    pub fn finish<R: Wait>(
        &self,
        rt: &R,
        pen: &mut Pen<I>,
        pass: &mut Pass<I>,
        drawn: Drawn,
        items: Seq<I>,
    ) -> u64
        requires stream { (place_of_pen pen.old ≡ place_of self.now) × (place_of_pass pass.old ≡ place_of self.now) }
        requires block { (known pen.old).block ≡ block_at drawn.first drawn.count }
        requires count { drawn.count ≡ length items }
        requires lawful { I.lawful (number pen.old) (known pen.old).own drawn.first items ≡ true }
        ensures stream { (place_of_pen pen.new ≡ place_of_pen pen.old) × (number pen.new ≡ number pen.old) × (place_of_pass pass.new ≡ place_of_pass pass.old) }
        ensures stored { Finishes I.lawful (known pen.old) (record { writer = number pen.old; first = drawn.first; items = items }) result (known pen.new) }
        ensures seen { SeesStore (reads pass.old) (record { writer = number pen.old; first = drawn.first; items = items }) (known pen.new) (reads pass.new) }
    {
        self.lend(&mut pen.seat, &mut pass.seat);
        let door = self.door.lock(rt);
        let owed = self.seize(rt, &mut pen.seat, &mut pen.stores);
        let front = self.put_store(
            &mut pen.seat,
            pen.writer,
            drawn.first,
            items,
            &mut pen.stores,
        );
        self.leave(&mut pen.seat, owed);
        drop(door);
        self.lend(&mut pass.seat, &mut pen.seat);
        pass.stores = pen.stores;
        pen.space = pen.space.saturating_sub(u64::from(drawn.count));
        front
    }

    /// A seat takes over the right to store of another, with what that has seen.
    fn lend(&self, seat: &mut Place<I>, other: &mut Place<I>)
        requires tables { (seat.old.table_id ≡ place_of self.now) × (other.old.table_id ≡ place_of self.now) }
        ensures tables { (seat.new.table_id ≡ seat.old.table_id) × (other.new.table_id ≡ other.old.table_id) }
        ensures other { other.new.me ≡ (lending other.old.me.0, other.old.me.1) }
        ensures seat { seat.new.me ≡ (borrowing seat.old.me.0 (lent other.old.me.0), seat.old.me.1) }
    {
        let top = &self.table.shared;
        let right = top.split_seat::<plays::Lent>(other);
        top.join_seat::<plays::Lent>(seat, right);
    }
}

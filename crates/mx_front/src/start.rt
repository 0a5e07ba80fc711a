//! The start of a stream.

ghost use Rattle.std.specs.Prelude.{◌≡◌, ◌+◌, ◌<◌, ◌≤◌, [], IfOk};
ghost use Rattle.mx_front.specs.Shown.{place_of, stop_of, writers_of};
ghost use Rattle.mx_front.specs.Start.{IsNewPen, IsNewPass, AreNewPens};
ghost use Rattle.mx_core.specs.Limits.{most_writers, last_stop};
ghost use Rattle.mx_front.specs.World.{maker_of};

use crate::board::{Board, Key, Place};
use crate::front::Stream;
use crate::handles::{Pass, Pen};
use crate::plays;
use atomic_table::{Refused, Table};
use mx_core::Placed;
use mx_ids::{Memory, Seq};
use mx_lanes::Book;
use std::alloc::{AllocError, Global};
use std::sync::Mutex;

/// A stream of 1 to 16 writers of which no block is drawn once `stop` positions were; with it the pens in the order
/// of their writers, each without a store, a block or a reserve, and a pass. Pens and pass have seen nothing, and the pass
/// alone may store. `stop` is at most 281,474,976,694,272, which keeps every position below 2^48. `Memory` where the allocator refuses the table,
/// its book or the list of pens.
pub fn stream<I: Placed + Drop>(
    alloc: Global,
    writers: u8,
    stop: u64,
) -> Result<(Stream<I>, Seq<Pen<I>>, Pass<I>), Memory>
    requires writers { (1 ≤ writers) × (writers ≤ most_writers) }
    requires stop { stop ≤ last_stop }
    ensures key { IfOk result (λ r. (stop_of r.0 ≡ stop) × (writers_of r.0 ≡ writers)) }
    ensures pens { IfOk result (λ r. AreNewPens (place_of r.0) (writers_of r.0) writers r.1) }
    ensures pass { IfOk result (λ r. IsNewPass (place_of r.0) (writers_of r.0) r.2) }
{
    let (stream, mut maker) = open(alloc, writers, stop)?;
    let mut pens = Seq::new(alloc);
    'pens: for writer in 0..writers {
        let pen = stream.make_pen(&mut maker, writer);
        pens.push(pen)?;
    }
    Ok((
        stream,
        pens,
        Pass {
            seat: maker,
            stores: 0,
        },
    ))
}

/// The stream, and the seat that makes its pens.
fn open<I: Placed + Drop>(
    alloc: Global,
    writers: u8,
    stop: u64,
) -> Result<(Stream<I>, Place<I>), Memory>
    requires writers { (1 ≤ writers) × (writers ≤ most_writers) }
    requires stop { stop ≤ last_stop }
    ensures key { IfOk result (λ r. (stop_of r.0 ≡ stop) × (writers_of r.0 ≡ writers)) }
    ensures maker { IfOk result (λ r. (r.1.table_id ≡ place_of r.0) × (r.1.me ≡ (maker_of (writers_of r.0) 0, []))) }
{
    let book = Book::new(alloc, writers)?;
    let mut slots = Vec::with_capacity(alloc, 1)?;
    slots.push_reserved(Some(book));
    let key = Key { stop, writers };
    let made: Result<(Board<I>, Place<I>), Refused<Option<Book<I>>, Global>> = Table::new(
        alloc,
        &[0, 0, 0, 0],
        slots,
        &key,
    );
    match made {
        Ok((table, seat)) => {
            let door = Mutex::new(());
            Ok((Stream { table, stop, door }, seat))
        }
        Err(Refused { slots: _ }) => Err(AllocError.into()),
    }
}

impl<I: Placed + Drop> Stream<I> {
    /// The pen of the next writer.
    fn make_pen(&self, maker: &mut Place<I>, writer: u8) -> Pen<I>
        requires table { maker.old.table_id ≡ place_of self.now }
        requires writer { writer < writers_of self.now }
        requires maker { maker.old.me ≡ (maker_of (writers_of self.now) writer, []) }
        ensures table { maker.new.table_id ≡ maker.old.table_id }
        ensures maker { maker.new.me ≡ (maker_of (writers_of self.now) (writer + 1), []) }
        ensures pen { IsNewPen (place_of self.now) (writers_of self.now) writer result }
    {
        let seat = self.table.shared.split_seat::<plays::PenMade>(maker);
        Pen {
            seat,
            writer,
            stores: 0,
            space: 0,
        }
    }
}

//! Events that are stored one after the other, each at its own position.

ghost use Rattle.std.specs.Prelude.{◌≡◌, [], true, length, take, IfOk};
ghost use Rattle.mx_core.specs.Covered.{covered};
ghost use Rattle.mx_core.specs.Front.{IsFront};
ghost use Rattle.mx_core.specs.History.{keeps_law};
ghost use Rattle.mx_event.specs.Shown.{position_of};
ghost use Rattle.mx_window.specs.Windows.{stand_from};
ghost use Rattle.bench_reads.specs.InPlace.{in_place};

use crate::history::event;
use crate::unmeasured::Unmeasured;
use mx_event::Event;
use mx_ids::{Memory, Seq};
use mx_lanes::{Book, Parts};
use std::alloc::Global;

/// The greatest number of events.
const MOST: u64 = 1_000_000;

/// A book of one writer, in which each event stands at its own position.
#[derive(Drop)]
pub struct Stock {
    pub(crate) book: Book<Event>,
    ghost lane: { length book.spare ≡ 1 },
    ghost front: { IsFront book.history book.front },
    ghost placed: { keeps_law in_place [] book.history ≡ true },
}

impl Stock {
    /// No events. `Memory` where the allocator refuses the list of lanes.
    pub fn new(alloc: Global) -> Result<Stock, Memory> {
        Ok(Stock {
            book: Book::new(alloc, 1)?,
        })
    }

    /// Puts so many events more. `Other` where there are 1,000,000.
    pub fn grow(&mut self, alloc: Global, count: u64) -> Result<(), Unmeasured> {
        'events: for _event in 0..count {
            self.put_next(alloc)?;
        }
        Ok(())
    }

    /// Puts the event at the position after the front.
    fn put_next(&mut self, alloc: Global) -> Result<(), Unmeasured> {
        let front = self.book.front();
        if front >= MOST {
            return Err(Unmeasured::Other);
        }
        let first = front + 1;
        let mut items = Seq::new(alloc);
        items.push(event(alloc, first)?)?;
        self.book.reserve(0, 1)?;
        self.book.store(0, first, items);
        Ok(())
    }

    /// The events up to a front. `Other` where there are fewer.
    pub fn up_to(&mut self, alloc: Global, front: u64) -> Result<Parts<Event>, Unmeasured>
        ensures items { IfOk result (λ parts. parts.items ≡ take front (covered self.old.book.history)) }
        ensures placed { IfOk result (λ parts. stand_from position_of 1 parts.items ≡ true) }
        ensures kept { self.new.book.history ≡ self.old.book.history }
    {
        if front > self.book.front() {
            return Err(Unmeasured::Other);
        }
        Ok(self.book.up_to(alloc, front)?)
    }
}

//! Going on to later fronts.

ghost use Rattle.std.specs.Prelude.{◌≡◌, ◌≤◌, length, OnOk};
ghost use Rattle.mx_core.specs.Covered.{covered};
ghost use Rattle.bench_reads.specs.InPlace.{Knows};

use crate::stock::Stock;
use crate::unmeasured::Unmeasured;
use mx_event::{Event, fits};
use mx_lanes::Parts;
use mx_outside::Clock;
use mx_snapshot::Snapshot;
use std::alloc::Global;

/// By how many events the front rises.
const STEP: u64 = 10;

/// The milliseconds that it takes to go on so often to a front that is ten later, beginning with the front `items`. All
/// events are stored beforehand, and those after `items` are read last, as if they had just been stored. `Other` where these are over
/// 1,000,000, or one is too large.
pub fn measure_advances<C: Clock>(
    alloc: Global,
    clock: &mut C,
    items: u64,
    repeats: u32,
) -> Result<u64, Unmeasured> {
    let mut stock = Stock::new(alloc)?;
    let last = items.saturating_add(STEP * u64::from(repeats));
    stock.grow(alloc, last)?;
    let mut known = Snapshot::new(alloc);
    go_on(alloc, &mut stock, &mut known, items)?;
    let parts = stock.up_to(alloc, last)?;
    let is_read = all_fit(&parts, items);
    drop(parts);
    if !is_read {
        return Err(Unmeasured::Other);
    }
    let start = clock.now();
    go_on_all(alloc, &mut stock, &mut known, repeats)?;
    Ok(clock.now().saturating_sub(start))
}

/// Whether each event after a position is small enough: reads them all.
fn all_fit(events: &Parts<Event>, from: u64) -> bool {
    'events: for position in from..events.front() {
        let is_small = match events.at(position.saturating_add(1)) {
            Some(event) => fits(event, event.sender.server()),
            None => false,
        };
        if !is_small {
            return false;
        }
    }
    true
}

/// Goes on so often to a front that is ten later.
fn go_on_all(
    alloc: Global,
    stock: &mut Stock,
    known: &mut Snapshot,
    repeats: u32,
) -> Result<(), Unmeasured>
    requires { Knows (covered stock.old.book.history) known.old }
{
    'repeats: for _repeat in 0..repeats {
        let front = known.events.front().saturating_add(STEP);
        go_on(alloc, stock, known, front)?;
    }
    Ok(())
}

/// Takes the events up to a front, and goes on to it. `Other` where fewer are stored.
fn go_on(
    alloc: Global,
    stock: &mut Stock,
    known: &mut Snapshot,
    front: u64,
) -> Result<(), Unmeasured>
    requires knows { Knows (covered stock.old.book.history) known.old }
    requires later { length known.old.events ≤ front }
    ensures kept { stock.new.book.history ≡ stock.old.book.history }
    ensures knows { OnOk result (Knows (covered stock.new.book.history) known.new) }
{
    let parts = stock.up_to(alloc, front)?;
    Ok(known.events.advance(alloc, parts)?)
}

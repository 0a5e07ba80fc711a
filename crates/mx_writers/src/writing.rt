//! A write: the decision, the draw and the store.

ghost use Rattle.std.specs.Prelude.{◌≡◌, Some, None};
ghost use Rattle.mx_core.specs.History.{Begins, IsLane};
ghost use Rattle.mx_front.specs.Shown.{place_of, stop_of, known, place_of_pen, reads, place_of_pass};
ghost use Rattle.mx_writers.specs.Decision.{Stores, CanBeStored};
ghost use Rattle.mx_writers.specs.Writes.{IsBeside, MayLose, WritesBy, WritesSeen, told_by};

use crate::answers::{Refused, Written};
use crate::folds::{Folds, Lost, Made, Unmade};
use crate::gate::{Gate, Watch};
use crate::shards::Shard;
use mx_core::{Prepared, placed_at};
use mx_front::{Full, Pass, Stream};
use std::alloc::Global;
use std::sync::Wait;

/// Decides on a draft by the shard's own list as it stands, and stores the items where it decides on some. The store is made
/// with a pass of the stream, which has then seen it. All memory is taken before the draw. Between the draw and the store the value's `commit` is called, and the gate is told the writer
/// and the first position; the gate is told nothing where the answer isn't a store. Waits for its turns at the stream, and
/// between draw and store only in `commit`. `Fault` exactly where the decision is that fault; `Full` only where the
/// decision is items and the number of positions that were drawn was read at the stream's stop or past it by this call;
/// `Lost` only where the decision is items and what the value keeps its stores by has failed, in this write or an earlier
/// one, so never where it can't fail; `Memory` where the allocator refuses what the decision or the space in the stream
/// needs. On each refusal the own list is as before.
#[tactic(auto, using(crate::proofs::Noted::beside_same))]
pub fn write_in<F: Folds, G: Gate, R: Wait>(
    rt: &R,
    alloc: Global,
    stream: &Stream<F::Item>,
    shard: &mut Shard<F>,
    draft: F::Draft,
    watch: &mut Watch<'_, G>,
    pass: &mut Pass<F::Item>,
) -> Result<Written, Refused<F::Fault>>
    requires stream { (place_of_pen shard.old.pen ≡ place_of stream.now) × (place_of_pass pass.old ≡ place_of stream.now) }
    requires watch { watch.old.told ≡ None }
    ensures stream { (place_of_pen shard.new.pen ≡ place_of_pen shard.old.pen) × (shard.new.writer ≡ shard.old.writer)
        × (place_of_pass pass.new ≡ place_of_pass pass.old) }
    ensures pass { IsBeside result (reads pass.old) (reads pass.new) }
    ensures seen { Begins (known shard.old.pen).seen (known shard.new.pen).seen }
    ensures wrote { WritesBy F.Item.placed (F.decides shard.old.writer (known shard.old.pen).own draft) shard.old.writer
        (stop_of stream.now) (known shard.old.pen).own result (known shard.new.pen) }
    ensures loses { MayLose F.loses result }
    ensures told { (watch.new.gate ≡ watch.old.gate) × (watch.new.told ≡ told_by shard.old.writer result) }
{
    let lane = shard.lane;
    match shard.folds.prepare(alloc, draft) {
        Ok(Made::Items(prepared)) => store_block(rt, stream, shard, prepared, watch, pass),
        Ok(Made::Kept(number)) => Ok(Written {
            first: number,
            count: 0,
            lane,
            front: 0,
        }),
        Err(Unmade::Fault(fault)) => Err(Refused::Fault(fault, lane)),
        Err(Unmade::Memory(refused)) => Err(Refused::Memory(refused)),
    }
}

/// Stores the pending block of a shard: its value takes the block in, and the items then move into the stream.
#[tactic(auto, using(crate::proofs::Noted::beside_same))]
fn store_block<F: Folds, G: Gate, R: Wait>(
    rt: &R,
    stream: &Stream<F::Item>,
    shard: &mut Shard<F>,
    prepared: Prepared<F::Item>,
    watch: &mut Watch<'_, G>,
    pass: &mut Pass<F::Item>,
) -> Result<Written, Refused<F::Fault>>
    requires stream { (place_of_pen shard.old.pen ≡ place_of stream.now) × (place_of_pass pass.old ≡ place_of stream.now) }
    requires watch { watch.old.told ≡ None }
    requires pending { F.pending shard.old.folds ≡ Some prepared.items }
    requires lane { IsLane F.Item.lawful shard.old.writer (known shard.old.pen).own }
    requires lawful { CanBeStored F.Item.lawful F.Item.placed shard.old.writer (known shard.old.pen).own prepared.items }
    ensures stream { (place_of_pen shard.new.pen ≡ place_of_pen shard.old.pen) × (shard.new.writer ≡ shard.old.writer)
        × (place_of_pass pass.new ≡ place_of_pass pass.old) }
    ensures pass { IsBeside result (reads pass.old) (reads pass.new) }
    ensures seen { Begins (known shard.old.pen).seen (known shard.new.pen).seen }
    ensures wrote { WritesBy F.Item.placed (Stores prepared.items) shard.old.writer
        (stop_of stream.now) (known shard.old.pen).own result (known shard.new.pen) }
    ensures loses { MayLose F.loses result }
    ensures told { (watch.new.gate ≡ watch.old.gate) × (watch.new.told ≡ told_by shard.old.writer result) }
{
    let lane = shard.lane;
    if shard.lost {
        return Err(Refused::Lost(lane));
    }
    let count = prepared.items.len() as u16;
    stream.reserve(rt, &mut shard.pen, count)?;
    let drawn = match stream.draw(&mut shard.pen, count) {
        Ok(drawn) => drawn,
        Err(Full { next }) => return Err(Refused::Full(next, lane)),
    };
    let first = drawn.first;
    if let Err(Lost) = shard.folds.commit(rt, first, &prepared) {
        shard.lost = true;
        return Err(Refused::Lost(lane));
    }
    watch.drawn(shard.writer, first);
    let Prepared { items } = prepared;
    let items = placed_at(items, first);
    let front = stream.finish(rt, &mut shard.pen, pass, drawn, items);
    shard.lane += 1;
    Ok(Written {
        first,
        count,
        lane,
        front,
    })
}

/// A write in a shard whose turn it is, with one note of the pass before it and one after it.
pub(crate) fn write_noted<F: Folds, G: Gate, R: Wait>(
    rt: &R,
    alloc: Global,
    stream: &Stream<F::Item>,
    shard: &mut Shard<F>,
    draft: F::Draft,
    watch: &mut Watch<'_, G>,
    pass: &mut Pass<F::Item>,
) -> Result<Written, Refused<F::Fault>>
    requires watch { watch.old.told ≡ None }
    requires stream { (place_of_pen shard.old.pen ≡ place_of stream.now) × (place_of_pass pass.old ≡ place_of stream.now) }
    ensures stream { (place_of_pen shard.new.pen ≡ place_of_pen shard.old.pen) × (shard.new.writer ≡ shard.old.writer)
        × (place_of_pass pass.new ≡ place_of_pass pass.old) }
    ensures wrote { WritesSeen F.Item.placed F.decides shard.old.writer (stop_of stream.now) draft result (reads pass.old) (reads pass.new) }
    ensures loses { MayLose F.loses result }
    ensures told { (watch.new.gate ≡ watch.old.gate) × (watch.new.told ≡ told_by shard.old.writer result) }
{
    stream.note(&mut shard.pen, pass).unwrap();
    let answer = write_in(rt, alloc, stream, shard, draft, watch, pass);
    stream.note(&mut shard.pen, pass).unwrap();
    answer
}

//! The start of a shard, and of the writers of a stream.

ghost use Rattle.std.specs.Prelude.{◌≡◌, [], None, length, IfOk};
ghost use Rattle.mx_front.specs.Shown.{known, number, place_of, writers_of};
ghost use Rattle.mx_writers.specs.Shown.{IsShardOf};
ghost use Rattle.mx_writers.specs.Start.{AreFreshPens, AreFreshFolds, AreShards};

use crate::board::Locks;
use crate::folds::Folds;
use crate::number::Numbers;
use crate::shards::{Shard, Writers};
use atomic_table::{Refused, Table};
use mx_front::{Pen, Stream};
use mx_ids::{Memory, Seq};
use std::alloc::{AllocError, Global};
use std::sync::Mutex;

/// The shard of a writer: its pen, which holds no block, its value, which is the fold of the pen's own list, and how
/// many stores that list has. Takes no memory.
pub fn shard<F: Folds>(writer: u8, lane: u64, folds: F, pen: Pen<F::Item>) -> Shard<F>
    requires pen { (number pen ≡ writer) × ((known pen).block ≡ None) }
    requires folds { (F.writer folds ≡ writer) × (F.own folds ≡ (known pen).own) }
    requires lane { lane ≡ length (known pen).own }
    ensures { (result.writer ≡ writer) × (result.folds ≡ folds) × (result.pen ≡ pen) }
{
    Shard {
        writer,
        lane,
        folds,
        pen,
        lost: false,
    }
}

/// The writers of a stream, from all its pens in the order of their writers, each without a store or a block, and as
/// many values in the same order, each of its writer and without a store. `Memory` where the allocator refuses the
/// table of their turns or the list of shards.
pub fn writers<F: Folds>(
    alloc: Global,
    stream: Stream<F::Item>,
    pens: Seq<Pen<F::Item>>,
    folds: Seq<F>,
) -> Result<Writers<F>, Memory>
    requires pens { AreFreshPens (place_of stream) (writers_of stream) pens }
    requires folds { AreFreshFolds F.writer F.own (writers_of stream) folds }
    ensures { IfOk result (λ w. w.stream ≡ stream) }
{
    let words = vec![in alloc; 0u64; 2 * pens.len()]?;
    let doors = open_doors(alloc, pens.len())?;
    let shards = fresh_shards(alloc, &stream, pens, folds)?;
    let made: Result<(Locks<F>, _), Refused<Option<Shard<F>>, Global>> = Table::new(
        alloc,
        words.as_slice(),
        shards,
        &stream,
    );
    match made {
        Ok((table, _seat)) => Ok(Writers {
            stream,
            table,
            doors,
        }),
        Err(Refused { slots: _ }) => Err(AllocError.into()),
    }
}

/// So many doors, at which nobody is.
fn open_doors(alloc: Global, count: usize) -> Result<Vec<Mutex<()>>, Memory>
    ensures { IfOk result (λ doors. length doors.items ≡ count) }
{
    let mut doors = Vec::with_capacity(alloc, count)?;
    'doors: for _index in 0..count {
        doors.push_reserved(Mutex::new(()));
    }
    Ok(doors)
}

/// The shards of the writers, in their order, each for its slot.
fn fresh_shards<F: Folds>(
    alloc: Global,
    stream: &Stream<F::Item>,
    pens: Seq<Pen<F::Item>>,
    folds: Seq<F>,
) -> Result<Vec<Option<Shard<F>>>, Memory>
    requires pens { AreFreshPens (place_of stream.now) (writers_of stream.now) pens }
    requires folds { AreFreshFolds F.writer F.own (writers_of stream.now) folds }
    ensures { IfOk result (λ shards. AreShards IsShardOf (place_of stream.now) (writers_of stream.now) shards.items) }
{
    let count = pens.len();
    let mut shards = Vec::with_capacity(alloc, count)?;
    let mut pens = pens.into_vec().into_iter();
    let mut folds = folds.into_vec().into_iter();
    'shards: for index in 0..count {
        let pen = pens.next().unwrap();
        let fold = folds.next().unwrap();
        shards.push_reserved(Some(shard(index as u8, 0, fold, pen)));
    }
    Ok(shards)
}

/// The numbers of a writer, without a store. `Memory` where the allocator refuses the space for the first.
pub fn numbers(alloc: Global, writer: u8) -> Result<Numbers, Memory>
    ensures { IfOk result (λ n. (n.writer ≡ writer) × (n.stores.items ≡ [])) }
{
    Ok(Numbers {
        writer,
        stores: Vec::with_capacity(alloc, 1)?,
        pending: None,
    })
}

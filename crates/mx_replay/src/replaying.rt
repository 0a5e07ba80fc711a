//! One store that is made again.

ghost use Rattle.std.specs.Prelude.{◌≡◌, ◌+◌, ◌<◌, ◌≤◌, length, OnOk};
ghost use Rattle.mx_core.specs.History.{Begins};
ghost use Rattle.mx_front.specs.declared.view.Right.TheVariants.{Alone};
ghost use Rattle.mx_front.specs.Shown.{place_of, place_of_pass, reads, seen_by, writers_of};
ghost use Rattle.mx_writers.specs.Shown.{stream_of};
ghost use Rattle.mx_replay.specs.Replays.{HasReplayed, stores_else, stores_of};

use mx_front::Pass;
use mx_ids::Memory;
use mx_writers::{Folds, Open, Refused, Writers, Written};
use std::alloc::Global;
use std::sync::Wait;

/// Why a store isn't made again.
#[derive(Debug, Drop, PartialEq, Eq)]
pub enum NotReplayed<E> {
    /// The writer refuses it.
    Fault(E),
    /// The writer has stored it before, or stores nothing.
    Kept,
    /// It stands at another position, or is not the only store that was made meanwhile.
    Elsewhere,
    /// The stream is full.
    Full,
    /// Its line differs from the one that it was read of.
    Lost,
    /// An allocation was refused.
    Memory(Memory),
}

/// Makes a store again: what a writer decides on a draft, at a position. At `Ok` it is the one store that the pass has seen
/// besides those that it had seen, and these have all stores of its writer that it was decided by. What it had seen begins what it has
/// then seen. A pass that alone may store has then seen one store more at `Ok` and at `Elsewhere`, and else none. Where others store at the
/// same time it answers `Elsewhere`, so nobody else is to store meanwhile.
pub fn replay<F: Folds, R: Wait>(
    rt: &R,
    alloc: Global,
    writers: &Writers<F>,
    shard: u8,
    draft: F::Draft,
    first: u64,
    pass: &mut Pass<F::Item>,
) -> Result<(), NotReplayed<F::Fault>>
    requires shard { shard < writers_of (stream_of writers.now) }
    requires stream { place_of_pass pass.old ≡ place_of (stream_of writers.now) }
    ensures stream { place_of_pass pass.new ≡ place_of_pass pass.old }
    ensures begins { Begins (seen_by pass.old) (seen_by pass.new) }
    ensures read { (reads pass.old).read ≤ (reads pass.new).read }
    ensures right { (reads pass.new).right ≡ (reads pass.old).right }
    ensures alone { (reads pass.old).right ≡ Alone → length (seen_by pass.new) ≡ length (seen_by pass.old) + stores_of result }
    ensures replayed { OnOk result (HasReplayed F.Item.placed F.decides shard first draft (seen_by pass.old) (seen_by pass.new)) }
{
    let before = pass.stores();
    match writers.write_seen(rt, alloc, shard, draft, &Open, pass) {
        Ok(written) => in_place(&written, first, before, pass.stores()),
        Err(refused) => Err(cause_of(refused)),
    }
}

/// Whether a store was made at a position, and is the only one.
fn in_place<E>(written: &Written, first: u64, before: u64, after: u64) -> Result<(), NotReplayed<E>>
    ensures in_place { OnOk result ((0 < written.now.count) × (written.now.first ≡ first) × (after ≡ before + 1)) }
    ensures stores { (written.now.count ≡ 0 → stores_of result ≡ 0) × (0 < written.now.count → stores_of result ≡ 1) }
{
    if written.count == 0 {
        return Err(NotReplayed::Kept);
    }
    if written.first != first || after <= before || after - before != 1 {
        return Err(NotReplayed::Elsewhere);
    }
    Ok(())
}

/// Why it isn't made again, where nothing was stored.
fn cause_of<E>(refused: Refused<E>) -> NotReplayed<E>
    ensures { stores_else result ≡ 0 }
{
    match refused {
        Refused::Fault(fault, _) => NotReplayed::Fault(fault),
        Refused::Full(..) => NotReplayed::Full,
        Refused::Lost(_) => NotReplayed::Lost,
        Refused::Memory(refused) => NotReplayed::Memory(refused),
    }
}

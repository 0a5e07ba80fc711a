//! A writer's shard, and the shards of a stream's writers.

ghost use Rattle.std.specs.Prelude.{◌≡◌, ◌*◌, None, false, length};
ghost use Rattle.mx_front.specs.Shown.{known, number, place_of, writers_of};

use crate::board::Locks;
use crate::folds::Folds;
use mx_front::{Pen, Stream};
use std::sync::Mutex;

/// The pen of a writer, with the value that is the fold of the pen's own list.
#[derive(Drop)]
pub struct Shard<F: Folds> {
    pub(crate) writer: u8,
    pub(crate) lane: u64,
    pub(crate) folds: F,
    pub(crate) pen: Pen<F::Item>,
    ghost numbered: { number pen ≡ writer },
    /// Whether the writer's pen holds a block that wasn't kept. It stores nothing any more.
    pub(crate) lost: bool,
    ghost rests: { lost ≡ false → (known pen).block ≡ None },
    ghost sure: { F.loses ≡ false → lost ≡ false },
    ghost writes: { F.writer folds ≡ writer },
    ghost folded: { F.own folds ≡ (known pen).own },
    ghost counted: { lane ≡ length (known pen).own },
}

/// The writers of a stream. Each writes in its turn, and its pass then sees what it wrote.
#[derive(Drop)]
pub struct Writers<F: Folds> {
    pub(crate) stream: Stream<F::Item>,
    pub(crate) table: Locks<F>,
    /// For each writer a door: whoever has a ticket for its turn has locked it, and the others rest there.
    pub(crate) doors: Vec<Mutex<()>>,
    ghost sized: { (table.shared.table_id.words ≡ 2 * writers_of stream) × (table.shared.table_id.slots ≡ writers_of stream) },
    ghost keyed: { place_of table.shared.key ≡ place_of stream },
    ghost barred: { length doors.items ≡ writers_of stream },
}

impl<F: Folds> Writers<F> {
    /// The stream of the writers. Takes no memory.
    pub fn stream(&self) -> &Stream<F::Item>
        ensures { result.now ≡ self.now.stream }
    {
        &self.stream
    }
}

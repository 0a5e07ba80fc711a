//! The table of the shards' turns: its words, its slots and its rule.
//!
//! Of the writer k, word 2 k is the next ticket and word 2 k + 1 the ticket that is served. Slot k has the writer's
//! shard, unless the seat whose ticket is served has it in hand.

use crate::folds::Folds;
use crate::shards::Shard;
use crate::view::Ask;
use atomic_table::{Seat, Table, TableRule};
use mx_front::Stream;
use std::alloc::Global;
use std::marker::PhantomData;

/// The rule of the table of turns.
pub struct Guard<F> {
    of: PhantomData<F>,
}

impl<F: Folds> TableRule<Option<Shard<F>>, Ask, Stream<F::Item>> for Guard<F> {
    ghost use Rattle.mx_front.specs.Shown.{place_of};
    ghost use Rattle.mx_writers.specs.Locks.{Locked, resting};
    ghost use Rattle.mx_writers.specs.Shown.{IsShardOf};

    ghost holds = { λ stream. Locked IsShardOf (place_of stream) };

    ghost first = { λ stream. resting (place_of stream) };
}

pub type Locks<F: Folds> = Table<Option<Shard<F>>, Ask, Stream<F::Item>, Guard<F>, Global>;

pub type Place<F: Folds> = Seat<Option<Shard<F>>, Ask>;

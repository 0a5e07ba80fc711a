//! A writer's value whose stores are kept before they are taken in.

ghost use Rattle.std.specs.Prelude.{◌≡◌, true, false, List, Some};

use crate::keeper::Keeper;
use mx_core::Prepared;
use mx_writers::{Folds, Lost, Made, Unmade};
use std::alloc::Global;
use std::marker::PhantomData;
use std::sync::Wait;

/// A writer's value with what its stores are kept by. Each store is kept before it is taken in, so the stores that are
/// kept are the own list.
#[derive(Drop)]
pub struct Journaled<F: Folds, K: Keeper<F::Item>> {
    folds: F,
    keeper: K,
    /// Whether the keeper is ready for the pending block.
    is_ready: bool,
    of: PhantomData<F::Item>,
    ghost sure: { F.loses ≡ false },
    ghost numbered: { K.writer keeper ≡ F.writer folds },
    ghost ready: { (xs : List F.Item) → is_ready ≡ true → F.pending folds ≡ Some xs → K.ready keeper xs ≡ true },
    ghost same: { K.tells ≡ true → K.kept keeper ≡ F.own folds },
}

impl<F: Folds, K: Keeper<F::Item>> Journaled<F, K> {
    /// A writer's value with what keeps its stores, of which just these are kept.
    pub fn new(folds: F, keeper: K) -> Journaled<F, K>
        requires sure { F.loses ≡ false }
        requires writer { K.writer keeper ≡ F.writer folds }
        requires kept { K.tells ≡ true → K.kept keeper ≡ F.own folds }
        ensures { (result.folds ≡ folds) × (result.keeper ≡ keeper) }
    {
        Journaled {
            folds,
            keeper,
            is_ready: false,
            of: PhantomData,
        }
    }
}

impl<F: Folds, K: Keeper<F::Item>> Folds for Journaled<F, K> {
    type Item = F::Item;

    type Draft = F::Draft;

    type Fault = F::Fault;

    ghost use Rattle.mx_keep.specs.Pending.{where_ready};

    ghost writer = { λ s. F.writer s.folds };

    ghost own = { λ s. F.own s.folds };

    ghost pending = { λ s. where_ready s.is_ready (F.pending s.folds) };

    ghost decides = { F.decides };

    ghost loses = { K.loses };

    fn prepare(
        &mut self,
        alloc: Global,
        draft: F::Draft,
    ) -> Result<Made<F::Item>, Unmade<F::Fault>> {
        self.is_ready = false;
        let made = self.folds.prepare(alloc, draft)?;
        if let Made::Items(prepared) = &made {
            self.keeper.prepare(alloc, prepared)?;
            self.is_ready = true;
        }
        Ok(made)
    }

    fn commit<R: Wait>(
        &mut self,
        rt: &R,
        first: u64,
        prepared: &Prepared<F::Item>,
    ) -> Result<(), Lost> {
        let kept = self.keeper.keep(rt, first, prepared);
        self.is_ready = false;
        kept?;
        self.folds.commit(rt, first, prepared)
    }

    ghost lawful = { F.lawful };
}

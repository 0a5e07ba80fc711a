//! Numbers in a stream: the plainest items, and the plainest fold of them.

ghost use Rattle.std.specs.Prelude.{◌≡◌, ◌<◌, [], ◌∷◌, Some, IfOk};
ghost use Rattle.std.specs.Option.{ForSome};
ghost use Rattle.std.specs.Vec.{vec_len, vec_capacity};

use crate::folds::{Folds, Lost, Made, Unmade};
use mx_core::{Placed, Prepared, Stored};
use mx_ids::{Copied, Memory, Seq};
use std::alloc::Global;
use std::sync::Wait;

/// A number in a stream. It doesn't carry its position.
#[derive(Debug, Drop, PartialEq, Eq)]
pub struct Number {
    pub value: u64,
}

impl Placed for Number {
    ghost use Rattle.std.specs.Prelude.{true};

    ghost lawful = { λ writer before first items. true };

    ghost placed = { λ item first at. item };

    fn place(&mut self, _first: u64, _at: u64) {}
}

impl Copied for Number {
    fn copy(&self, _alloc: Global) -> Result<Number, Memory> {
        Ok(Number { value: self.value })
    }
}

/// The draft is 0.
#[derive(Clone, Copy, Debug, PartialEq, Eq)]
pub struct Zero;

/// The list of one writer's stores of numbers. A draft is a number; it is stored as one item, unless it is 0.
#[derive(Drop)]
pub struct Numbers {
    pub(crate) writer: u8,
    pub(crate) stores: Vec<Stored<Number>>,
    pub(crate) pending: Option<Seq<Number>>,
    ghost space: { ForSome pending (λ _. vec_len stores < vec_capacity stores) },
}

impl Numbers {
    /// Makes one number the pending block, with the space for its store.
    fn prepare_one(&mut self, alloc: Global, value: u64) -> Result<Prepared<Number>, Memory>
        ensures kept { (self.new.writer ≡ self.old.writer) × (self.new.stores.items ≡ self.old.stores.items) }
        ensures items { IfOk result (λ p. (p.items ≡ record { value = value } ∷ []) × (self.new.pending ≡ Some p.items)) }
    {
        let mut items = Seq::new(alloc);
        items.push(Number { value })?;
        let copy = items.copy(alloc)?;
        self.stores.reserve(1)?;
        self.pending = Some(copy);
        Ok(Prepared { items })
    }
}

impl Folds for Numbers {
    type Item = Number;

    type Draft = u64;

    type Fault = Zero;

    ghost use Rattle.std.specs.Prelude.{false};
    ghost use Rattle.mx_writers.specs.Decided.{decided, are_lawful};

    ghost writer = { λ n. n.writer };

    ghost own = { λ n. n.stores.items };

    ghost pending = { λ n. n.pending };

    ghost decides = { λ writer mine draft. decided draft };

    ghost loses = { false };

    fn prepare(&mut self, alloc: Global, draft: u64) -> Result<Made<Number>, Unmade<Zero>> {
        if draft == 0 {
            return Err(Unmade::Fault(Zero));
        }
        Ok(Made::Items(self.prepare_one(alloc, draft)?))
    }

    #[tactic(auto, using(crate::proofs::Unplaced::placed_same))]
    fn commit<R: Wait>(
        &mut self,
        _rt: &R,
        first: u64,
        _prepared: &Prepared<Number>,
    ) -> Result<(), Lost> {
        if let Some(items) = self.pending.take() {
            self.stores.push_reserved(Stored {
                writer: self.writer,
                first,
                items,
            });
        }
        Ok(())
    }

    ghost lawful = { are_lawful };
}

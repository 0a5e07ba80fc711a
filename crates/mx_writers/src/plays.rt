//! What each step at the table of the shards' turns tells.

ghost use Rattle.mx_writers.specs.Shown.{IsShardOf};
ghost use Rattle.mx_writers.specs.Tells.{entered, claimed, came, left};

use crate::folds::Folds;
use crate::shards::Shard;
use crate::view::Ask;
use atomic_table::Play;

/// A new seat.
pub struct Entered;

impl<F: Folds> Play<Option<Shard<F>>, Ask> for Entered {
    ghost then = { entered };
}

/// A try to take a ticket.
pub struct Claimed;

impl<F: Folds> Play<Option<Shard<F>>, Ask> for Claimed {
    ghost then = { claimed };
}

/// A look at the ticket that is served: the seat takes the shard where the ticket is its own.
pub struct Came;

impl<F: Folds> Play<Option<Shard<F>>, Ask> for Came {
    ghost then = { came IsShardOf };
}

/// The turn is over: the shard goes back into its slot.
pub struct Left;

impl<F: Folds> Play<Option<Shard<F>>, Ask> for Left {
    ghost then = { left };
}

//! A running stream.

ghost use Rattle.std.specs.Prelude.{◌≡◌};

use crate::board::Board;
use mx_core::Placed;
use std::sync::Mutex;

/// A stream that several writers store to at once: each draws blocks of positions without waiting for another, and
/// stores them in any order. Its pens store, and its passes read.
#[derive(Drop)]
pub struct Stream<I: Placed> {
    pub(crate) table: Board<I>,
    pub(crate) stop: u64,
    /// Whoever has a ticket has locked it: the others rest here, and a ticket that is taken is served at once. No contract
    /// rests on it.
    pub(crate) door: Mutex<()>,
    ghost sized: { (table.shared.table_id.words ≡ 4) × (table.shared.table_id.slots ≡ 1) },
    ghost stops: { table.shared.key.stop ≡ stop },
}

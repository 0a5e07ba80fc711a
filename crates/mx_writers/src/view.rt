//! What a seat at the table of the shards' turns knows.

ghost use Rattle.atomic_table.specs.Seated.{TableId, table_id_coded};

use mx_front::Turn;
use std::marker::Model;

/// What a seat at the table of turns knows. No value of it is made: it is for contracts.
pub struct Ask {
    pub turn: Turn,
    /// The writer whose shard it waits for or has.
    pub writer: u64,
    /// The stream whose pens the shards have.
    pub ghost at: { TableId } by { table_id_coded },
}

impl Model for Ask {
    ghost use Rattle.std.specs.Borrow.{ftrue};

    ghost also_owns = { λ _. ftrue };
}

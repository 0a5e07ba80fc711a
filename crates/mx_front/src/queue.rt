//! A queue at a table: a word with the next ticket, and one with the ticket that is served.

ghost use Rattle.std.specs.Prelude.{◌≡◌, ◌≢◌, ℕ, ◌+◌, ◌^◌, ◌<◌};
ghost use Rattle.atomic_table.specs.Table.{step};
ghost use Rattle.mx_front.specs.Queue.{MayClaim, MayCome, no_value};

use atomic_table::{Play, Seat, Shared, TableRule};
use std::sync::Wait;
use std::thread::yield_now;

/// The end of a turn, which is owed: the ticket that is served. It isn't `Drop`, so whoever took a turn ends it on each
/// way out.
pub struct Owed {
    pub ticket: u64,
}

/// Takes the next ticket for a seat of the table, at a word. Each try that finds another ticket leaves the seat as it
/// was.
pub fn claim<P: Play<S, V>, S, V, K, T: TableRule<S, V, K>, R: Wait>(
    rt: &R,
    top: &Shared<S, V, K, T>,
    seat: &mut Seat<S, V>,
    word: usize,
) -> u64
    requires table { (seat.old.table_id ≡ top.now.table_id) × (word < top.now.table_id.words) }
    requires claims { MayClaim (T.holds top.now.key) P.then top.now.table_id.slots seat.old.id seat.old.me word }
    ensures table { seat.new.table_id ≡ seat.old.table_id }
    ensures claimed { P.then (step top.now.table_id.slots word result (result + 1) no_value) seat.old.me result seat.new.me }
    ensures below { result + 1 < 2 ^ 64 }
{
    'tries: for _ in rt.forever() {
        let ticket = top.peek(word);
        if ticket < u64::MAX {
            let found = top.compare_exchange::<P>(seat, word, ticket, ticket + 1);
            if found == ticket {
                return ticket;
            }
        }
    }
    unreachable!()
}

/// Waits until a ticket of a seat of the table is served, at a word. Each look that finds another ticket leaves the seat
/// as it was.
pub fn come<P: Play<S, V>, S, V, K, T: TableRule<S, V, K>, R: Wait>(
    rt: &R,
    top: &Shared<S, V, K, T>,
    seat: &mut Seat<S, V>,
    word: usize,
    ticket: u64,
)
    requires table { (seat.old.table_id ≡ top.now.table_id) × (word < top.now.table_id.words) }
    requires comes { MayCome (T.holds top.now.key) P.then top.now.table_id.slots seat.old.id seat.old.me word ticket }
    ensures table { seat.new.table_id ≡ seat.old.table_id }
    ensures came { P.then (step top.now.table_id.slots word 0 0 no_value) seat.old.me ticket seat.new.me }
{
    'looks: for _ in rt.forever() {
        if top.load::<P>(seat, word) == ticket {
            return;
        }
        yield_now();
    }
    unreachable!()
}

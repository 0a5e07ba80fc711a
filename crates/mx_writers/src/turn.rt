//! The turn of a writer's shard: a ticket, the shard in hand, and the end of the turn.

ghost use Rattle.std.specs.Prelude.{◌≡◌, ◌+◌, ◌*◌, ◌^◌, ◌<◌, [], ◌∷◌, None, Some};
ghost use Rattle.mx_front.specs.declared.view.Turn.TheVariants.{Has};
ghost use Rattle.mx_front.specs.Shown.{place_of, writers_of};
ghost use Rattle.mx_writers.specs.Locks.{resting};
ghost use Rattle.mx_writers.specs.Shown.{IsShardOf};
ghost use Rattle.mx_writers.specs.Tells.{HasTurn};

use crate::board::{Guard, Place};
use crate::folds::Folds;
use crate::plays;
use crate::shards::{Shard, Writers};
use crate::view::Ask;
use mx_front::{Owed, Stream, claim, come};
use std::sync::Wait;

/// The word of a writer's next ticket.
fn ticket_word(writer: u8) -> usize
    ensures { result ≡ 2 * writer }
{
    2 * usize::from(writer)
}

/// The word of the ticket of a writer that is served.
fn serving_word(writer: u8) -> usize
    ensures { result ≡ 2 * writer + 1 }
{
    2 * usize::from(writer) + 1
}

impl<F: Folds> Writers<F> {
    /// A new seat, which waits for nothing.
    fn new_seat(&self) -> Place<F>
        requires writer { 0 < writers_of self.now.stream }
        ensures table { result.table_id ≡ self.now.table.shared.table_id }
        ensures rests { result.me ≡ (resting (place_of self.now.stream), []) }
    {
        self.table.shared.load_new_seat::<plays::Entered>(0).1
    }

    /// A new seat waits for a turn of a writer, and takes its shard in hand.
    pub(crate) fn begin<R: Wait>(&self, rt: &R, writer: u8) -> (Owed, Place<F>)
        requires writer { writer < writers_of self.now.stream }
        ensures table { result.1.table_id ≡ self.now.table.shared.table_id }
        ensures turn { HasTurn IsShardOf (place_of self.now.stream) writer result.0.ticket result.1.me }
    {
        let top = &self.table.shared;
        let word = ticket_word(writer);
        let mut seat = self.new_seat();
        let ticket = claim::<plays::Claimed, Option<Shard<F>>, Ask, Stream<F::Item>, Guard<F>, R>(
            rt, top, &mut seat, word,
        );
        come::<plays::Came, Option<Shard<F>>, Ask, Stream<F::Item>, Guard<F>, R>(
            rt,
            top,
            &mut seat,
            serving_word(writer),
            ticket,
        );
        (Owed { ticket }, seat)
    }

    /// Takes the shard out of the slot in hand.
    pub(crate) fn take_shard(&self, seat: &mut Place<F>, writer: u8, ticket: u64) -> Shard<F>
        requires table { seat.old.table_id ≡ self.now.table.shared.table_id }
        requires turn { HasTurn IsShardOf (place_of self.now.stream) writer ticket seat.old.me }
        ensures table { seat.new.table_id ≡ seat.old.table_id }
        ensures shard { IsShardOf writer (place_of self.now.stream) result }
        ensures seat { seat.new.me ≡ (record { turn = Has ticket; writer = writer; at = place_of self.now.stream }, (writer, None) ∷ []) }
    {
        self.table
            .shared
            .exchange(seat, usize::from(writer), None)
            .unwrap()
    }

    /// Ends the turn: the shard goes back into its slot, and the next ticket is served.
    pub(crate) fn leave(&self, seat: Place<F>, writer: u8, owed: Owed, shard: Shard<F>)
        requires table { seat.table_id ≡ self.now.table.shared.table_id }
        requires writer { writer < writers_of self.now.stream }
        requires seat { seat.me ≡ (record { turn = Has owed.ticket; writer = writer; at = place_of self.now.stream }, (writer, None) ∷ []) }
        requires shard { IsShardOf writer (place_of self.now.stream) shard }
        requires below { owed.ticket + 1 < 2 ^ 64 }
    {
        let Owed { ticket } = owed;
        let mut seat = seat;
        let top = &self.table.shared;
        top.exchange(&mut seat, usize::from(writer), Some(shard));
        top.store::<plays::Left>(&mut seat, serving_word(writer), ticket + 1);
    }
}

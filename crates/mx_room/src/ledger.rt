//! What the rooms of a writer are, as proofs read it.
ghost use Rattle.std.specs.Prelude.{◌≡◌, [], ◌∷◌, ◌++◌};
ghost use Rattle.std.specs.Borrow.{ftrue};
ghost use Rattle.mx_event.specs.contracts.event.Event.{the_row as event_row};
ghost use Rattle.mx_room.specs.Books.{Rooms, no_rooms, taken_in};
ghost use Rattle.mx_room.specs.Coding.{rooms_code};

use mx_event::Event;
use std::marker::Model;

/// The rooms of a writer, which only proofs read. It takes no memory, and its methods do nothing when they run.
#[derive(Drop)]
pub(crate) struct Ledger {
    pub(crate) ghost rooms: { Rooms } by { rooms_code event_row.coded },
}

impl Model for Ledger {
    ghost also_owns = { λ _. ftrue };
}

impl Ledger {
    /// Rooms that the caller's proof names, of what they are made of.
    fn made_of<T>(_parts: &T) -> Ledger
        ghost rooms: { Rooms }
        ensures { result.rooms ≡ rooms }
    {
        Ledger {}
    }

    /// No room of a writer.
    pub(crate) fn empty(_writer: &u8) -> Ledger
        ensures { result.rooms ≡ no_rooms _writer.now }
    {
        Ledger::made_of(_writer)
    }

    /// The same rooms, without a pending block.
    pub(crate) fn without_block(_before: &Ledger) -> Ledger
        ensures { result.rooms ≡ record _before.now.rooms { pending = [] } }
    {
        Ledger::made_of(_before)
    }

    /// The same rooms, with one event more in the pending block.
    pub(crate) fn with(_before: &Ledger, _event: &Event) -> Ledger
        ensures { result.rooms ≡ record _before.now.rooms { pending = _before.now.rooms.pending ++ _event.now ∷ [] } }
    {
        Ledger::made_of(&(_before, _event))
    }

    /// The rooms with the pending block stored from a position on.
    pub(crate) fn stored(_before: &Ledger, _first: &u64) -> Ledger
        ensures { result.rooms ≡ taken_in _before.now.rooms _first.now }
    {
        Ledger::made_of(&(_before, *_first))
    }
}

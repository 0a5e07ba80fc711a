ghost use Rattle.std.specs.Prelude.{◌≡◌, List, [], ◌∷◌, ◌++◌, drop};
ghost use Rattle.std.specs.Borrow.{ftrue};
ghost use Rattle.std.specs.Coded.{coded_list};
ghost use Rattle.mx_event.specs.Lawful.{placed_event};
ghost use Rattle.mx_event.specs.contracts.event.Event.{the_row as event_row};
ghost use Rattle.mx_event.specs.declared.event.Event.{Event};

use mx_event::Event;
use std::marker::Model;

/// A list of events of a room, which only proofs read. It takes no memory, and its methods do nothing when
/// they run.
#[derive(Drop)]
pub(crate) struct Taken {
    pub(crate) ghost events: { List Event } by { coded_list event_row.coded },
}

impl Model for Taken {
    ghost also_owns = { λ _. ftrue };
}

impl Taken {
    /// A list that the caller's proof names, of what it is made of.
    fn made_of<T>(_parts: &T) -> Taken
        ghost list: { List Event }
        ensures { result.events ≡ list }
    {
        Taken {}
    }

    /// No event.
    pub(crate) fn new() -> Taken
        ensures { result.events ≡ [] }
    {
        Taken::made_of(&())
    }

    /// The events before, and then this one.
    pub(crate) fn with(_before: &Taken, _event: &Event) -> Taken
        ensures { result.events ≡ _before.now.events ++ _event.now ∷ [] }
    {
        Taken::made_of(&(_before, _event))
    }

    /// The events before, and then this one as it stands at a position in a block that begins at `_first`.
    pub(crate) fn placed(_before: &Taken, _event: &Event, _first: &u64, _at: &u64) -> Taken
        ensures { result.events ≡ _before.now.events ++ placed_event _event.now _first.now _at.now ∷ [] }
    {
        Taken::made_of(&(_before, _event, *_first, *_at))
    }

    /// The events after the first.
    pub(crate) fn rest(_events: &Taken) -> Taken
        ensures { result.events ≡ drop 1 _events.now.events }
    {
        Taken::made_of(_events)
    }
}

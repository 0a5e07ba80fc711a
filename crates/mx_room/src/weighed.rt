//! A draft with what admitting it needs and no room tells.
ghost use Rattle.std.specs.Prelude.{◌≡◌, IfOk};

use crate::txn_key::TxnKey;
use crate::txns::key_of;
use mx_event::{Draft, Event, fits};
use mx_ids::{Memory, RoomId, UserId};
use std::alloc::Global;
use std::marker::Model;

/// A draft, with what admitting it needs and no room tells: its event, the key of its transaction, and whether the event is small enough.
/// It is made before the turn of a writer, so that others wait the less for theirs. Contracts see it as the draft.
#[derive(Drop)]
pub struct Weighed {
    pub(crate) event: Event,
    pub(crate) key: Option<TxnKey>,
    pub(crate) is_small: bool,
}

impl Model for Weighed {
    ghost use Rattle.mx_event.specs.declared.draft.Draft.{Draft};
    ghost use Rattle.mx_event.specs.contracts.draft.Draft.{the_row as draft_row};
    ghost use Rattle.mx_room.specs.Weighing.{IsWeighed, draft_of};

    ghost Value = { Draft };

    ghost coded = { draft_row.coded };

    ghost view = { λ w. draft_of w.event };

    ghost invariant = { λ w. IsWeighed w.event w.key w.is_small };
}

/// Weighs a draft. Costs a walk of the event and a copy of its transaction.
pub fn weigh(alloc: Global, draft: Draft) -> Result<Weighed, Memory>
    ensures { IfOk result (λ w. w ≡ draft) }
{
    let event = draft.into_event();
    let key = key_of(alloc, &event.txn)?;
    let is_small = fits(&event, event.sender.server());
    Ok(Weighed {
        event,
        key,
        is_small,
    })
}

impl Weighed {
    /// The room of the draft.
    pub fn room(&self) -> &RoomId
        ensures { result.now ≡ self.now.room }
    {
        &self.event.room
    }

    /// Who sends the draft.
    pub fn sender(&self) -> &UserId
        ensures { result.now ≡ self.now.sender }
    {
        &self.event.sender
    }
}

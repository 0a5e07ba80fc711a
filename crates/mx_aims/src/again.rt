//! The drafts of stored events, on which they are decided again.

ghost use Rattle.std.specs.Prelude.{◌≡◌, IfOk, IfSome, map, true};
ghost use Rattle.std.specs.List.{list_all};
ghost use Rattle.mx_create.specs.Admitted.{is_block, is_unplaced};
ghost use Rattle.mx_aims.specs.Again.{is_one, plan_by, unplaced};
ghost use Rattle.mx_aims.specs.EventsDecided.{plan_of};

use crate::creation::Creation;
use crate::events::EventDraft;
use mx_event::Draft;
use mx_ids::{Memory, RoomId, Seq};
use mx_room::weigh;
use std::alloc::Global;

/// The most events that a room is created with.
const MOST_EVENTS: usize = 512;

/// What the drafts of one store's events ask: one event of a room, or a room with its first events, which have no position of their
/// room. `None` where they are none of both, and `Memory` where the allocator refuses.
#[tactic(auto, using(crate::proofs::Plans::block_plan))]
pub fn event_draft(alloc: Global, drafts: Seq<Draft>) -> Result<Option<EventDraft>, Memory>
    ensures { IfOk result (λ found. IfSome found (λ d. plan_of d ≡ plan_by drafts)) }
{
    if is_one(drafts.as_slice()) {
        return only(alloc, drafts);
    }
    match creation(unplaced(drafts)) {
        Some(creation) => Ok(Some(EventDraft::Block(creation))),
        None => Ok(None),
    }
}

/// Whether this is one draft, of a room with a position.
fn is_one(drafts: &[Draft]) -> bool
    ensures { result ≡ is_one drafts.now }
{
    match drafts {
        [draft] => draft.room.at > 0,
        _ => false,
    }
}

/// The only one of some drafts.
fn only(alloc: Global, drafts: Seq<Draft>) -> Result<Option<EventDraft>, Memory>
    requires { is_one drafts ≡ true }
    ensures { IfOk result (λ found. IfSome found (λ d. plan_of d ≡ plan_by drafts)) }
{
    match drafts.into_vec().pop() {
        Some(draft) => Ok(Some(EventDraft::One(weigh(alloc, draft)?))),
        None => Ok(None),
    }
}

/// The drafts without their room.
fn unplaced(drafts: Seq<Draft>) -> Seq<Draft>
    ensures { result ≡ map unplaced drafts }
{
    let mut drafts = drafts.into_vec();
    'drafts: for draft in drafts.iter_mut() {
        draft.room = RoomId { writer: 0, at: 0 };
    }
    Seq::from_vec(drafts)
}

/// A room with these first events, if they are such.
fn creation(drafts: Seq<Draft>) -> Option<Creation>
    ensures { IfSome result (λ c. c.drafts ≡ drafts) }
{
    if is_block(&drafts) {
        Some(Creation { drafts })
    } else {
        None
    }
}

/// Whether a room may be created with these events.
fn is_block(drafts: &Seq<Draft>) -> bool
    ensures { result ≡ is_block drafts.now }
{
    let count = drafts.len();
    0 < count && count <= MOST_EVENTS && are_unplaced(drafts.as_slice())
}

fn are_unplaced(drafts: &[Draft]) -> bool
    ensures { result ≡ list_all is_unplaced drafts.now }
{
    let mut rest = drafts;
    'drafts: while let [first, behind @ ..] = rest {
        if !is_unplaced(first) {
            return false;
        }
        rest = behind;
    }
    true
}

/// Whether a draft is of a state event of a room without writer and position, and of no transaction.
fn is_unplaced(draft: &Draft) -> bool
    ensures { result ≡ is_unplaced draft.now }
{
    draft.state_key.is_some() && draft.room.writer == 0 && draft.room.at == 0 && draft.txn.is_none()
}

//! Whether a room is there, and where in its history a user reads its state.

ghost use Rattle.std.specs.Prelude.{◌≡◌, IfOk, option_map};
ghost use Rattle.mx_event.specs.Shown.{first_of, position_of};
ghost use Rattle.mx_folding.specs.Visible as seen;
ghost use Rattle.mx_rest.specs.Servers.{lists_of};
ghost use Rattle.mx_room_reads.specs.Places as place;
ghost use Rattle.mx_snapshot.specs.Looks.{all_now};
ghost use Rattle.mx_view.specs.Readings as read;

use mx_event::Event;
use mx_event::event_types::MEMBER;
use mx_ids::{Memory, RoomId, UserId};
use mx_parts::{Membership, last_join, membership_of};
use mx_snapshot::Snapshot;
use std::alloc::Global;

/// Whether a room is there: an event is of it. Takes the time of a look-up, and no memory.
pub fn has_room(snapshot: &Snapshot, room: &RoomId) -> bool
    ensures { result ≡ place.has_room (lists_of snapshot.now) room.now }
{
    let _front = snapshot.events.front();
    snapshot.events.last_in(room) != 0
}

/// The position at which a user reads the state of a room: the front where it is joined, else that of the member event by
/// which its latest stay ended. `None` where it was never joined. Takes the time of some searches among the user's member
/// events of the room, and of those after its last join.
pub(crate) fn place_of(
    alloc: Global,
    snapshot: &Snapshot,
    user: &UserId,
    room: &RoomId,
) -> Result<Option<u64>, Memory>
    ensures { IfOk result (λ p. p ≡ place.place_of (lists_of snapshot.now) user.now room.now) }
{
    if is_joined(snapshot, user, room) {
        Ok(Some(snapshot.events.front()))
    } else {
        end_of(alloc, snapshot, user, room)
    }
}

/// Whether a user is joined at the front.
pub fn is_joined(snapshot: &Snapshot, user: &UserId, room: &RoomId) -> bool
    ensures { result ≡ place.is_joined (lists_of snapshot.now) user.now room.now }
{
    let events = &snapshot.events;
    match events.last_of(room, MEMBER, user.as_str(), events.front()) {
        Some(own) => joins(own),
        None => false,
    }
}

/// Whether a member event is a join.
pub(crate) fn joins(event: &Event) -> bool
    ensures { result ≡ seen.is_join (read.membership_of event.now) }
{
    matches!(membership_of(event), Some(Membership::Join))
}

/// The position of the event by which the user's latest stay ended, if there is one.
fn end_of(
    alloc: Global,
    snapshot: &Snapshot,
    user: &UserId,
    room: &RoomId,
) -> Result<Option<u64>, Memory>
    ensures { IfOk result (λ p. p ≡ place.end_of (lists_of snapshot.now) user.now room.now) }
{
    let events = &snapshot.events;
    let front = events.front();
    let join = last_join(events, user, room, front);
    if join == 0 {
        return Ok(None);
    }
    let after = events.versions(alloc, room, MEMBER, user.as_str(), join, front)?;
    Ok(first_at(&after))
}

fn first_at(events: &[&Event]) -> Option<u64>
    ensures { result ≡ option_map position_of (first_of (all_now events.now)) }
{
    match events {
        [first, ..] => Some(first.id.at),
        [] => None,
    }
}

//! The state of a room.

ghost use Rattle.std.specs.Prelude.{◌≡◌, IfOk};
ghost use Rattle.mx_rest.specs.Servers.{AreValid, lists_of};
ghost use Rattle.mx_room_reads.specs.Reads as read;

use crate::places::{has_room, place_of};
use crate::showing::all_shown;
use mx_ask::{Refusal, Said};
use mx_ids::{Memory, RoomId, UserId};
use mx_parts::state_at;
use mx_snapshot::Snapshot;
use std::alloc::Global;

/// The events of a room's state, in order of position, as they are shown to a user (Client-Server API,
/// `GET /rooms/{roomId}/state`): of the state at the front where the user is joined, and where its latest stay ended if it
/// left.
///
/// `NotFound` where the room isn't there, `Forbidden` to a user that was never joined. Takes the time of some searches, and
/// of one for each state event of the room.
#[tactic(auto, unfolding(crate::specs::Reads::room_state_said))]
pub fn room_state(
    alloc: Global,
    snapshot: &Snapshot,
    user: &UserId,
    room: &RoomId,
) -> Result<Said, Memory>
    requires valid { AreValid (lists_of snapshot.now) }
    ensures { IfOk result (λ said. said ≡ read.room_state_said (lists_of snapshot.now) user.now room.now) }
{
    if has_room(snapshot, room) {
        match place_of(alloc, snapshot, user, room)? {
            Some(place) => state_to(alloc, snapshot, user, room, place),
            None => Ok(Said::Refused(Refusal::Forbidden)),
        }
    } else {
        Ok(Said::Refused(Refusal::NotFound))
    }
}

/// The state at a position.
fn state_to(
    alloc: Global,
    snapshot: &Snapshot,
    user: &UserId,
    room: &RoomId,
    place: u64,
) -> Result<Said, Memory>
    requires valid { AreValid (lists_of snapshot.now) }
    ensures { IfOk result (λ said. said ≡ read.state_said (lists_of snapshot.now) user.now room.now place) }
{
    let _front = snapshot.events.front();
    let state = state_at(alloc, &snapshot.events, room, place)?;
    let shown = all_shown(alloc, snapshot, user, room, &state);
    drop(state);
    Ok(Said::State(shown?))
}

//! The member events in the state of a room.

ghost use Rattle.std.specs.Prelude.{◌≡◌, IfOk};
ghost use Rattle.mx_event.specs.Lawful.{of_room};
ghost use Rattle.mx_snapshot.specs.Looks.{all_now};
ghost use Rattle.mx_lazy.specs.Members.{members_at};

use mx_event::Event;
use mx_event::event_types::MEMBER;
use mx_ids::{Memory, RoomId};
use mx_snapshot::Events;
use std::alloc::Global;

/// The member events in the state of a room at a position, in order of position (Client-Server API, m.room.member). Takes
/// the time of a search for each user that has a member event in the room, and of sorting what is found; memory for as many.
pub fn members<'a>(
    alloc: Global,
    events: &'a Events,
    room: &RoomId,
    position: u64,
) -> Result<Vec<&'a Event>, Memory>
    ensures { IfOk result (λ made. all_now made.items ≡ members_at (of_room room.now events.now) position) }
{
    let _front = events.front();
    let made = events.standing_of(alloc, room, MEMBER, position)?;
    Ok(made)
}

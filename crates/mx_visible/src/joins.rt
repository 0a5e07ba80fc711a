//! A user's last join of a room.

ghost use Rattle.std.specs.Prelude.{◌≡◌};
ghost use Rattle.mx_event.specs.Lawful.{of_room};
ghost use Rattle.mx_visible.specs.Walks.{last_join};

use crate::readings::{is_join, membership_of};
use mx_event::event_types::MEMBER;
use mx_ids::{RoomId, UserId};
use mx_snapshot::Events;

/// The position of the last event up to `front` by which a user joins a room, or 0. Takes the time of a search among the
/// user's member events there for each that is later than the join, mostly none, and no memory.
pub fn last_join(events: &Events, user: &UserId, room: &RoomId, front: u64) -> u64
    ensures { result ≡ last_join user.now front (of_room room.now events.now) }
{
    let _front = events.front();
    let mut last = front;
    'versions: while 0 < last {
        match events.last_of(room, MEMBER, user.as_str(), last) {
            Some(own) => {
                if is_join(membership_of(own)) {
                    return own.id.at;
                }
                last = own.id.at.saturating_sub(1);
            }
            None => return 0,
        }
    }
    0
}

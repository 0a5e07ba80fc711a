//! Whether a user stayed in a room.

ghost use Rattle.std.specs.Prelude.{◌≡◌, not};
ghost use Rattle.std.specs.List.{list_any};
ghost use Rattle.mx_window.specs.Windows.{between};
ghost use Rattle.mx_event.specs.Lawful.{of_room};
ghost use Rattle.mx_event.specs.Shown.{position_of};
ghost use Rattle.mx_folding.specs.Visible.{is_join, joined_at, stayed_joined};
ghost use Rattle.mx_view.specs.Readings.{membership_of, viewer_of};
ghost use Rattle.mx_lazy.specs.Stays.{leaves};

use mx_event::Event;
use mx_event::event_types::MEMBER;
use mx_ids::{RoomId, UserId};
use mx_snapshot::Events;
use mx_visible::{Membership, membership_of};

/// Whether a user was joined in a room at every position from `base` to `since`. Takes the time of a search for each of the
/// user's member events between them, and no memory.
pub fn stayed_joined(events: &Events, user: &UserId, room: &RoomId, base: u64, since: u64) -> bool
    ensures { result ≡ stayed_joined (viewer_of user.now) (of_room room.now events.now) base since }
{
    is_joined_at(events, user, room, base) && !has_left_after(events, user, room, base, since)
}

fn is_joined_at(events: &Events, user: &UserId, room: &RoomId, position: u64) -> bool
    ensures { result ≡ joined_at (viewer_of user.now) (of_room room.now events.now) position }
{
    match events.last_of(room, MEMBER, user.as_str(), position) {
        Some(own) => is_join(own),
        None => false,
    }
}

/// Whether a member event of the user, after `base` and up to `since`, gives another membership than `join`.
fn has_left_after(events: &Events, user: &UserId, room: &RoomId, base: u64, since: u64) -> bool
    ensures { result ≡ list_any (leaves user.now) (between position_of base since (of_room room.now events.now)) }
{
    let _front = events.front();
    let mut last = since;
    'versions: while base < last {
        match events.last_of(room, MEMBER, user.as_str(), last) {
            Some(own) => {
                if has_left(own) {
                    return base < own.id.at;
                }
                last = own.id.at.saturating_sub(1);
            }
            None => return false,
        }
    }
    false
}

fn is_join(event: &Event) -> bool
    ensures { result ≡ is_join (membership_of event.now) }
{
    matches!(membership_of(event), Some(Membership::Join))
}

fn has_left(event: &Event) -> bool
    ensures { result ≡ not (is_join (membership_of event.now)) }
{
    !is_join(event)
}

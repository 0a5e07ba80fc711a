//! The last event of a room that a user sees, found by the events that may change what it sees.

ghost use Rattle.std.specs.Prelude.{◌≡◌, option_map};
ghost use Rattle.std.specs.Option.{option_copied};
ghost use Rattle.mx_event.specs.Lawful.{of_room};
ghost use Rattle.mx_event.specs.Shown.{position_of};
ghost use Rattle.mx_folding.specs.Visible.{is_visible};
ghost use Rattle.mx_view.specs.Readings.{viewer_of};
ghost use Rattle.mx_visible.specs.Walks as walk;
ghost use Rattle.mx_window.specs.Lasts.{last_at, last_of};
ghost use Rattle.mx_window.specs.Windows.{between};

use crate::readings::{is_own, is_setting};
use crate::visibility::visible;
use mx_event::Event;
use mx_event::event_types::{HISTORY_VISIBILITY, MEMBER};
use mx_ids::{RoomId, UserId};
use mx_snapshot::Events;

/// The position of the last event of a room after `low` and up to `high` that a user sees at a front, or `low` where it sees
/// none. Takes the time of a few searches for each of the user's member events and the room's history-visibility events
/// there at most, and no memory.
pub fn last_visible(
    events: &Events,
    user: &UserId,
    room: &RoomId,
    low: u64,
    high: u64,
    front: u64,
) -> u64
    ensures { result ≡ last_at position_of low (last_of (is_visible (viewer_of user.now) (of_room room.now events.now) front) (between position_of low high (of_room room.now events.now))) }
{
    let _front = events.front();
    let mut end = high;
    'marks: while low < end {
        match events.last_to(room, end) {
            Some(last) => {
                if visible(events, user, last, front) {
                    return last.id.at.max(low);
                }
                end = hidden_after(events, user, room, last);
            }
            None => return low,
        }
    }
    low
}

/// Where an event of a room is hidden: so are those before it that lie after this position.
fn hidden_after(events: &Events, user: &UserId, room: &RoomId, event: &Event) -> u64
    ensures { result ≡ walk.hidden_after user.now (of_room room.now events.now) event.now }
{
    let before = event.id.at.saturating_sub(1);
    if is_own(event, user) || is_setting(event) {
        before
    } else {
        last_mark(events, user, room, before)
    }
}

/// The position of the later of the user's last member event and the room's last history-visibility event up to `high`, or 0:
/// after it and up to `high` the user sees all of the room's events or none. Takes the time of two searches, and no memory.
pub fn last_mark(events: &Events, user: &UserId, room: &RoomId, high: u64) -> u64
    ensures { result ≡ walk.last_mark user.now high (of_room room.now events.now) }
{
    let _front = events.front();
    let own = position(events.last_of(room, MEMBER, user.as_str(), high));
    let setting = position(events.last_of(room, HISTORY_VISIBILITY, "", high));
    own.max(setting)
}

fn position(event: Option<&Event>) -> u64
    ensures { result ≡ last_at position_of 0 (option_copied event.entry) }
{
    match event {
        Some(event) => event.id.at,
        None => 0,
    }
}

//! Whether a user sees anything of a room.

ghost use Rattle.std.specs.Prelude.{◌≡◌};
ghost use Rattle.mx_parts.specs.Readings.{events_of, front_of};
ghost use Rattle.mx_pager.specs.Pages as sent;

use mx_parts::Reading;
use mx_visible::last_visible;

/// Whether the user sees an event of the room at the front. Takes the time of a few searches for each of the user's member
/// events and the room's history-visibility events at most, and no memory.
pub(crate) fn sees_room(reading: &Reading<'_>) -> bool
    ensures { result ≡ sent.sees reading.now.user.now (events_of reading.now) (front_of reading.now) }
{
    let front = reading.events.front();
    let last = last_visible(reading.events, reading.user, reading.room, 0, front, front);
    0 < last
}

//! What a filter passes of a room.

ghost use Rattle.std.specs.Prelude.{◌≡◌};
ghost use Rattle.mx_parts.specs.Readings.{IsRead, sieve};

use crate::reading::Reading;
use mx_event::Event;
use mx_filter::Part;

/// Whether the timeline filter passes an event of the room.
pub(crate) fn passes(reading: &Reading<'_>, event: &Event) -> bool
    requires { IsRead reading.now }
    ensures { result ≡ (sieve reading.now).passes event.now }
{
    reading
        .filter
        .passes(Part::Timeline, reading.room_text.as_str(), event)
}

/// Whether the state filter passes an event of the room.
pub(crate) fn keeps(reading: &Reading<'_>, event: &Event) -> bool
    requires { IsRead reading.now }
    ensures { result ≡ (sieve reading.now).keeps event.now }
{
    reading
        .filter
        .passes(Part::State, reading.room_text.as_str(), event)
}

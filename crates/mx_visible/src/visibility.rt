//! What a user sees of a room's events, by the events that a snapshot has.

ghost use Rattle.std.specs.Prelude.{◌≡◌, IfOk};
ghost use Rattle.mx_window.specs.Windows.{between};
ghost use Rattle.mx_event.specs.Lawful.{of_room};
ghost use Rattle.mx_event.specs.Shown.{position_of};
ghost use Rattle.mx_folding.specs.Visible.{is_visible};
ghost use Rattle.mx_view.specs.Readings.{viewer_of};
ghost use Rattle.std.specs.Option.{option_copied};
ghost use Rattle.mx_visible.specs.Walks.{all_sighted, allowed_about, allowed_at, sights};

use crate::joins::last_join;
use crate::readings::{is_own, is_setting};
use crate::sights::{Sighted, StoodBefore, allows, sight_from};
use mx_event::Event;
use mx_event::event_types::{HISTORY_VISIBILITY, MEMBER};
use mx_ids::{Memory, RoomId, UserId};
use mx_snapshot::Events;
use std::alloc::Global;

/// Whether a user sees an event of its room at a front, which may be any. Takes the time of some searches among the
/// versions of the user's member event and of the room's history visibility, and no memory.
pub fn visible(events: &Events, user: &UserId, event: &Event, front: u64) -> bool
    ensures { result ≡ is_visible (viewer_of user.now) (of_room event.now.room events.now) front event.now }
{
    let _front = events.front();
    let later = event.id.at < last_join(events, user, &event.room, front);
    allowed_about(events, user, event, later)
}

/// Whether the state at an event lets a user see it, or for some events the state before it.
fn allowed_about(events: &Events, user: &UserId, event: &Event, later: bool) -> bool
    ensures { result ≡ allowed_about user.now (of_room event.now.room events.now) later event.now }
{
    let at = event.id.at;
    allowed(events, user, &event.room, at, later)
        || ((is_own(event, user) || is_setting(event))
            && allowed(events, user, &event.room, at.saturating_sub(1), later))
}

/// Whether the state of a room at a position lets a user see an event.
fn allowed(events: &Events, user: &UserId, room: &RoomId, at: u64, later: bool) -> bool
    ensures { result ≡ allowed_at user.now (of_room room.now events.now) at later }
{
    allows(
        events.last_of(room, MEMBER, user.as_str(), at),
        events.last_of(room, HISTORY_VISIBILITY, "", at),
        later,
    )
}

/// The events of a room at the positions after `low` and up to `high`, each with whether a user sees it at a front. Takes
/// the time of some searches, and of these events; memory for two lists of them.
pub fn sight<'a>(
    alloc: Global,
    events: &'a Events,
    user: &UserId,
    room: &RoomId,
    low: u64,
    high: u64,
    front: u64,
) -> Result<Vec<Sighted<'a>>, Memory>
    ensures { IfOk result (λ made. all_sighted made.items ≡ sights user.now (of_room room.now events.now) front (between position_of low high (of_room room.now events.now))) }
{
    let _front = events.front();
    let before = StoodBefore {
        own: events.last_of(room, MEMBER, user.as_str(), low),
        setting: events.last_of(room, HISTORY_VISIBILITY, "", low),
        last_join: last_join(events, user, room, front),
    };
    let window = events.of_room(alloc, room, low, high)?;
    let made = sight_from(alloc, user, before, &window)?;
    Ok(made)
}

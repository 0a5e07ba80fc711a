//! The members that a page sends.

ghost use Rattle.std.specs.Prelude.{◌≡◌, Some, None, cond, IfOk};
ghost use Rattle.mx_folding.specs.Parts.{members_of};
ghost use Rattle.mx_parts.specs.Readings.{IsRead, events_of, front_of, room_in};
ghost use Rattle.mx_pager.specs.Pages as sent;
ghost use Rattle.mx_snapshot.specs.Looks.{all_now};

use mx_event::{Event, Shown};
use mx_ids::{Memory, Seq};
use mx_parts::{Reading, all_shown, sender_keys, standing_under};
use std::alloc::Global;

/// With lazy members the member events of the senders of these events in the room's state at a position, as they are shown
/// (Client-Server API, Lazy-loading room members). Takes the time of a search for each of the events.
pub(crate) fn page_members(
    alloc: Global,
    reading: &Reading<'_>,
    position: u64,
    events: &[&Event],
) -> Result<Option<Seq<Shown>>, Memory>
    requires { IsRead reading.now }
    ensures { IfOk result (λ made. made ≡ cond (room_in reading.now).lazy (Some (sent.shown_at reading.now.user.now (events_of reading.now) (front_of reading.now) (members_of (room_in reading.now) (events_of reading.now) position (all_now events.now)))) None) }
{
    if reading.filter.selection.lazy {
        let made = lazy_members(alloc, reading, position, events)?;
        Ok(Some(made))
    } else {
        Ok(None)
    }
}

fn lazy_members(
    alloc: Global,
    reading: &Reading<'_>,
    position: u64,
    events: &[&Event],
) -> Result<Seq<Shown>, Memory>
    requires { IsRead reading.now }
    ensures { IfOk result (λ made. made ≡ sent.shown_at reading.now.user.now (events_of reading.now) (front_of reading.now) (members_of (room_in reading.now) (events_of reading.now) position (all_now events.now))) }
{
    let _front = reading.events.front();
    let keys = sender_keys(alloc, events)?;
    let among = standing_under(alloc, reading.events, reading.room, &keys, position)?;
    let made = all_shown(alloc, reading, &among)?;
    Ok(made)
}

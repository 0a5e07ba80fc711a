//! One event of a room.

ghost use Rattle.std.specs.Prelude.{◌≡◌, IfOk, IfSome};
ghost use Rattle.std.specs.Option.{option_copied};
ghost use Rattle.mx_rest.specs.Servers.{AreValid, lists_of};
ghost use Rattle.mx_room_reads.specs.Reads as read;

use crate::showing::shown;
use mx_ask::{Refusal, Said};
use mx_event::{Event, Shown};
use mx_ids::{Memory, RoomId, Text, UserId, read_event_id};
use mx_parts::visible;
use mx_snapshot::Snapshot;
use std::alloc::Global;

/// The event of a room with an id, as it is shown to a user (Client-Server API, `GET /rooms/{roomId}/event/{eventId}`).
///
/// `NotFound` where the room isn't there, the text is no event id of the user's server, no event of the room has it, or the
/// user doesn't see it at the front. Takes the time of a look-up, and of some searches.
#[tactic(auto, unfolding(crate::specs::Reads::one_event_said))]
pub fn one_event(
    alloc: Global,
    snapshot: &Snapshot,
    user: &UserId,
    room: &RoomId,
    event: &Text,
) -> Result<Said, Memory>
    requires valid { AreValid (lists_of snapshot.now) }
    ensures { IfOk result (λ said. said ≡ read.one_event_said (lists_of snapshot.now) user.now room.now event.now) }
{
    let event = seen_event(snapshot, user, room, event);
    let shown = shown(alloc, snapshot, user, room, event)?;
    Ok(event_said(shown))
}

fn event_said(shown: Option<Shown>) -> Said
    ensures { result ≡ read.event_said shown }
{
    match shown {
        Some(shown) => Said::Event(shown),
        None => Said::Refused(Refusal::NotFound),
    }
}

/// The event that a text names, if the user sees it at the front.
pub fn seen_event<'a>(
    snapshot: &'a Snapshot,
    user: &UserId,
    room: &RoomId,
    text: &Text,
) -> Option<&'a Event>
    ensures found { option_copied result ≡ read.seen_event (lists_of snapshot.now) user.now room.now text.now }
    ensures listed { IfSome result (λ e. read.IsListed (lists_of snapshot.now) room.now e.now) }
{
    let event = named_event(snapshot, user, room, text)?;
    let front = snapshot.events.front();
    if visible(&snapshot.events, user, event, front) {
        Some(event)
    } else {
        None
    }
}

/// The event of the room that a text names.
fn named_event<'a>(
    snapshot: &'a Snapshot,
    user: &UserId,
    room: &RoomId,
    text: &Text,
) -> Option<&'a Event>
    ensures found { option_copied result ≡ read.named_event (lists_of snapshot.now) user.now room.now text.now }
    ensures listed { IfSome result (λ e. read.IsListed (lists_of snapshot.now) room.now e.now) }
{
    let id = read_event_id(text.as_str(), user.server())?;
    at_position(snapshot, room, id.at)
}

/// The event of the room at a position.
fn at_position<'a>(snapshot: &'a Snapshot, room: &RoomId, position: u64) -> Option<&'a Event>
    ensures found { option_copied result ≡ read.event_at (lists_of snapshot.now) room.now position }
    ensures listed { IfSome result (λ e. read.IsListed (lists_of snapshot.now) room.now e.now) }
{
    let _front = snapshot.events.front();
    let event = snapshot.events.at(position)?;
    if event.room == *room {
        Some(event)
    } else {
        None
    }
}

//! The content of a room's state under a key.

ghost use Rattle.std.specs.Prelude.{◌≡◌, IfOk, IfSome, option_map, is_some};
ghost use Rattle.std.specs.Option.{option_copied};
ghost use Rattle.mx_ask.specs.declared.said.Said.TheVariants as said;
ghost use Rattle.mx_event.specs.declared.event.Event.{Event};
ghost use Rattle.mx_event.specs.declared.event.Shown as shows;
ghost use Rattle.mx_rest.specs.Servers.{AreValid, lists_of};
ghost use Rattle.mx_room_reads.specs.Places as place;
ghost use Rattle.mx_room_reads.specs.Reads as read;

use crate::places::{has_room, place_of};
use crate::showing::shown;
use mx_ask::{Refusal, Said};
use mx_event::{Event, Shown};
use mx_ids::{Memory, RoomId, Text, UserId};
use mx_snapshot::Snapshot;
use std::alloc::Global;

/// The content of a room's state under a type and a state key, as it is shown to a user (Client-Server API,
/// `GET /rooms/{roomId}/state/{eventType}/{stateKey}`): of the state at the front where the user is joined, and where its
/// latest stay ended if it left.
///
/// `NotFound` where the room isn't there, or nothing stands under the key; for a user that was never joined at the front.
/// `Forbidden` to such a user where something does. Takes the time of some look-ups and searches.
#[tactic(auto, unfolding(crate::specs::Reads::state_content_said))]
pub fn state_content(
    alloc: Global,
    snapshot: &Snapshot,
    user: &UserId,
    room: &RoomId,
    kind: &Text,
    key: &Text,
) -> Result<Said, Memory>
    requires valid { AreValid (lists_of snapshot.now) }
    ensures { IfOk result (λ said. said ≡ read.state_content_said (lists_of snapshot.now) user.now room.now kind.now key.now) }
{
    if has_room(snapshot, room) {
        let place = place_of(alloc, snapshot, user, room)?;
        let event = standing(snapshot, room, kind, key, place);
        let shown = shown(alloc, snapshot, user, room, event)?;
        Ok(content_said(place.is_some(), shown))
    } else {
        Ok(Said::Refused(Refusal::NotFound))
    }
}

/// The event that stands under the key at a position, or at the front without one.
fn standing<'a>(
    snapshot: &'a Snapshot,
    room: &RoomId,
    kind: &Text,
    key: &Text,
    place: Option<u64>,
) -> Option<&'a Event>
    ensures found { option_copied result ≡ read.standing_from (lists_of snapshot.now) room.now kind.now key.now place }
    ensures listed { IfSome result (λ e. read.IsListed (lists_of snapshot.now) room.now e.now) }
{
    let events = &snapshot.events;
    let place = place.unwrap_or(events.front());
    events.last_of(room, kind.as_str(), key.as_str(), place)
}

fn content_said(was_joined: bool, shown: Option<Shown>) -> Said
    ensures { result ≡ read.content_said was_joined (option_map (λ (s : shows.Shown). s.event) shown) }
{
    match shown {
        Some(shown) => {
            if was_joined {
                content_of(shown)
            } else {
                drop(shown);
                Said::Refused(Refusal::Forbidden)
            }
        }
        None => Said::Refused(Refusal::NotFound),
    }
}

/// The content alone. What else there is goes by statements, since its drop at the end costs the proof more.
fn content_of(shown: Shown) -> Said
    ensures { result ≡ said.Content shown.event.content }
{
    let Shown { event, because } = shown;
    drop(because);
    let Event {
        kind,
        state_key,
        sender,
        content,
        txn,
        ..
    } = event;
    drop(kind);
    drop(state_key);
    drop(sender);
    drop(txn);
    Said::Content(content)
}

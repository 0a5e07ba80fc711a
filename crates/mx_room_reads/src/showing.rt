//! How a room's events are shown to a user at the front.

ghost use Rattle.std.specs.Prelude.{◌≡◌, IfOk, IfSome, option_map};
ghost use Rattle.std.specs.Option.{option_copied};
ghost use Rattle.mx_ids.specs.Ids.{room_id_text};
ghost use Rattle.mx_ids.specs.User.{server_of};
ghost use Rattle.mx_rest.specs.Servers.{AreValid, lists_of};
ghost use Rattle.mx_room_reads.specs.Reads as read;
ghost use Rattle.mx_snapshot.specs.Looks.{all_now};

use mx_event::{Event, Shown};
use mx_filter::everything;
use mx_ids::{Memory, RoomId, Seq, Text, UserId, write_room_id};
use mx_parts::Reading;
use mx_snapshot::Snapshot;
use std::alloc::Global;

/// Copies of events of a room, as they are shown to a user at the front. Takes the time of a look-up for each, and of some
/// searches for each that is redacted.
pub(crate) fn all_shown(
    alloc: Global,
    snapshot: &Snapshot,
    user: &UserId,
    room: &RoomId,
    events: &[&Event],
) -> Result<Seq<Shown>, Memory>
    requires valid { AreValid (lists_of snapshot.now) }
    requires listed { read.AreListed (lists_of snapshot.now) room.now (all_now events.now) }
    ensures { IfOk result (λ made. made ≡ read.all_shown (lists_of snapshot.now) user.now room.now (all_now events.now)) }
{
    let text = text_of(alloc, room, user)?;
    let filter = everything(alloc)?;
    let reading = Reading {
        events: &snapshot.events,
        room,
        room_text: &text,
        user,
        filter: &filter,
    };
    let shown = mx_parts::all_shown(alloc, &reading, events);
    drop(filter);
    drop(text);
    shown
}

/// A copy of an event of a room, if there is one, as it is shown to a user at the front.
pub(crate) fn shown(
    alloc: Global,
    snapshot: &Snapshot,
    user: &UserId,
    room: &RoomId,
    event: Option<&Event>,
) -> Result<Option<Shown>, Memory>
    requires valid { AreValid (lists_of snapshot.now) }
    requires listed { IfSome event (λ e. read.IsListed (lists_of snapshot.now) room.now e.now) }
    ensures { IfOk result (λ s. s ≡ option_map (read.shown_to (lists_of snapshot.now) user.now room.now) (option_copied event.entry)) }
{
    match event {
        Some(event) => {
            let shown = all_shown(alloc, snapshot, user, room, [event].as_slice())?;
            let mut shown = shown.into_vec().into_iter();
            let first = shown.next();
            drop(shown);
            Ok(first)
        }
        None => Ok(None),
    }
}

/// The text of a room's id, at the user's server.
fn text_of(alloc: Global, room: &RoomId, user: &UserId) -> Result<Text, Memory>
    ensures { IfOk result (λ t. t ≡ room_id_text (server_of user.now) room.now) }
{
    let mut text = Text::new(alloc);
    write_room_id(alloc, room, user.server(), &mut text)?;
    Ok(text)
}

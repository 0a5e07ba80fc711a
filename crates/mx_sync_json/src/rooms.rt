//! Rooms of a reply.

ghost use Rattle.std.specs.Prelude.{◌≡◌, [], fold, IfOk, OnOk};
ghost use Rattle.std.specs.Option.{option_copied};
ghost use Rattle.mx_ids.specs.Ids.{room_id_text};
ghost use Rattle.mx_json.specs.Keys.{with_member};
ghost use Rattle.mx_json.specs.declared.value.Json.TheVariants as json;
ghost use Rattle.mx_sync_json.specs.Keyed.{members_in};
ghost use Rattle.mx_sync_json.specs.Rooms as form;

use crate::accounts::account_form;
use crate::keyed::{members_of, set_keyed};
use crate::members::{events_form, put, single};
use crate::numbers::{counts_form, summary_form};
use crate::receipts::ephemeral_form;
use crate::shown::{Reader, state_form, stripped_form, timeline_form};
use mx_ids::{Memory, RoomId, Seq, Text, write_room_id};
use mx_json::{Json, Members};
use mx_lazy::Summary;
use mx_receipt::Receipt;
use mx_sync::{InvitedRoom, JoinedRoom, LeftRoom, RoomRest};
use mx_unread::Counts;
use std::alloc::Global;
use std::collections::BTreeMap;

/// The rooms that the user is joined in, by the texts of their ids.
pub(crate) fn joined_rooms(
    alloc: Global,
    to: &Reader<'_>,
    rooms: &Seq<JoinedRoom>,
) -> Result<Members<Json>, Memory>
    ensures { IfOk result (λ ms. ms ≡ fold (form.with_joined to.now.server.now to.now.device to.now.front) [] rooms.now) }
{
    let mut listed = BTreeMap::new(alloc);
    'rooms: for room in rooms.as_slice() {
        let value = joined_form(alloc, to, room)?;
        set_room(alloc, &mut listed, to.server, &room.room, value)?;
    }
    members_of(alloc, listed)
}

/// The rooms that the user is invited to.
pub(crate) fn invited_rooms(
    alloc: Global,
    server: &str,
    rooms: &Seq<InvitedRoom>,
) -> Result<Members<Json>, Memory>
    ensures { IfOk result (λ ms. ms ≡ fold (form.with_invited server.now) [] rooms.now) }
{
    let mut listed = BTreeMap::new(alloc);
    'rooms: for room in rooms.as_slice() {
        let value = invited_form(alloc, room)?;
        set_room(alloc, &mut listed, server, &room.room, value)?;
    }
    members_of(alloc, listed)
}

/// The rooms that the user left.
pub(crate) fn left_rooms(
    alloc: Global,
    to: &Reader<'_>,
    rooms: &Seq<LeftRoom>,
) -> Result<Members<Json>, Memory>
    ensures { IfOk result (λ ms. ms ≡ fold (form.with_left to.now.server.now to.now.device to.now.front) [] rooms.now) }
{
    let mut listed = BTreeMap::new(alloc);
    'rooms: for room in rooms.as_slice() {
        let value = left_form(alloc, to, room)?;
        set_room(alloc, &mut listed, to.server, &room.room, value)?;
    }
    members_of(alloc, listed)
}

/// Puts a room under the text of its id.
fn set_room(
    alloc: Global,
    listed: &mut BTreeMap<Text, Json>,
    server: &str,
    room: &RoomId,
    value: Json,
) -> Result<(), Memory>
    ensures { OnOk result (members_in listed.new.entries ≡ with_member (room_id_text server.now room.now) value (members_in listed.old.entries)) }
{
    let mut id = Text::new(alloc);
    write_room_id(alloc, room, server, &mut id)?;
    set_keyed(listed, id, value)
}

fn joined_form(alloc: Global, to: &Reader<'_>, room: &JoinedRoom) -> Result<Json, Memory>
    ensures { IfOk result (λ j. j ≡ form.joined_form to.now.server.now to.now.device to.now.front room.now) }
{
    let mut members = Members::new(alloc);
    put_data_and_state(alloc, &mut members, to, room)?;
    put_timeline_and_counts(alloc, &mut members, to, room)?;
    Ok(Json::Object(members))
}

/// Puts the account data, the receipts and the state of a joined room into an object that has no members.
fn put_data_and_state(
    alloc: Global,
    members: &mut Members<Json>,
    to: &Reader<'_>,
    room: &JoinedRoom,
) -> Result<(), Memory>
    requires { members.old ≡ [] }
    ensures { OnOk result (members.new ≡ form.data_and_state to.now.server.now to.now.device to.now.front room.now) }
{
    let account = account_form(alloc, account_of(&room.rest))?;
    put(alloc, members, "account_data", account)?;
    let ephemeral = ephemeral_form(alloc, to.server, receipts_of(&room.rest))?;
    put(alloc, members, "ephemeral", ephemeral)?;
    let state = state_form(alloc, to, &room.part)?;
    put(alloc, members, state_name(room.after), state)?;
    Ok(())
}

/// Puts the summary, the timeline and the counts of a joined room behind its account data, receipts and state.
fn put_timeline_and_counts(
    alloc: Global,
    members: &mut Members<Json>,
    to: &Reader<'_>,
    room: &JoinedRoom,
) -> Result<(), Memory>
    requires { members.old ≡ form.data_and_state to.now.server.now to.now.device to.now.front room.now }
    ensures { OnOk result (json.Object members.new ≡ form.joined_form to.now.server.now to.now.device to.now.front room.now) }
{
    let summary = summary_form(alloc, summary_of(&room.rest))?;
    put(alloc, members, "summary", summary)?;
    let timeline = timeline_form(alloc, to, &room.part)?;
    put(alloc, members, "timeline", timeline)?;
    let unread = counts_form(alloc, counts_of(&room.rest))?;
    put(alloc, members, "unread_notifications", unread)?;
    Ok(())
}

/// The key of the state: by whether it is that at the timeline's end.
fn state_name(after: bool) -> &'static str
    ensures { result.now ≡ form.state_name after }
{
    if after { "state_after" } else { "state" }
}

fn receipts_of(rest: &RoomRest) -> &Seq<Receipt>
    ensures { result.now ≡ form.receipts_of rest.now }
{
    match rest {
        RoomRest::New(view) => &view.receipts,
        RoomRest::Changed(delta) => &delta.receipts,
    }
}

fn account_of(rest: &RoomRest) -> &Seq<(Text, Json)>
    ensures { result.now ≡ form.account_of rest.now }
{
    match rest {
        RoomRest::New(view) => &view.account,
        RoomRest::Changed(delta) => &delta.account,
    }
}

fn counts_of(rest: &RoomRest) -> &Counts
    ensures { result.now ≡ form.counts_of rest.now }
{
    match rest {
        RoomRest::New(view) => &view.counts,
        RoomRest::Changed(delta) => &delta.counts,
    }
}

fn summary_of(rest: &RoomRest) -> Option<&Summary>
    ensures { option_copied result ≡ form.summary_of rest.now }
{
    match rest {
        RoomRest::New(view) => Some(&view.summary),
        RoomRest::Changed(delta) => delta.summary.as_ref(),
    }
}

fn left_form(alloc: Global, to: &Reader<'_>, room: &LeftRoom) -> Result<Json, Memory>
    ensures { IfOk result (λ j. j ≡ form.left_form to.now.server.now to.now.device to.now.front room.now) }
{
    let state = state_form(alloc, to, &room.part)?;
    let timeline = timeline_form(alloc, to, &room.part)?;
    let mut members = Members::new(alloc);
    put(alloc, &mut members, state_name(room.after), state)?;
    put(alloc, &mut members, "timeline", timeline)?;
    Ok(Json::Object(members))
}

fn invited_form(alloc: Global, room: &InvitedRoom) -> Result<Json, Memory>
    ensures { IfOk result (λ j. j ≡ form.invited_form room.now) }
{
    let events = stripped_form(alloc, &room.state)?;
    let state = events_form(alloc, events)?;
    single(alloc, "invite_state", state)
}

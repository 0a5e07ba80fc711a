//! The members of a room.

ghost use Rattle.std.specs.Prelude.{◌≡◌, ◌++◌, [], ◌∷◌, IfOk, OnOk};
ghost use Rattle.std.specs.List.{filter};
ghost use Rattle.mx_rest.specs.Servers.{AreValid, lists_of};
ghost use Rattle.mx_room_reads.specs.Reads as read;
ghost use Rattle.mx_snapshot.specs.Looks.{all_now};

use crate::places::{has_room, place_of};
use crate::showing::all_shown;
use mx_ask::{Refusal, Said};
use mx_event::Event;
use mx_ids::{Memory, RoomId, Text, UserId};
use mx_parts::members;
use mx_snapshot::Snapshot;
use std::alloc::Global;

/// The member events of a room's state, in order of position, as they are shown to a user (Client-Server API,
/// `GET /rooms/{roomId}/members`): of the state at the front where the user is joined, and where its latest stay ended if it
/// left. Of them those that give `membership`, those that don't give `not_membership`, and with both of these those of either kind.
///
/// `NotFound` where the room isn't there, `Forbidden` to a user that was never joined. Takes the time of some searches and of
/// `members` of `mx_lazy`.
#[tactic(auto, unfolding(crate::specs::Reads::room_members_said))]
pub fn room_members(
    alloc: Global,
    snapshot: &Snapshot,
    user: &UserId,
    room: &RoomId,
    membership: &Option<Text>,
    not_membership: &Option<Text>,
) -> Result<Said, Memory>
    requires valid { AreValid (lists_of snapshot.now) }
    ensures { IfOk result (λ said. said ≡ read.room_members_said (lists_of snapshot.now) user.now room.now membership.now not_membership.now) }
{
    if has_room(snapshot, room) {
        match place_of(alloc, snapshot, user, room)? {
            Some(place) => members_to(
                alloc,
                snapshot,
                user,
                room,
                membership,
                not_membership,
                place,
            ),
            None => Ok(Said::Refused(Refusal::Forbidden)),
        }
    } else {
        Ok(Said::Refused(Refusal::NotFound))
    }
}

/// The members at a position.
fn members_to(
    alloc: Global,
    snapshot: &Snapshot,
    user: &UserId,
    room: &RoomId,
    membership: &Option<Text>,
    not_membership: &Option<Text>,
    place: u64,
) -> Result<Said, Memory>
    requires valid { AreValid (lists_of snapshot.now) }
    ensures { IfOk result (λ said. said ≡ read.members_said (lists_of snapshot.now) user.now room.now membership.now not_membership.now place) }
{
    let _front = snapshot.events.front();
    let members = members(alloc, &snapshot.events, room, place)?;
    let selected = selected(alloc, &members, membership, not_membership)?;
    let shown = all_shown(alloc, snapshot, user, room, &selected)?;
    Ok(Said::Members(shown))
}

/// Those of some member events that are asked for.
fn selected<'a>(
    alloc: Global,
    members: &[&'a Event],
    membership: &Option<Text>,
    not_membership: &Option<Text>,
) -> Result<Vec<&'a Event>, Memory>
    ensures { IfOk result (λ made. all_now made.items ≡ filter (read.is_selected membership.now not_membership.now) (all_now members.now)) }
{
    let mut made = Vec::new(alloc);
    'members: for member in members {
        keep(&mut made, *member, membership, not_membership)?;
    }
    Ok(made)
}

fn keep<'a>(
    made: &mut Vec<&'a Event>,
    member: &'a Event,
    membership: &Option<Text>,
    not_membership: &Option<Text>,
) -> Result<(), Memory>
    ensures { OnOk result (all_now made.new.items ≡ all_now made.old.items ++ filter (read.is_selected membership.now not_membership.now) (member.now ∷ [])) }
{
    if is_selected(member, membership, not_membership) {
        made.push(member)?;
    }
    Ok(())
}

/// Whether it gives the one membership or doesn't give the other, of those that are there.
fn is_selected(member: &Event, membership: &Option<Text>, not_membership: &Option<Text>) -> bool
    ensures { result ≡ read.is_selected membership.now not_membership.now member.now }
{
    match (membership, not_membership) {
        (None, None) => true,
        (Some(wanted), None) => gives(member, wanted),
        (None, Some(unwanted)) => !gives(member, unwanted),
        (Some(wanted), Some(unwanted)) => gives(member, wanted) || !gives(member, unwanted),
    }
}

fn gives(member: &Event, membership: &Text) -> bool
    ensures { result ≡ read.gives membership.now member.now }
{
    match member.content.text_at("membership") {
        Some(found) => found == membership,
        None => false,
    }
}

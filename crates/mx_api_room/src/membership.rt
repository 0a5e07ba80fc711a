//! Calls that change a membership of a room.
ghost use Rattle.std.specs.Prelude.{◌≡◌, IfOk, Some, codes};
ghost use Rattle.mx_json.specs.Fields.{text_at};
ghost use Rattle.mx_api.specs.Calls.{IsAsked};
ghost use Rattle.mx_api_room.specs.Membership.{change_asked, named_asked, own_asked, own_by};

use mx_api::{Asked, Field, Refused, post_body, text_field};
use mx_ask::{Ask, Request, Who};
use mx_ids::{Memory, Text};
use mx_json::Json;
use std::alloc::Global;

/// A change of another user's membership.
#[derive(Clone, Copy, Debug, PartialEq, Eq)]
pub(crate) enum Change {
    Invite,
    Kick,
    Ban,
    Unban,
}

/// A change of the caller's own membership.
#[derive(Clone, Copy, Debug, PartialEq, Eq)]
pub(crate) enum OwnChange {
    Join,
    Leave,
}

/// To join or leave a room (Client-Server API, Joining rooms, Leaving rooms).
#[tactic(auto, unfolding(crate::specs::Membership::own_asked))]
pub(crate) fn change_own(
    alloc: Global,
    change: OwnChange,
    who: Who,
    room: Option<Text>,
    body: &[u8],
) -> Result<Asked, Memory>
    ensures asked { IfOk result (λ asked. asked ≡ own_asked change who room body.now) }
    ensures sound { IfOk result (λ asked. IsAsked asked) }
{
    let Some(room) = room else {
        return Ok(Asked::Refused(Refused::BadPath));
    };
    match post_body(alloc, body)? {
        Ok(body) => {
            let reason = text_field(alloc, &body, "reason")?;
            Ok(of_caller(change, who, room, reason))
        }
        Err(refused) => Ok(Asked::Refused(refused)),
    }
}

/// A change of the caller.
fn of_caller(change: OwnChange, who: Who, room: Text, reason: Option<Text>) -> Asked
    ensures asked { result ≡ own_by change who room reason }
    ensures sound { IsAsked result }
{
    match change {
        OwnChange::Join => Asked::Request(Request {
            who,
            ask: Ask::Join { room, reason },
        }),
        OwnChange::Leave => Asked::Request(Request {
            who,
            ask: Ask::Leave { room, reason },
        }),
    }
}

/// To invite, kick, ban or unban a user (Client-Server API, Room membership).
#[tactic(auto, unfolding(crate::specs::Membership::change_asked))]
pub(crate) fn change_member(
    alloc: Global,
    change: Change,
    who: Who,
    room: Option<Text>,
    body: &[u8],
) -> Result<Asked, Memory>
    ensures asked { IfOk result (λ asked. asked ≡ change_asked change who room body.now) }
    ensures sound { IfOk result (λ asked. IsAsked asked) }
{
    let Some(room) = room else {
        return Ok(Asked::Refused(Refused::BadPath));
    };
    match post_body(alloc, body)? {
        Ok(body) => named(alloc, change, who, room, &body),
        Err(refused) => Ok(Asked::Refused(refused)),
    }
}

/// A change of the user that the body names.
fn named(alloc: Global, change: Change, who: Who, room: Text, body: &Json) -> Result<Asked, Memory>
    ensures asked { IfOk result (λ asked. asked ≡ named_asked change who room (text_at (codes "reason") body.now) (text_at (codes "user_id") body.now)) }
    ensures sound { IfOk result (λ asked. IsAsked asked) }
{
    let Some(user) = text_field(alloc, body, "user_id")? else {
        return Ok(Asked::Refused(Refused::BadShape(Field::UserId)));
    };
    let reason = text_field(alloc, body, "reason")?;
    Ok(of_user(change, who, room, user, reason))
}

/// A change of a user.
fn of_user(change: Change, who: Who, room: Text, user: Text, reason: Option<Text>) -> Asked
    ensures asked { result ≡ named_asked change who room reason (Some user) }
    ensures sound { IsAsked result }
{
    match change {
        Change::Invite => Asked::Request(Request {
            who,
            ask: Ask::Invite { room, user, reason },
        }),
        Change::Kick => Asked::Request(Request {
            who,
            ask: Ask::Kick { room, user, reason },
        }),
        Change::Ban => Asked::Request(Request {
            who,
            ask: Ask::Ban { room, user, reason },
        }),
        Change::Unban => Asked::Request(Request {
            who,
            ask: Ask::Unban { room, user, reason },
        }),
    }
}

//! The tags of a room.
ghost use Rattle.std.specs.Prelude.{◌≡◌, IfOk};
ghost use Rattle.mx_api.specs.Calls.{IsAsked};
ghost use Rattle.mx_api_user.specs.Tags.{tag_asked, tag_by, tags_asked};

use crate::parts::{five_parts, is_caller};
use mx_api::{Asked, Authenticated, Refused, four_parts, object_body};
use mx_ask::{Ask, Request, Who};
use mx_ids::{Memory, Text};
use std::alloc::Global;

/// To read the tags of a room (Client-Server API, Room Tagging).
pub(crate) fn tags(call: Authenticated) -> Asked
    ensures asked { result ≡ tags_asked call }
    ensures sound { IsAsked result }
{
    let who = call.who;
    let Some((user, _, room, _)) = four_parts(call.parts) else {
        return Asked::Refused(Refused::BadPath);
    };
    if !is_caller(&who, &user) {
        return Asked::Refused(Refused::NotCaller);
    }
    let ask = Ask::Tags { room };
    Asked::Request(Request { who, ask })
}

/// A tag of a room, by the method (Client-Server API, Room Tagging).
#[tactic(auto, unfolding(crate::specs::Tags::tag_asked))]
pub(crate) fn tag(
    alloc: Global,
    method: &str,
    call: Authenticated,
    body: &[u8],
) -> Result<Asked, Memory>
    ensures asked { IfOk result (λ asked. asked ≡ tag_asked method.now call body.now) }
    ensures sound { IfOk result (λ asked. IsAsked asked) }
{
    let who = call.who;
    let Some((user, _, room, _, tag)) = five_parts(call.parts) else {
        return Ok(Asked::Refused(Refused::BadPath));
    };
    if !is_caller(&who, &user) {
        return Ok(Asked::Refused(Refused::NotCaller));
    }
    change_tag(alloc, method, who, room, tag, body)
}

/// To put or delete a tag, by the method. The body of a put is an object.
#[tactic(auto, unfolding(crate::specs::Tags::tag_by))]
fn change_tag(
    alloc: Global,
    method: &str,
    who: Who,
    room: Text,
    tag: Text,
    body: &[u8],
) -> Result<Asked, Memory>
    ensures asked { IfOk result (λ asked. asked ≡ tag_by method.now who room tag body.now) }
    ensures sound { IfOk result (λ asked. IsAsked asked) }
{
    if method == "DELETE" {
        let ask = Ask::DeleteTag { room, tag };
        return Ok(Asked::Request(Request { who, ask }));
    }
    match object_body(alloc, body)? {
        Ok(body) => {
            let ask = Ask::PutTag { room, tag, body };
            Ok(Asked::Request(Request { who, ask }))
        }
        Err(refused) => Ok(Asked::Refused(refused)),
    }
}

//! Calls that read a room's state and events.
ghost use Rattle.std.specs.Prelude.{◌≡◌, IfOk};
ghost use Rattle.mx_api.specs.Calls.{IsAsked};
ghost use Rattle.mx_api_reads.specs.Reads.{event_asked, members_asked, state_asked};

use mx_api::{Asked, Authenticated, Refused, room_of, three_parts, value_at};
use mx_ask::{Ask, Request};
use mx_ids::Memory;
use std::alloc::Global;

/// All of a room's state.
pub(crate) fn state(call: Authenticated) -> Asked
    ensures asked { result ≡ state_asked call }
    ensures sound { IsAsked result }
{
    let who = call.who;
    match room_of(call.parts) {
        Some(room) => Asked::Request(Request {
            who,
            ask: Ask::AllState { room },
        }),
        None => Asked::Refused(Refused::BadPath),
    }
}

/// The member events of a room's state.
#[tactic(auto, unfolding(crate::specs::Reads::members_asked))]
pub(crate) fn members(alloc: Global, call: Authenticated) -> Result<Asked, Memory>
    ensures asked { IfOk result (λ asked. asked ≡ members_asked call) }
    ensures sound { IfOk result (λ asked. IsAsked asked) }
{
    let who = call.who;
    let query = call.query;
    let Some(room) = room_of(call.parts) else {
        return Ok(Asked::Refused(Refused::BadPath));
    };
    let membership = value_at(alloc, query.as_slice(), "membership")?;
    let not_membership = value_at(alloc, query.as_slice(), "not_membership")?;
    let ask = Ask::Members {
        room,
        membership,
        not_membership,
    };
    Ok(Asked::Request(Request { who, ask }))
}

/// An event of a room.
pub(crate) fn event(call: Authenticated) -> Asked
    ensures asked { result ≡ event_asked call }
    ensures sound { IsAsked result }
{
    let who = call.who;
    match three_parts(call.parts) {
        Some((room, _, event)) => Asked::Request(Request {
            who,
            ask: Ask::OneEvent { room, event },
        }),
        None => Asked::Refused(Refused::BadPath),
    }
}

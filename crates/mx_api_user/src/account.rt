//! Account data, global and of a room.
ghost use Rattle.std.specs.Prelude.{◌≡◌, IfOk};
ghost use Rattle.mx_api.specs.Calls.{IsAsked};
ghost use Rattle.mx_api_user.specs.Account.{account_asked, content_put, data_asked, is_own_type, room_account_asked};

use crate::parts::{five_parts, is_caller};
use mx_api::{Asked, Authenticated, Refused, object_body, three_parts};
use mx_ask::{Ask, Request, Who};
use mx_ids::{Memory, Text};
use mx_json::Json;
use std::alloc::Global;

/// Global account data, by the method (Client-Server API, Client Config).
#[tactic(auto, unfolding(crate::specs::Account::account_asked))]
pub(crate) fn account(
    alloc: Global,
    method: &str,
    call: Authenticated,
    body: &[u8],
) -> Result<Asked, Memory>
    ensures asked { IfOk result (λ asked. asked ≡ account_asked method.now call body.now) }
    ensures sound { IfOk result (λ asked. IsAsked asked) }
{
    let who = call.who;
    let Some((user, _, kind)) = three_parts(call.parts) else {
        return Ok(Asked::Refused(Refused::BadPath));
    };
    if !is_caller(&who, &user) {
        return Ok(Asked::Refused(Refused::NotCaller));
    }
    account_data(alloc, method, who, None, kind, body)
}

/// Account data of a room, by the method (Client-Server API, Client Config).
#[tactic(auto, unfolding(crate::specs::Account::room_account_asked))]
pub(crate) fn room_account(
    alloc: Global,
    method: &str,
    call: Authenticated,
    body: &[u8],
) -> Result<Asked, Memory>
    ensures asked { IfOk result (λ asked. asked ≡ room_account_asked method.now call body.now) }
    ensures sound { IfOk result (λ asked. IsAsked asked) }
{
    let who = call.who;
    let Some((user, _, room, _, kind)) = five_parts(call.parts) else {
        return Ok(Asked::Refused(Refused::BadPath));
    };
    if !is_caller(&who, &user) {
        return Ok(Asked::Refused(Refused::NotCaller));
    }
    account_data(alloc, method, who, Some(room), kind, body)
}

/// Account data of a type, by the method. The first refusal of a put that applies: those of `object_body`, and `OwnType`
/// where clients don't put the type.
#[tactic(auto, unfolding(crate::specs::Account::data_asked))]
fn account_data(
    alloc: Global,
    method: &str,
    who: Who,
    room: Option<Text>,
    kind: Text,
    body: &[u8],
) -> Result<Asked, Memory>
    ensures asked { IfOk result (λ asked. asked ≡ data_asked method.now who room kind body.now) }
    ensures sound { IfOk result (λ asked. IsAsked asked) }
{
    if method == "GET" {
        let ask = Ask::GetAccount { room, kind };
        return Ok(Asked::Request(Request { who, ask }));
    }
    match object_body(alloc, body)? {
        Ok(content) => Ok(put_content(who, room, kind, content)),
        Err(refused) => Ok(Asked::Refused(refused)),
    }
}

/// A put of an object under a type.
fn put_content(who: Who, room: Option<Text>, kind: Text, content: Json) -> Asked
    ensures asked { result ≡ content_put who room kind content }
    ensures sound { IsAsked result }
{
    if is_own_type(kind.as_str()) {
        return Asked::Refused(Refused::OwnType);
    }
    let ask = Ask::PutAccount {
        room,
        kind,
        content,
    };
    Asked::Request(Request { who, ask })
}

/// Whether clients don't put account data of the type.
fn is_own_type(kind: &str) -> bool
    ensures { result ≡ is_own_type kind.now }
{
    kind == "m.fully_read" || kind == "m.push_rules"
}

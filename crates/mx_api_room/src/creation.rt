//! A call that creates a room.
ghost use Rattle.std.specs.Prelude.{◌≡◌, IfOk};
ghost use Rattle.mx_api.specs.Calls.{IsAsked};
ghost use Rattle.mx_api_room.specs.Asked.{create_asked, creation_asked};

use mx_api::{Asked, Authenticated, Field, Refused, post_body};
use mx_ask::{Ask, Request, Who};
use mx_create::wrong_field;
use mx_ids::Memory;
use mx_json::Json;
use std::alloc::Global;

/// What a caller asks to create (Client-Server API, Creation).
#[tactic(auto, unfolding(crate::specs::Asked::create_asked))]
pub(crate) fn create(alloc: Global, call: Authenticated, body: &[u8]) -> Result<Asked, Memory>
    ensures asked { IfOk result (λ asked. asked ≡ create_asked call body.now) }
    ensures sound { IfOk result (λ asked. IsAsked asked) }
{
    match post_body(alloc, body)? {
        Ok(body) => Ok(creation(call.who, body)),
        Err(refused) => Ok(Asked::Refused(refused)),
    }
}

/// The creation that an object describes.
fn creation(who: Who, body: Json) -> Asked
    ensures asked { result ≡ creation_asked who body }
    ensures sound { IsAsked result }
{
    match wrong_field(&body) {
        Some(field) => Asked::Refused(Refused::BadShape(Field::Creation(field))),
        None => Asked::Request(Request {
            who,
            ask: Ask::CreateRoom { body },
        }),
    }
}

//! A page of a room's events.
ghost use Rattle.std.specs.Prelude.{◌≡◌, IfOk, codes, option_map};
ghost use Rattle.mx_http.specs.Queries.{parameter};
ghost use Rattle.mx_api.specs.Calls.{IsAsked};
ghost use Rattle.mx_api_reads.specs.Messages.{directed, filter_in, filter_of, messages_asked, page_asked};

use crate::page_query::{bound_at, first_bad, limit_in};
use mx_api::{Asked, Authenticated, Field, Parameter, Refused, json_value, room_of};
use mx_ask::{Ask, Request, Who};
use mx_filter::{Filter, FilterFault, everything, read_part};
use mx_http::parameter;
use mx_ids::{Memory, Text};
use mx_json::Json;
use std::alloc::Global;

/// A page of a room's events (Client-Server API, `GET /rooms/{roomId}/messages`).
#[tactic(auto, unfolding(crate::specs::Messages::messages_asked))]
pub(crate) fn messages(alloc: Global, call: Authenticated) -> Result<Asked, Memory>
    ensures asked { IfOk result (λ asked. asked ≡ messages_asked call) }
    ensures sound { IfOk result (λ asked. IsAsked asked) }
{
    let query = call.query;
    match room_of(call.parts) {
        Some(room) => page_of(alloc, call.who, room, query.as_slice()),
        None => Ok(Asked::Refused(Refused::BadPath)),
    }
}

/// The page of a room that a query asks for.
fn page_of(alloc: Global, who: Who, room: Text, query: &[(Text, Text)]) -> Result<Asked, Memory>
    ensures asked { IfOk result (λ asked. asked ≡ directed who room query.now (parameter (codes "dir") query.now)) }
    ensures sound { IfOk result (λ asked. IsAsked asked) }
{
    let Some(dir) = parameter(query, "dir") else {
        return Ok(Asked::Refused(Refused::MissingParameter(Parameter::Dir)));
    };
    if let Some(bad) = first_bad(query) {
        return Ok(Asked::Refused(Refused::BadParameter(bad)));
    }
    match filter_of(alloc, parameter(query, "filter"))? {
        Ok(filter) => Ok(page(who, room, dir.as_str(), query, filter)),
        Err(refused) => Ok(Asked::Refused(refused)),
    }
}

/// The page in a direction, of what a filter lets pass.
fn page(who: Who, room: Text, dir: &str, query: &[(Text, Text)], filter: Filter) -> Asked
    ensures asked { result ≡ page_asked who room dir.now query.now filter }
    ensures sound { IsAsked result }
{
    let ask = Ask::Messages {
        room,
        backward: dir == "b",
        from: bound_at(query, "from"),
        to: bound_at(query, "to"),
        limit: limit_in(query),
        filter,
    };
    Asked::Request(Request { who, ask })
}

/// The filter of a query; without one all passes.
#[tactic(auto, unfolding(crate::specs::Messages::filter_of))]
fn filter_of(alloc: Global, value: Option<&Text>) -> Result<Result<Filter, Refused>, Memory>
    ensures { IfOk result (λ filter. filter ≡ filter_of (option_map (λ v. v.now) value.entry)) }
{
    let Some(text) = value else {
        return Ok(Ok(everything(alloc)?));
    };
    match json_value(alloc, text.as_str().as_bytes())? {
        Ok(json) => filter_in(alloc, &json),
        Err(refused) => Ok(Err(refused)),
    }
}

/// The filter that a value describes.
fn filter_in(alloc: Global, json: &Json) -> Result<Result<Filter, Refused>, Memory>
    ensures { IfOk result (λ filter. filter ≡ filter_in json.now) }
{
    match read_part(alloc, json) {
        Ok(filter) => Ok(Ok(filter)),
        Err(FilterFault::Shape(path)) => Ok(Err(Refused::BadShape(Field::Path(path)))),
        Err(FilterFault::Format) => Ok(Err(Refused::EventFormat)),
        Err(FilterFault::Memory(refused)) => Err(refused),
    }
}

//! The filter of a sync, and stored filters.
ghost use Rattle.std.specs.Prelude.{◌≡◌, IfOk, option_map};
ghost use Rattle.std.specs.Result.{result_err};
ghost use Rattle.mx_api.specs.Calls.{IsAsked};
ghost use Rattle.mx_api_user.specs.Filters.{filter_asked, filter_put, get_filter_asked, inline_in, put_filter_asked};

use crate::parts::is_caller;
use mx_api::{
    Asked, Authenticated, Field, Refused, begins_object, json_value, post_body, three_parts,
    two_parts,
};
use mx_ask::{Ask, FilterAsk, Request, Who};
use mx_filter::{FilterFault, read};
use mx_ids::{Copied, Memory, Text};
use mx_json::Json;
use std::alloc::Global;

/// What the parameter `filter` of a sync asks (Client-Server API, Filtering): a text that begins with `{` is the filter
/// itself, and another one, of digits, the id of a stored filter. The first refusal that applies to a filter: those of `json_value`,
/// `BadShape` with the path of its first field that is of the wrong type, and
/// `EventFormat` where it asks for the format of federation.
#[tactic(auto, unfolding(crate::specs::Filters::filter_asked))]
pub(crate) fn filter_asked(
    alloc: Global,
    value: Option<&Text>,
) -> Result<Result<FilterAsk, Refused>, Memory>
    ensures { IfOk result (λ filter. filter ≡ filter_asked (option_map (λ v. v.now) value.entry)) }
{
    let Some(text) = value else {
        return Ok(Ok(FilterAsk::Absent));
    };
    if !begins_object(text.as_str().as_bytes()) {
        return Ok(Ok(FilterAsk::Stored(text.copy(alloc)?)));
    }
    match json_value(alloc, text.as_str().as_bytes())? {
        Ok(json) => inline_filter(alloc, &json),
        Err(refused) => Ok(Err(refused)),
    }
}

/// The filter that a value describes.
fn inline_filter(alloc: Global, json: &Json) -> Result<Result<FilterAsk, Refused>, Memory>
    ensures { IfOk result (λ filter. filter ≡ inline_in json.now) }
{
    match read(alloc, json) {
        Ok(filter) => Ok(Ok(FilterAsk::Inline(filter))),
        Err(FilterFault::Shape(path)) => Ok(Err(Refused::BadShape(Field::Path(path)))),
        Err(FilterFault::Format) => Ok(Err(Refused::EventFormat)),
        Err(FilterFault::Memory(refused)) => Err(refused),
    }
}

/// To store a filter (Client-Server API, Filtering), as it is given. The first refusal that applies: those of `post_body`, and
/// then `BadShape` and `EventFormat` as `filter_asked` gives them.
#[tactic(auto, unfolding(crate::specs::Filters::put_filter_asked))]
pub(crate) fn put_filter(alloc: Global, call: Authenticated, body: &[u8]) -> Result<Asked, Memory>
    ensures asked { IfOk result (λ asked. asked ≡ put_filter_asked call body.now) }
    ensures sound { IfOk result (λ asked. IsAsked asked) }
{
    let who = call.who;
    let Some((user, _)) = two_parts(call.parts) else {
        return Ok(Asked::Refused(Refused::BadPath));
    };
    if !is_caller(&who, &user) {
        return Ok(Asked::Refused(Refused::NotCaller));
    }
    match post_body(alloc, body)? {
        Ok(filter) => filter_put(alloc, who, filter),
        Err(refused) => Ok(Asked::Refused(refused)),
    }
}

/// A put of a filter.
fn filter_put(alloc: Global, who: Who, filter: Json) -> Result<Asked, Memory>
    ensures asked { IfOk result (λ asked. asked ≡ filter_put who filter) }
    ensures sound { IfOk result (λ asked. IsAsked asked) }
{
    match refusal_of(alloc, &filter) {
        Ok(None) => {
            let ask = Ask::PutFilter { filter };
            Ok(Asked::Request(Request { who, ask }))
        }
        Ok(Some(refused)) => {
            drop(who);
            drop(filter);
            Ok(Asked::Refused(refused))
        }
        Err(memory) => {
            drop(who);
            drop(filter);
            Err(memory)
        }
    }
}

/// Why a value doesn't describe a filter, if it doesn't.
fn refusal_of(alloc: Global, json: &Json) -> Result<Option<Refused>, Memory>
    ensures { IfOk result (λ refused. refused ≡ result_err (inline_in json.now)) }
{
    match inline_filter(alloc, json)? {
        Ok(filter) => {
            drop(filter);
            Ok(None)
        }
        Err(refused) => Ok(Some(refused)),
    }
}

/// To read a stored filter (Client-Server API, Filtering).
pub(crate) fn get_filter(call: Authenticated) -> Asked
    ensures asked { result ≡ get_filter_asked call }
    ensures sound { IsAsked result }
{
    let who = call.who;
    let Some((user, _, id)) = three_parts(call.parts) else {
        return Asked::Refused(Refused::BadPath);
    };
    if !is_caller(&who, &user) {
        return Asked::Refused(Refused::NotCaller);
    }
    let ask = Ask::GetFilter { id };
    Asked::Request(Request { who, ask })
}

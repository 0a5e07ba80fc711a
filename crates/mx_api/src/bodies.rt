//! The body of a call as an object.
ghost use Rattle.std.specs.Prelude.{◌≡◌, IfOk};
ghost use Rattle.mx_json.specs.Fields.{text_at};
ghost use Rattle.mx_api.specs.Bodies.{json_of, object_in, object_of, posted, shallow_in};

use crate::depth::nests_within;
use crate::refused::{Field, Refused};
use mx_create::BodyField;
use mx_ids::{Copied, Memory, Text};
use mx_json::{Json, JsonFault, Members, read};
use std::alloc::Global;

/// The object that a body is. The first refusal that applies: those of `json_value`, and `BadShape` where the value is no
/// object.
#[tactic(auto, unfolding(crate::specs::Bodies::object_of))]
pub fn object_body(alloc: Global, body: &[u8]) -> Result<Result<Json, Refused>, Memory>
    ensures { IfOk result (λ r. r ≡ object_of body.now) }
{
    match json_value(alloc, body)? {
        Ok(json) => Ok(object(json)),
        Err(refused) => Ok(Err(refused)),
    }
}

/// How many levels the value of a body, or of a filter in a query, may nest.
const MOST_LEVELS: u8 = 100;

/// The value that a text is: that of a body, or of a filter in a query. The first refusal that applies: `NotJson`,
/// `Fraction` or `IntegerRange` as `mx_json::read` gives them, and `TooDeep` where it nests more than 100 levels.
#[tactic(auto, unfolding(crate::specs::Bodies::json_of))]
pub fn json_value(alloc: Global, bytes: &[u8]) -> Result<Result<Json, Refused>, Memory>
    ensures { IfOk result (λ r. r ≡ json_of bytes.now) }
{
    match read(alloc, bytes) {
        Ok(json) => Ok(shallow(json)),
        Err(JsonFault::NotJson) => Ok(Err(Refused::NotJson)),
        Err(JsonFault::Fraction) => Ok(Err(Refused::Fraction)),
        Err(JsonFault::IntegerRange) => Ok(Err(Refused::IntegerRange)),
        Err(JsonFault::Memory(refused)) => Err(refused),
    }
}

/// The value, if it nests at most 100 levels.
fn shallow(json: Json) -> Result<Json, Refused>
    ensures { result ≡ shallow_in json }
{
    if nests_within(&json, MOST_LEVELS) {
        Ok(json)
    } else {
        Err(Refused::TooDeep)
    }
}

/// The same for the body of a `POST`, where the empty body counts as the empty object.
pub fn post_body(alloc: Global, body: &[u8]) -> Result<Result<Json, Refused>, Memory>
    ensures { IfOk result (λ r. r ≡ posted body.now) }
{
    if body.is_empty() {
        return Ok(Ok(Json::Object(Members::new(alloc))));
    }
    object_body(alloc, body)
}

/// The value, if it is an object.
fn object(json: Json) -> Result<Json, Refused>
    ensures { result ≡ object_in json }
{
    if json.as_object().is_some() {
        Ok(json)
    } else {
        Err(Refused::BadShape(Field::Creation(BodyField::Body)))
    }
}

/// The text at a key of an object, if a text stands there.
pub fn text_field(alloc: Global, object: &Json, key: &str) -> Result<Option<Text>, Memory>
    ensures { IfOk result (λ found. found ≡ text_at key.now object.now) }
{
    match object.text_at(key) {
        Some(found) => Ok(Some(found.copy(alloc)?)),
        None => Ok(None),
    }
}

//! Reading a text.
ghost use Rattle.std.specs.Prelude.{◌≡◌, ◌≢◌, [], ◌∷◌, ◌++◌, true, IfOk, IfErr, OnOk, Ok, Err};
ghost use Rattle.std.specs.String.{string_bytes};
ghost use Rattle.serde_json.specs.View.{view, number_view, items_view, members_view};
ghost use Rattle.serde_json.specs.Find.{as_i64};
ghost use Rattle.mx_ids.specs.Memory.{refused_memory};
ghost use Rattle.mx_json.specs.declared.fault.JsonFault.TheVariants as faults;
ghost use Rattle.mx_json.specs.declared.value.Json as json;
ghost use Rattle.mx_json.specs.Keys.{keys_of, are_ordered};
ghost use Rattle.mx_json.specs.Values.{whole, json_of, jsons_of, members_of_data};
ghost use Rattle.mx_json.specs.Reading.{checked, read_json};

use crate::copied::push_made;
use crate::fault::JsonFault;
use crate::members::Members;
use crate::numbers::{Flaw, is_flawed};
use crate::value::Json;
use mx_ids::{Memory, Seq, Text};
use serde_json::{Map, Number, Value};
use std::alloc::{AllocError, Global};

/// The value that a text is (RFC 8259; Appendices, Canonical JSON), as `read_json` of specs/Reading says.
///
/// `NotJson` where the bytes aren't UTF-8 or no JSON text, nest more than 127 deep, or hold a number beyond the finite
/// floats or half of a surrogate pair. Else `Fraction` where a number isn't held as a whole number: it has a point or an
/// exponent, is `-0`, or is out of 64 bits. Else `IntegerRange` where a whole number lies outside plus or minus
/// 9,007,199,254,740,991. Of equal keys the last counts, and the values of the others are not judged. `Memory` comes
/// only where the allocator refuses.
pub fn read(alloc: Global, bytes: &[u8]) -> Result<Json, JsonFault>
    ensures found { IfOk result (λ j. read_json bytes.now ≡ Ok j) }
    ensures refused { IfErr result (λ f. f ≢ faults.Memory refused_memory → read_json bytes.now ≡ Err f) }
{
    match Value::from_slice(alloc, bytes) {
        Ok(value) => check(alloc, value),
        Err(error) => {
            if error.is_memory() {
                Err(JsonFault::Memory(AllocError.into()))
            } else {
                Err(JsonFault::NotJson)
            }
        }
    }
}

fn check(alloc: Global, value: Value) -> Result<Json, JsonFault>
    ensures found { IfOk result (λ j. checked (view value) ≡ Ok j) }
    ensures refused { IfErr result (λ f. f ≢ faults.Memory refused_memory → checked (view value) ≡ Err f) }
{
    if is_flawed(&value, Flaw::Fraction) {
        return Err(JsonFault::Fraction);
    }
    if is_flawed(&value, Flaw::Range) {
        return Err(JsonFault::IntegerRange);
    }
    Ok(json_from(alloc, value)?)
}

/// The value, whose texts are moved.
#[cycle(from)]
fn json_from(alloc: Global, value: Value) -> Result<Json, Memory>
    ensures { IfOk result (λ j. j ≡ json_of (view value)) }
{
    match value {
        Value::Null => Ok(Json::Null),
        Value::Bool(b) => Ok(Json::Bool(b)),
        Value::Number(number) => Ok(number_from(number)),
        Value::String(text) => Ok(Json::Text(Text::from_string(text))),
        Value::Array(items) => list_from(alloc, items),
        Value::Object(members) => members_from(alloc, members),
    }
}

#[cycle(from)]
fn list_from(alloc: Global, items: Vec<Value>) -> Result<Json, Memory>
    ensures { IfOk result (λ j. j ≡ json.List (jsons_of (items_view items.items))) }
{
    let mut list = Vec::with_capacity(alloc, items.len())?;
    for item in items {
        push_made(&mut list, json_from(alloc, item))?;
    }
    Ok(Json::List(Seq::from_vec(list)))
}

#[cycle(from)]
fn members_from(alloc: Global, entries: Map<String, Value>) -> Result<Json, Memory>
    ensures { IfOk result (λ j. j ≡ json.Object (members_of_data (members_view entries.entries))) }
{
    let mut members = Members::new(alloc);
    for (key, value) in entries {
        push_member(&mut members, key, json_from(alloc, value))?;
    }
    Ok(Json::Object(members))
}

/// Puts a member at the end, where its value was made. Its key is above all keys there are.
fn push_member(
    members: &mut Members<Json>,
    key: String,
    made: Result<Json, Memory>,
) -> Result<(), Memory>
    requires { are_ordered (keys_of members.old ++ string_bytes key ∷ []) ≡ true }
    ensures { (value : json.Json) → IfOk made (λ v. v ≡ value) → OnOk result (members.new ≡ members.old ++ record { key = string_bytes key; value = value } ∷ []) }
{
    members.push(Text::from_string(key), made?)
}

fn number_from(number: Number) -> Json
    ensures { result ≡ whole (as_i64 (number_view number)) }
{
    match number.as_i64() {
        Some(n) => Json::Int(n),
        None => Json::Null,
    }
}

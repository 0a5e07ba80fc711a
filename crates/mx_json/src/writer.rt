//! Writing a value as compact text.
ghost use Rattle.std.specs.Prelude.{◌≡◌, ◌≤◌, [], ◌∷◌, ◌++◌, map, Ok, IfOk, OnOk, OnErr};
ghost use Rattle.serde_json.specs.Data.{Data, array, depth, object, put};
ghost use Rattle.serde_json.specs.Read.{max_depth};
ghost use Rattle.serde_json.specs.View.{view, members_view};
ghost use Rattle.mx_json.specs.Values.{data_of, items_data, members_data};
ghost use Rattle.mx_json.specs.Laws.{IsInRange};
ghost use Rattle.mx_json.specs.Reading.{read_json};
ghost use Rattle.mx_json.specs.Texts.{json_text};

use crate::members::Members;
use crate::value::Json;
use mx_ids::{Memory, Seq, Text};
use serde_json::{Map, Number, Value};
use std::alloc::Global;

impl Json {
    /// Appends the compact text (RFC 8259, with no space between tokens): each key in byte order, whole numbers in
    /// decimal, and of the escapes only those that a text needs, the shortest. `Memory` leaves `out` as it was.
    ///
    /// The text of a value in range that nests at most 127 deep reads back as the value.
    pub fn write(&self, alloc: Global, out: &mut Text) -> Result<(), Memory>
        ensures ok { OnOk result (out.new ≡ out.old ++ json_text self.now) }
        ensures same { OnErr result (out.new ≡ out.old) }
        ensures reads_back { OnOk result (IsInRange self.now → depth (data_of self.now) ≤ max_depth
            → read_json (json_text self.now) ≡ Ok self.now) }
    {
        let text = value_of(alloc, self)?.to_string(alloc)?;
        out.push_str(text.as_str())
    }
}

#[cycle(value_of)]
fn value_of(alloc: Global, json: &Json) -> Result<Value, Memory>
    ensures { IfOk result (λ v. view v ≡ data_of json.now) }
{
    match json {
        Json::Null => Ok(Value::Null),
        Json::Bool(b) => Ok(Value::Bool(*b)),
        Json::Int(n) => Ok(Value::Number(Number::from(*n))),
        Json::Text(text) => Ok(Value::String(String::from_str(alloc, text.as_str())?)),
        Json::List(items) => array_of(alloc, items),
        Json::Object(members) => object_of(alloc, members),
    }
}

#[cycle(value_of)]
fn array_of(alloc: Global, list: &Seq<Json>) -> Result<Value, Memory>
    ensures { IfOk result (λ v. view v ≡ array (items_data list.now)) }
{
    let mut values = Vec::with_capacity(alloc, list.len())?;
    for item in list.as_slice() {
        push_value(&mut values, value_of(alloc, item))?;
    }
    Ok(Value::Array(values))
}

#[cycle(value_of)]
fn object_of(alloc: Global, members: &Members<Json>) -> Result<Value, Memory>
    ensures { IfOk result (λ v. view v ≡ object (members_data members.now)) }
{
    let mut map = Map::new(alloc);
    for member in members.as_slice() {
        insert_value(alloc, &mut map, &member.key, value_of(alloc, &member.value))?;
    }
    Ok(Value::Object(map))
}

/// Puts a value at the end of a list, where it was made.
fn push_value(values: &mut Vec<Value>, made: Result<Value, Memory>) -> Result<(), Memory>
    ensures { (d : Data) → IfOk made (λ v. view v ≡ d) → OnOk result (map view values.new.items ≡ map view values.old.items ++ d ∷ []) }
{
    values.push(made?)?;
    Ok(())
}

/// Puts a value at a key, where it was made.
fn insert_value(
    alloc: Global,
    map: &mut Map<String, Value>,
    key: &Text,
    made: Result<Value, Memory>,
) -> Result<(), Memory>
    ensures { (d : Data) → IfOk made (λ v. view v ≡ d) → OnOk result (members_view map.new.entries ≡ put key.now d (members_view map.old.entries)) }
{
    let value = made?;
    let key = String::from_str(alloc, key.as_str())?;
    drop(map.insert(key, value)?);
    Ok(())
}

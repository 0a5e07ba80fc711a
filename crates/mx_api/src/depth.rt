//! How deep a value nests.
ghost use Rattle.std.specs.Prelude.{◌≡◌, nat_le};
ghost use Rattle.serde_json.specs.Data.{depth, array, object};
ghost use Rattle.mx_json.specs.Values.{items_data, members_data};
ghost use Rattle.mx_api.specs.Levels.{levels};

use mx_ids::Seq;
use mx_json::{Json, Members};

/// Whether a value nests at most so many levels. A list or an object has one level more than the deepest of its values, and any
/// other value has none. Takes no memory.
#[cycle(nesting)]
pub(crate) fn nests_within(json: &Json, most: u8) -> bool
    ensures { result ≡ nat_le (levels json.now) most }
{
    match json {
        Json::Null | Json::Bool(_) | Json::Int(_) | Json::Text(_) => true,
        Json::List(items) => list_within(items, most),
        Json::Object(members) => members_within(members, most),
    }
}

#[cycle(nesting)]
fn list_within(items: &Seq<Json>, most: u8) -> bool
    ensures { result ≡ nat_le (depth (array (items_data items.now))) most }
{
    if most == 0 {
        return false;
    }
    for item in items.as_slice() {
        if !nests_within(item, most - 1) {
            return false;
        }
    }
    true
}

#[cycle(nesting)]
fn members_within(members: &Members<Json>, most: u8) -> bool
    ensures { result ≡ nat_le (depth (object (members_data members.now))) most }
{
    if most == 0 {
        return false;
    }
    for member in members.as_slice() {
        if !nests_within(&member.value, most - 1) {
            return false;
        }
    }
    true
}

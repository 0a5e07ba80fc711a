//! Objects whose keys are known.

ghost use Rattle.std.specs.Prelude.{◌≡◌, ◌++◌, ◌∷◌, [], true, List, ℕ, IfOk, OnOk, codes};
ghost use Rattle.std.specs.Cmp.Lexicographic.{slice_cmp};
ghost use Rattle.std.specs.Ordering.{is_lt, nat_cmp};
ghost use Rattle.mx_event.specs.Forms.{member};
ghost use Rattle.mx_json.specs.Keys.{are_ordered, keys_of};
ghost use Rattle.mx_sync_json.specs.Objects.{events_form, single};

use mx_ids::{Memory, Seq, Text};
use mx_json::{Json, Members};
use std::alloc::Global;

/// Puts a member at the end, whose key is above all keys there are.
pub(crate) fn put(
    alloc: Global,
    members: &mut Members<Json>,
    key: &str,
    value: Json,
) -> Result<(), Memory>
    requires { are_ordered (keys_of members.old ++ key.now ∷ []) ≡ true }
    ensures put { OnOk result (members.new ≡ members.old ++ member key.now value ∷ []) }
    ensures next { OnOk result ((k : List ℕ) → is_lt (slice_cmp nat_cmp key.now k) ≡ true → are_ordered (keys_of members.new ++ k ∷ []) ≡ true) }
{
    let key = Text::from_string(String::from_str(alloc, key)?);
    members.push(key, value)
}

/// An object of one member.
pub(crate) fn single(alloc: Global, key: &str, value: Json) -> Result<Json, Memory>
    ensures { IfOk result (λ j. j ≡ single key.now value) }
{
    let mut members = Members::new(alloc);
    put(alloc, &mut members, key, value)?;
    Ok(Json::Object(members))
}

/// An object with a list of events.
pub(crate) fn events_form(alloc: Global, events: Vec<Json>) -> Result<Json, Memory>
    ensures { IfOk result (λ j. j ≡ events_form events.items) }
{
    single(alloc, "events", Json::List(Seq::from_vec(events)))
}

//! Account data.

ghost use Rattle.std.specs.Prelude.{◌≡◌, [], map, IfOk, OnOk};
ghost use Rattle.mx_json.specs.declared.value.Json.TheVariants as json;
ghost use Rattle.mx_sync_json.specs.Objects as form;

use crate::members::{events_form, put};
use mx_ids::{Copied, Memory, Seq, Text};
use mx_json::{Json, Members};
use std::alloc::Global;

/// Account data as events (Client-Server API, Client Config).
pub(crate) fn account_form(alloc: Global, entries: &Seq<(Text, Json)>) -> Result<Json, Memory>
    ensures { IfOk result (λ j. j ≡ form.account_form entries.now) }
{
    let mut made = Vec::with_capacity(alloc, entries.len())?;
    'entries: for entry in entries.as_slice() {
        made.push(pair_form(alloc, &entry.0, &entry.1)?)?;
    }
    events_form(alloc, made)
}

fn pair_form(alloc: Global, kind: &Text, content: &Json) -> Result<Json, Memory>
    ensures { IfOk result (λ j. j ≡ form.data_form kind.now content.now) }
{
    let content = content.copy(alloc)?;
    data_form(alloc, kind.as_str(), content)
}

/// Data of a type, as they stand among events.
pub(crate) fn data_form(alloc: Global, kind: &str, content: Json) -> Result<Json, Memory>
    ensures { IfOk result (λ j. j ≡ form.data_form kind.now content) }
{
    let mut members = Members::new(alloc);
    put_data(alloc, &mut members, kind, content)?;
    Ok(Json::Object(members))
}

/// Puts the members of data of a type into an object that has none.
fn put_data(
    alloc: Global,
    members: &mut Members<Json>,
    kind: &str,
    content: Json,
) -> Result<(), Memory>
    requires { members.old ≡ [] }
    ensures { OnOk result (json.Object members.new ≡ form.data_form kind.now content) }
{
    put(alloc, members, "content", content)?;
    let kind = Text::from_string(String::from_str(alloc, kind)?);
    put(alloc, members, "type", Json::Text(kind))?;
    Ok(())
}

//! Members that come in any order of their keys.

ghost use Rattle.std.specs.Prelude.{◌≡◌, IfOk, OnOk};
ghost use Rattle.mx_json.specs.Keys.{with_member};
ghost use Rattle.mx_sync_json.specs.Keyed.{members_in};

use mx_ids::{Memory, Text};
use mx_json::{Json, Members};
use std::alloc::Global;
use std::collections::BTreeMap;

/// Sets the value at a key. Takes the time of a search.
pub(crate) fn set_keyed(
    keyed: &mut BTreeMap<Text, Json>,
    key: Text,
    value: Json,
) -> Result<(), Memory>
    ensures { OnOk result (members_in keyed.new.entries ≡ with_member key value (members_in keyed.old.entries)) }
{
    drop(keyed.insert(key, value)?);
    Ok(())
}

/// The members of an object, each put at the end.
pub(crate) fn members_of(
    alloc: Global,
    keyed: BTreeMap<Text, Json>,
) -> Result<Members<Json>, Memory>
    ensures { IfOk result (λ ms. ms ≡ members_in keyed.entries) }
{
    let mut members = Members::new(alloc);
    'members: for (key, value) in keyed {
        members.push(key, value)?;
    }
    Ok(members)
}

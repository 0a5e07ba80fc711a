//! The texts of stores, as far as their first positions.

ghost use Rattle.std.specs.Prelude.{◌≡◌, [], ◌∷◌, ◌++◌, map, IfOk, OnOk};
ghost use Rattle.mx_json.specs.declared.value.Json as json;
ghost use Rattle.mx_records.specs.Texts.{front_text, head_text, stream_text};

use crate::fault::RecordFault;
use crate::recorded::Recorded;
use mx_ids::{Memory, Seq, Text};
use mx_json::Json;
use mx_wait::StreamName;
use std::alloc::Global;

/// What the text of each store of a stream begins with.
pub fn stream_text(stream: StreamName) -> &'static str
    ensures { result.now ≡ stream_text stream }
{
    match stream {
        StreamName::Events => "events",
        StreamName::Receipts => "receipts",
        StreamName::Accounts => "accounts",
    }
}

/// Puts the text of a store behind other text, as far as its first position, whose digits and a `]` then end it.
pub fn put_front<I: Recorded>(
    alloc: Global,
    text: &mut Text,
    name: &str,
    writer: u8,
    items: &Seq<I>,
) -> Result<(), RecordFault>
    ensures { OnOk result (text.new ≡ text.old ++ front_text I.value name.now writer items.now) }
{
    let items = items_value(alloc, items)?;
    put_head(alloc, text, name, writer)?;
    items.write(alloc, text)?;
    text.push_str(",")?;
    Ok(())
}

/// The values of items, as a list.
fn items_value<I: Recorded>(alloc: Global, items: &Seq<I>) -> Result<Json, RecordFault>
    ensures { IfOk result (λ j. j ≡ json.List (map I.value items.now)) }
{
    let mut values = Seq::new(alloc);
    'items: for item in items.as_slice() {
        values.push(item.to_value(alloc)?)?;
    }
    Ok(Json::List(values))
}

/// Puts the name of a stream and a writer's number behind other text.
fn put_head(alloc: Global, text: &mut Text, name: &str, writer: u8) -> Result<(), Memory>
    ensures { OnOk result (text.new ≡ text.old ++ head_text name.now writer) }
{
    let mut own = Text::new(alloc);
    own.push_str(name)?;
    let name = Json::Text(own);
    text.push_str("[")?;
    name.write(alloc, text)?;
    text.push_str(",")?;
    Json::Int(i64::from(writer)).write(alloc, text)?;
    text.push_str(",")
}

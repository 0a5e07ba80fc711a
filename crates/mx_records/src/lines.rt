//! Stores as they are read of values.

ghost use Rattle.std.specs.Prelude.{◌≡◌, IfOk, IfSome, Some};
ghost use Rattle.mx_records.specs.Records.{line_by, line_read};
ghost use Rattle.mx_records.specs.Values.{each};

use crate::recorded::Recorded;
use crate::values::number_of;
use mx_ids::{Memory, Seq};
use mx_json::Json;
use std::alloc::Global;

/// A store of a writer, with what was read of its items.
#[derive(Drop)]
pub struct Line<R> {
    pub writer: u8,
    pub items: Seq<R>,
    pub first: u64,
}

/// The store that a value says, of a stream of this name; `None` where it says none.
pub fn read_line<I: Recorded>(
    alloc: Global,
    name: &str,
    json: &Json,
) -> Result<Option<Line<I::Read>>, Memory>
    ensures { IfOk result (λ o. IfSome o (λ l. line_read I.read json.now ≡ Some (record { name = name.now; writer = l.writer; items = l.items; first = l.first }))) }
{
    let Some(seen) = seen_line::<I>(name, json) else {
        return Ok(None);
    };
    let Some(items) = read_items::<I>(alloc, seen.items)? else {
        return Ok(None);
    };
    Ok(Some(Line {
        writer: seen.writer,
        items,
        first: seen.first,
    }))
}

/// The parts of a store in their places; its items aren't read yet.
#[derive(Clone, Copy)]
struct SeenLine<'a> {
    writer: u8,
    items: &'a Seq<Json>,
    first: u64,
}

/// The parts of the store that a value says, where its name is this one and its writer below 256.
fn seen_line<'a, I: Recorded>(name: &str, json: &'a Json) -> Option<SeenLine<'a>>
    ensures { IfSome result (λ s. line_read I.read json.now ≡ line_by (Some name.now) (Some s.writer) (each I.read s.items.now) (Some s.first)) }
{
    let [found, writer, items, first] = json.as_list()?.as_slice() else {
        return None;
    };
    let (((found, writer), items), first) = found
        .as_text()
        .zip(number_of(writer))
        .zip(items.as_list())
        .zip(number_of(first))?;
    if found.as_str() != name || writer > 255 {
        return None;
    }
    Some(SeenLine {
        writer: writer as u8,
        items,
        first,
    })
}

/// What is read of each value; `None` where one says nothing.
fn read_items<I: Recorded>(
    alloc: Global,
    values: &Seq<Json>,
) -> Result<Option<Seq<I::Read>>, Memory>
    ensures { IfOk result (λ o. IfSome o (λ items. each I.read values.now ≡ Some items)) }
{
    let mut items = Seq::new(alloc);
    'values: for value in values.as_slice() {
        match I::read_value(alloc, value)? {
            Some(item) => items.push(item)?,
            None => return Ok(None),
        }
    }
    Ok(Some(items))
}

//! Which field of a filter is of the wrong type.
ghost use Rattle.std.specs.Prelude.{◌≡◌, ◌++◌, [], Some, None, option_and_then, codes, IfOk, option_map, Err};
ghost use Rattle.std.specs.List.{list_all};
ghost use Rattle.mx_json.specs.Fields.{field, list_of, text_of};
ghost use Rattle.mx_filter.specs.Fields.{are_texts, data_fields, event_fields, has_form, is_count, is_federation, is_format, is_right, is_text_value, key_of, prefix_of, room_fields, top_fields, wrong_field, wrong_filter, wrong_in_object, wrong_members, wrong_page_filter, wrong_part, wrong_room};
ghost use Rattle.mx_filter.specs.Judging.{Judges};
ghost use Rattle.mx_filter.specs.declared.field.Place.TheVariants as places;

use crate::fault::FilterFault;
use crate::field::{Field, Form, Place};
use mx_ids::{Memory, Text};
use mx_json::Json;
use std::alloc::Global;

/// The fields of a filter of account data, in byte order.
const DATA_FIELDS: [Field; 5] = [
    Field::Limit,
    Field::NotSenders,
    Field::NotTypes,
    Field::Senders,
    Field::Types,
];

/// The fields of a filter of a room's events, in byte order.
const EVENT_FIELDS: [Field; 10] = [
    Field::ContainsUrl,
    Field::IncludeRedundantMembers,
    Field::LazyLoadMembers,
    Field::Limit,
    Field::NotRooms,
    Field::NotSenders,
    Field::NotTypes,
    Field::Rooms,
    Field::Senders,
    Field::Types,
];

const TOP_FIELDS: [Field; 2] = [Field::EventFields, Field::EventFormat];

const ROOM_FIELDS: [Field; 3] = [Field::IncludeLeave, Field::NotRooms, Field::Rooms];

/// Whether the fields of a sync's filter are of their types: `Shape` with the path of the first that isn't.
pub(crate) fn check_filter(alloc: Global, json: &Json) -> Result<(), FilterFault>
    ensures { Judges result (wrong_filter json.now) }
{
    if json.as_object().is_none() {
        return Err(shape(alloc, Place::Top.path(), "")?);
    }
    check_part(
        alloc,
        Place::AccountData,
        DATA_FIELDS.as_slice(),
        json.field("account_data"),
    )?;
    check_fields(alloc, Place::Top, TOP_FIELDS.as_slice(), json)?;
    check_room(alloc, json.field("room"))
}

/// The same of a page's filter.
pub(crate) fn check_page_filter(alloc: Global, json: &Json) -> Result<(), FilterFault>
    ensures { Judges result (wrong_page_filter json.now) }
{
    check_part(alloc, Place::Top, EVENT_FIELDS.as_slice(), Some(json))
}

fn check_room(alloc: Global, room: Option<&Json>) -> Result<(), FilterFault>
    ensures { Judges result (wrong_room (option_map (λ r. r.now) room.entry)) }
{
    let Some(room) = room else {
        return Ok(());
    };
    if room.as_object().is_none() {
        return Err(shape(alloc, Place::Room.path(), "")?);
    }
    check_members(alloc, room)
}

fn check_members(alloc: Global, room: &Json) -> Result<(), FilterFault>
    ensures { Judges result (wrong_members room.now) }
{
    let fields = EVENT_FIELDS.as_slice();
    check_part(
        alloc,
        Place::RoomAccountData,
        fields,
        room.field("account_data"),
    )?;
    check_part(alloc, Place::RoomEphemeral, fields, room.field("ephemeral"))?;
    check_fields(alloc, Place::Room, ROOM_FIELDS.as_slice(), room)?;
    check_part(alloc, Place::RoomState, fields, room.field("state"))?;
    check_part(alloc, Place::RoomTimeline, fields, room.field("timeline"))
}

fn check_part(
    alloc: Global,
    place: Place,
    fields: &[Field],
    part: Option<&Json>,
) -> Result<(), FilterFault>
    ensures { Judges result (wrong_part place fields.now (option_map (λ p. p.now) part.entry)) }
{
    let Some(part) = part else {
        return Ok(());
    };
    if part.as_object().is_none() {
        return Err(shape(alloc, place.path(), "")?);
    }
    check_fields(alloc, place, fields, part)
}

fn check_fields(
    alloc: Global,
    place: Place,
    fields: &[Field],
    part: &Json,
) -> Result<(), FilterFault>
    ensures { Judges result (wrong_field place fields.now part.now) }
{
    'fields: for field in fields {
        if !is_right(*field, part) {
            return Err(shape(alloc, place.prefix(), field.key())?);
        }
    }
    Ok(())
}

/// The fault of a field of the wrong type, by its path.
fn shape(alloc: Global, prefix: &str, key: &str) -> Result<FilterFault, Memory>
    ensures { IfOk result (λ e. Judges (Err e) (Some (prefix.now ++ key.now))) }
{
    let mut path = Text::new(alloc);
    path.push_str(prefix)?;
    path.push_str(key)?;
    Ok(FilterFault::Shape(path))
}

/// Whether a field is of its type, if it is there.
fn is_right(field: Field, part: &Json) -> bool
    ensures { result ≡ is_right field part.now }
{
    match part.field(field.key()) {
        Some(value) => has_form(field.form(), value),
        None => true,
    }
}

fn has_form(form: Form, value: &Json) -> bool
    ensures { result ≡ has_form form value.now }
{
    match form {
        Form::Texts => are_texts(value),
        Form::Count => is_count(value.as_int()),
        Form::Truth => value.as_bool().is_some(),
        Form::EventFormat => is_format(value),
    }
}

fn are_texts(value: &Json) -> bool
    ensures { result ≡ are_texts (list_of value.now) }
{
    match value.as_list() {
        Some(items) => all_texts(items.as_slice()),
        None => false,
    }
}

fn all_texts(items: &[Json]) -> bool
    ensures { result ≡ list_all is_text_value items.now }
{
    items.iter().all(|item| item.as_text().is_some())
}

fn is_count(number: Option<i64>) -> bool
    ensures { result ≡ is_count number }
{
    match number {
        Some(number) => number >= 0,
        None => false,
    }
}

fn is_format(value: &Json) -> bool
    ensures { result ≡ is_format (text_of value.now) }
{
    match value.as_text() {
        Some(text) => text.as_str() == "client" || text.as_str() == "federation",
        None => false,
    }
}

/// Whether events are asked for in the format of federation.
pub(crate) fn is_federation(json: &Json) -> bool
    ensures { result ≡ is_federation json.now }
{
    match json.text_at("event_format") {
        Some(text) => text.as_str() == "federation",
        None => false,
    }
}

//! Filters as they are read, and what passes.
use crate::make::{at, bool_in, json, list, str_in, text_in, user_in};
use mx_event::Event;
use mx_filter::{DataPart, Filter, FilterFault, Part, everything, read, read_part};
use mx_ids::{EventId, RoomId};
use mx_json::Json;
use std::alloc::Global;
use std::mem;
use std::process::Abort;

/// The id of a room, as text.
const ROOM: &str = "!0-1:example.org";

/// The path of the field for which a filter is refused, `format` for its format, or nothing.
fn refusal_is(fault: Option<FilterFault>, path: &str) -> bool {
    match fault {
        Some(FilterFault::Shape(found)) => found.as_str() == path,
        Some(FilterFault::Format) => path == "format",
        Some(FilterFault::Memory(_)) => false,
        None => path == "",
    }
}

/// Whether a filter is refused for the field that its row names, or read where the row names none.
fn is_refused(rt: &impl Abort, alloc: Global, row: &Json) -> bool {
    refusal_is(read(alloc, at(rt, row, 0)).err(), str_in(rt, row, 1))
}

/// Asserts of the filter of each row for which field it is refused.
fn expect_refusals(rt: &impl Abort, alloc: Global, rows: &str) {
    let rows = json(rt, alloc, rows);
    for row in list(rt, &rows) {
        assert!(rt; is_refused(rt, alloc, row));
    }
}

#[test]
fn the_first_wrong_field_in_the_order_of_paths_is_named(rt: HostRuntime) {
    let rows = r#"[
        [{}, ""],
        [[], "body"],
        [{"room":{},"unknown":1,"event_format":"client","event_fields":["a"]}, ""],
        [{"event_format":"federation"}, "format"],
        [{"event_format":"other"}, "event_format"],
        [{"event_format":"federation","room":1}, "room"],
        [{"event_fields":[1],"room":1,"account_data":[]}, "account_data"],
        [{"event_fields":[1],"room":1,"account_data":{"types":"a"}}, "account_data.types"],
        [{"event_fields":[1],"room":1,"account_data":{"rooms":"a"}}, "event_fields"],
        [{"room":{"timeline":{"limit":-1,"lazy_load_members":1}}}, "room.timeline.lazy_load_members"],
        [{"room":{"timeline":{"limit":-1}}}, "room.timeline.limit"],
        [{"room":{"timeline":{"limit":0},"state":{"senders":["a",1]},"rooms":1}}, "room.rooms"],
        [{"room":{"state":{"senders":["a",1]}}}, "room.state.senders"],
        [{"room":{"ephemeral":{"not_types":{}},"include_leave":"true"}}, "room.ephemeral.not_types"],
        [{"room":{"include_leave":"true","not_rooms":1}}, "room.include_leave"]
    ]"#;
    expect_refusals(&rt, rt.alloc(), rows);
}

#[test]
fn each_known_field_has_its_shape(rt: HostRuntime) {
    let rows = r#"[
        [{"account_data":{"not_senders":"a","limit":"1"}}, "account_data.limit"],
        [{"account_data":{"not_types":[1],"not_senders":"a"}}, "account_data.not_senders"],
        [{"account_data":{"senders":{},"not_types":[1]}}, "account_data.not_types"],
        [{"account_data":{"types":[null],"senders":{}}}, "account_data.senders"],
        [{"account_data":{"types":[null]}}, "account_data.types"],
        [{"event_format":1,"event_fields":{}}, "event_fields"],
        [{"room":[],"event_format":null}, "event_format"],
        [{"room":[]}, "room"],
        [{"room":{"ephemeral":1,"account_data":1}}, "room.account_data"],
        [{"room":{"include_leave":1,"ephemeral":1}}, "room.ephemeral"],
        [{"room":{"not_rooms":{},"include_leave":null}}, "room.include_leave"],
        [{"room":{"rooms":1,"not_rooms":[1]}}, "room.not_rooms"],
        [{"room":{"state":1,"rooms":[1]}}, "room.rooms"],
        [{"room":{"timeline":1,"state":1}}, "room.state"],
        [{"room":{"timeline":1}}, "room.timeline"],
        [{"room":{"account_data":{"include_redundant_members":"true","contains_url":1}}}, "room.account_data.contains_url"],
        [{"room":{"account_data":{"lazy_load_members":[],"include_redundant_members":"true"}}}, "room.account_data.include_redundant_members"],
        [{"room":{"account_data":{"limit":"1","lazy_load_members":[]}}}, "room.account_data.lazy_load_members"],
        [{"room":{"account_data":{"not_rooms":[[]],"limit":"1"}}}, "room.account_data.limit"],
        [{"room":{"account_data":{"not_senders":"a","not_rooms":[[]]}}}, "room.account_data.not_rooms"],
        [{"room":{"account_data":{"not_types":[1],"not_senders":"a"}}}, "room.account_data.not_senders"],
        [{"room":{"account_data":{"rooms":false,"not_types":[1]}}}, "room.account_data.not_types"],
        [{"room":{"account_data":{"senders":{},"rooms":false}}}, "room.account_data.rooms"],
        [{"room":{"account_data":{"types":[null],"senders":{}}}}, "room.account_data.senders"],
        [{"room":{"account_data":{"types":[null]}}}, "room.account_data.types"],
        [{"room":{"ephemeral":{"include_redundant_members":"true","contains_url":1}}}, "room.ephemeral.contains_url"],
        [{"room":{"ephemeral":{"lazy_load_members":[],"include_redundant_members":"true"}}}, "room.ephemeral.include_redundant_members"],
        [{"room":{"ephemeral":{"limit":"1","lazy_load_members":[]}}}, "room.ephemeral.lazy_load_members"],
        [{"room":{"ephemeral":{"not_rooms":[[]],"limit":"1"}}}, "room.ephemeral.limit"],
        [{"room":{"ephemeral":{"not_senders":"a","not_rooms":[[]]}}}, "room.ephemeral.not_rooms"],
        [{"room":{"ephemeral":{"not_types":[1],"not_senders":"a"}}}, "room.ephemeral.not_senders"],
        [{"room":{"ephemeral":{"rooms":false,"not_types":[1]}}}, "room.ephemeral.not_types"],
        [{"room":{"ephemeral":{"senders":{},"rooms":false}}}, "room.ephemeral.rooms"],
        [{"room":{"ephemeral":{"types":[null],"senders":{}}}}, "room.ephemeral.senders"],
        [{"room":{"ephemeral":{"types":[null]}}}, "room.ephemeral.types"],
        [{"room":{"state":{"include_redundant_members":"true","contains_url":1}}}, "room.state.contains_url"],
        [{"room":{"state":{"lazy_load_members":[],"include_redundant_members":"true"}}}, "room.state.include_redundant_members"],
        [{"room":{"state":{"limit":"1","lazy_load_members":[]}}}, "room.state.lazy_load_members"],
        [{"room":{"state":{"not_rooms":[[]],"limit":"1"}}}, "room.state.limit"],
        [{"room":{"state":{"not_senders":"a","not_rooms":[[]]}}}, "room.state.not_rooms"],
        [{"room":{"state":{"not_types":[1],"not_senders":"a"}}}, "room.state.not_senders"],
        [{"room":{"state":{"rooms":false,"not_types":[1]}}}, "room.state.not_types"],
        [{"room":{"state":{"senders":{},"rooms":false}}}, "room.state.rooms"],
        [{"room":{"state":{"types":[null],"senders":{}}}}, "room.state.senders"],
        [{"room":{"state":{"types":[null]}}}, "room.state.types"],
        [{"room":{"timeline":{"include_redundant_members":"true","contains_url":1}}}, "room.timeline.contains_url"],
        [{"room":{"timeline":{"lazy_load_members":[],"include_redundant_members":"true"}}}, "room.timeline.include_redundant_members"],
        [{"room":{"timeline":{"limit":"1","lazy_load_members":[]}}}, "room.timeline.lazy_load_members"],
        [{"room":{"timeline":{"not_rooms":[[]],"limit":"1"}}}, "room.timeline.limit"],
        [{"room":{"timeline":{"not_senders":"a","not_rooms":[[]]}}}, "room.timeline.not_rooms"],
        [{"room":{"timeline":{"not_types":[1],"not_senders":"a"}}}, "room.timeline.not_senders"],
        [{"room":{"timeline":{"rooms":false,"not_types":[1]}}}, "room.timeline.not_types"],
        [{"room":{"timeline":{"senders":{},"rooms":false}}}, "room.timeline.rooms"],
        [{"room":{"timeline":{"types":[null],"senders":{}}}}, "room.timeline.senders"],
        [{"room":{"timeline":{"types":[null]}}}, "room.timeline.types"]
    ]"#;
    expect_refusals(&rt, rt.alloc(), rows);
}

/// Whether the filter of a page is refused for the field that its row names, or read where the row names none.
fn is_part_refused(rt: &impl Abort, alloc: Global, row: &Json) -> bool {
    refusal_is(read_part(alloc, at(rt, row, 0)).err(), str_in(rt, row, 1))
}

#[test]
fn the_filter_of_a_page_is_one_of_events(rt: HostRuntime) {
    let rows = json(
        &rt,
        rt.alloc(),
        r#"[
        [{}, ""],
        [1, "body"],
        [{"room":1,"event_format":"federation"}, ""],
        [{"types":"a","contains_url":1}, "contains_url"],
        [{"include_redundant_members":"true","contains_url":1}, "contains_url"],
        [{"lazy_load_members":[],"include_redundant_members":"true"}, "include_redundant_members"],
        [{"limit":"1","lazy_load_members":[]}, "lazy_load_members"],
        [{"not_rooms":[[]],"limit":"1"}, "limit"],
        [{"not_senders":"a","not_rooms":[[]]}, "not_rooms"],
        [{"not_types":[1],"not_senders":"a"}, "not_senders"],
        [{"rooms":false,"not_types":[1]}, "not_types"],
        [{"senders":{},"rooms":false}, "rooms"],
        [{"types":[null],"senders":{}}, "senders"],
        [{"types":[null]}, "types"]
    ]"#,
    );
    for row in list(&rt, &rows) {
        assert!(&rt; is_part_refused(&rt, rt.alloc(), row));
    }
}

/// An event of a type and sender, with or without a key `url` in its content.
fn event(rt: &impl Abort, alloc: Global, row: &Json) -> Event {
    Event {
        id: EventId { at: 7 },
        room: RoomId { writer: 1, at: 2 },
        kind: text_in(rt, alloc, row, 2),
        state_key: None,
        sender: user_in(rt, alloc, row, 3),
        content: Json::Null,
        ts: 1000,
        txn: None,
        has_url: bool_in(rt, row, 4),
    }
}

/// Whether a filter lets an event of the part pass that a row names.
fn passes(rt: &impl Abort, filter: &Filter, event: &Event, row: &Json) -> bool {
    let part = match str_in(rt, row, 1) {
        "state" => Part::State,
        _ => Part::Timeline,
    };
    filter.passes(part, ROOM, event)
}

/// Whether the event of a row passes where the row says so.
fn is_passed(rt: &impl Abort, alloc: Global, row: &Json) -> bool {
    let filter = read(alloc, at(rt, row, 0)).expect(rt, "a filter");
    let event = event(rt, alloc, row);
    let found = passes(rt, &filter, &event, row);
    mem::forget(event);
    found == bool_in(rt, row, 5)
}

#[test]
fn an_event_passes_by_each_list(rt: HostRuntime) {
    let rows = json(
        &rt,
        rt.alloc(),
        r#"[
        [{}, "state", "m.room.name", "@a:example.org", false, true],
        [{"room":{"state":{"types":[]}}}, "state", "m.room.name", "@a:example.org", false, false],
        [{"room":{"state":{"types":[]}}}, "timeline", "m.room.name", "@a:example.org", false, true],
        [{"room":{"timeline":{"types":["m.room.*"]}}}, "timeline", "m.room.name", "@a:example.org", false, true],
        [{"room":{"timeline":{"types":["m.room.*"]}}}, "timeline", "org.a", "@a:example.org", false, false],
        [{"room":{"timeline":{"types":["m.room.*"],"not_types":["*name"]}}}, "timeline", "m.room.name", "@a:example.org", false, false],
        [{"room":{"timeline":{"senders":["@b:example.org"]}}}, "timeline", "m.room.name", "@a:example.org", false, false],
        [{"room":{"timeline":{"senders":[]}}}, "timeline", "m.room.name", "@a:example.org", false, false],
        [{"room":{"timeline":{"not_senders":["@a:example.org"]}}}, "timeline", "m.room.name", "@a:example.org", false, false],
        [{"room":{"timeline":{"contains_url":true}}}, "timeline", "m.room.name", "@a:example.org", false, false],
        [{"room":{"timeline":{"contains_url":false}}}, "timeline", "m.room.name", "@a:example.org", true, false],
        [{"room":{"timeline":{"contains_url":true}}}, "timeline", "m.room.name", "@a:example.org", true, true],
        [{"room":{"timeline":{"rooms":["!0-1:example.org"]}}}, "timeline", "m.room.name", "@a:example.org", false, true],
        [{"room":{"timeline":{"rooms":["!1-2:example.org"]}}}, "timeline", "m.room.name", "@a:example.org", false, false],
        [{"room":{"timeline":{"not_rooms":["!0-1:example.org"]}}}, "timeline", "m.room.name", "@a:example.org", false, false],
        [{"room":{"rooms":[]}}, "timeline", "m.room.name", "@a:example.org", false, true],
        [{"room":{"timeline":{"rooms":[]}}}, "timeline", "m.room.name", "@a:example.org", false, false],
        [{"room":{"state":{"senders":[]}}}, "state", "m.room.name", "@a:example.org", false, false],
        [{"room":{"state":{"rooms":[]}}}, "timeline", "m.room.name", "@a:example.org", false, true],
        [{"room":{"timeline":{"not_rooms":[],"not_senders":[],"not_types":[]}}}, "timeline", "m.room.name", "@a:example.org", false, true],
        [{"room":{"timeline":{"types":["m.room.name"],"not_types":["m.room.name"]}}}, "timeline", "m.room.name", "@a:example.org", false, false]
    ]"#,
    );
    for row in list(&rt, &rows) {
        assert!(&rt; is_passed(&rt, rt.alloc(), row));
    }
}

fn says(rt: &impl Abort, filter: &Filter, row: &Json) -> bool {
    let limit = at(rt, row, 1).as_int().expect(rt, "a number");
    filter.limit == u64::try_from(limit).expect(rt, "a limit")
        && filter.picks(ROOM) == bool_in(rt, row, 2)
        && filter.selection.lazy == bool_in(rt, row, 3)
        && filter.selection.include_leave == bool_in(rt, row, 4)
        && filter.passes_type(DataPart::Account, "m.direct") == bool_in(rt, row, 5)
        && filter.passes_type(DataPart::Ephemeral, "m.receipt") == bool_in(rt, row, 6)
}

/// Whether the filter of a row says what the row says.
fn is_said(rt: &impl Abort, alloc: Global, row: &Json) -> bool {
    let filter = read(alloc, at(rt, row, 0)).expect(rt, "a filter");
    says(rt, &filter, row)
}

/// Whether the filter that lets everything pass says what a row says.
fn all_says(rt: &impl Abort, alloc: Global, row: &Json) -> bool {
    let all = everything(alloc).expect(rt, "memory");
    says(rt, &all, row)
}

#[test]
fn a_filter_says_its_limit_rooms_and_types(rt: HostRuntime) {
    let rows = json(
        &rt,
        rt.alloc(),
        r#"[
        [{}, 10, true, false, false, true, true],
        [{"room":{"timeline":{"limit":0}}}, 0, true, false, false, true, true],
        [{"room":{"timeline":{"limit":1001}}}, 1000, true, false, false, true, true],
        [{"room":{"state":{"limit":3,"lazy_load_members":true}}}, 10, true, true, false, true, true],
        [{"room":{"rooms":[],"include_leave":true}}, 10, false, false, true, true, true],
        [{"room":{"not_rooms":["!0-1:example.org"]}}, 10, false, false, false, true, true],
        [{"room":{"rooms":["!0-1:example.org"],"ephemeral":{"types":["m.typing"]}}}, 10, true, false, false, true, false],
        [{"account_data":{"not_types":["m.*"]}}, 10, true, false, false, false, true],
        [{"account_data":{"types":[]}}, 10, true, false, false, false, true],
        [{"room":{"ephemeral":{"types":[]}}}, 10, true, false, false, true, false],
        [{"room":{"not_rooms":[],"ephemeral":{"not_types":[]}},"account_data":{"not_types":[]}}, 10, true, false, false, true, true]
    ]"#,
    );
    for row in list(&rt, &rows) {
        assert!(&rt; is_said(&rt, rt.alloc(), row));
    }
    assert!(&rt; all_says(&rt, rt.alloc(), at(&rt, &rows, 0)));
}

//! Lists of events: those of the rows of a text, and a thousand events of three rooms that take turns.

ghost use Rattle.std.specs.Prelude.{◌≡◌, ◌+◌, true, length, IfOk, OnOk};
ghost use Rattle.mx_window.specs.Windows.{stand_from};
ghost use Rattle.mx_event.specs.Shown.{position_of};

use crate::rows::{at, json, key_in, list, room, str_in, text, user};
use mx_event::Event;
use mx_ids::{Copied, EventId, Memory, RoomId};
use mx_json::Json;
use std::alloc::Global;
use std::process::Abort;

/// The events that the rooms have in turn: type, state key, sender and content. A redaction names the event nine positions
/// before.
const ROWS: &str = r#"[
    ["m.room.member","@a:b","@a:b",{"membership":"join"}],
    ["m.room.history_visibility","","@a:b",{"history_visibility":"joined"}],
    ["m.room.message",null,"@a:b",{"body":"hi"}],
    ["m.room.member","@a:b","@a:b",{"membership":"leave"}],
    ["m.room.topic","","@a:b",{"topic":"t"}],
    ["m.room.member","@c:b","@a:b",{"membership":"invite"}],
    ["m.room.redaction",null,"@a:b",null],
    ["m.room.history_visibility","","@a:b",{"history_visibility":"shared"}],
    ["m.room.message",null,"@a:b",{"body":"ho"}],
    ["m.room.member","@c:b","@a:b",{"membership":"join"}],
    ["m.room.history_visibility","","@a:b",{"history_visibility":"invited"}]]"#;

/// The room of a position.
pub fn room_at(position: u64) -> RoomId {
    room(position % 3 + 1)
}

fn redaction(rt: &impl Abort, alloc: Global, target: u64) -> Json {
    let content = format!(in alloc; "{{\"redacts\":\"${target}:b\"}}").expect(rt, "memory");
    json(rt, alloc, content.as_str())
}

fn content(rt: &impl Abort, alloc: Global, row: &Json, position: u64) -> Json {
    match at(rt, row, 3) {
        Json::Null => redaction(rt, alloc, position.saturating_sub(9)),
        content => content.copy(alloc).expect(rt, "memory"),
    }
}

/// The event of a row, in a room at a position.
pub fn event(rt: &impl Abort, alloc: Global, row: &Json, room: RoomId, position: u64) -> Event
    ensures at { position_of result ≡ position }
    ensures here { result.room ≡ room }
{
    Event {
        id: EventId { at: position },
        room,
        kind: text(rt, alloc, str_in(rt, row, 0)),
        state_key: key_in(rt, alloc, row, 1),
        sender: user(rt, alloc, str_in(rt, row, 2)),
        content: content(rt, alloc, row, position),
        ts: 0,
        txn: None,
        has_url: false,
    }
}

/// Puts the next event at the end.
fn push_next(
    rt: &impl Abort,
    alloc: Global,
    row: &Json,
    room: RoomId,
    events: &mut Vec<Event>,
) -> Result<(), Memory>
    requires { stand_from position_of 1 events.old.items ≡ true }
    ensures { OnOk result (stand_from position_of 1 events.new.items ≡ true) }
{
    let position = events.len() as u64 + 1;
    events.push(event(rt, alloc, row, room, position))?;
    Ok(())
}

/// The events of the rows of a text, from position 1 on, in the room 1.
pub fn events_of(rt: &impl Abort, alloc: Global, rows: &str) -> Result<Vec<Event>, Memory>
    ensures { IfOk result (λ made. stand_from position_of 1 made.items ≡ true) }
{
    let rows = json(rt, alloc, rows);
    let mut made = Vec::new(alloc);
    'rows: for row in list(rt, &rows) {
        push_next(rt, alloc, row, room(1), &mut made)?;
    }
    Ok(made)
}

fn row_at<'a>(rt: &impl Abort, rows: &'a Json, position: u64) -> &'a Json {
    let rows = list(rt, rows);
    let count = rows.len().max(1) as u64;
    rows.get((position % count) as usize).expect(rt, "a row")
}

/// The events at the positions from 1 to `count`.
pub fn events(rt: &impl Abort, alloc: Global, count: u64) -> Result<Vec<Event>, Memory>
    ensures { IfOk result (λ made. stand_from position_of 1 made.items ≡ true) }
{
    let rows = json(rt, alloc, ROWS);
    let mut made = Vec::new(alloc);
    'positions: for position in 1..count.saturating_add(1) {
        let row = row_at(rt, &rows, position);
        push_next(rt, alloc, row, room_at(position), &mut made)?;
    }
    Ok(made)
}

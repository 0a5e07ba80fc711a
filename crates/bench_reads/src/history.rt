//! The events of ten rooms, one of each in a turn. Ten users join each room; then the first room's topic changes in each
//! turn, and the others have messages, of which those of each tenth turn are redacted five turns later.

ghost use Rattle.std.specs.Prelude.{◌≡◌, ◌+◌, true, length, IfOk, OnOk};
ghost use Rattle.mx_window.specs.Windows.{stand_from};
ghost use Rattle.mx_event.specs.Shown.{position_of};

use crate::unmeasured::Unmeasured;
use mx_event::Event;
use mx_event::event_types::{MEMBER, REDACTION, TOPIC};
use mx_ids::{EventId, Memory, RoomId, Text, UserId, user_id};
use mx_json::{Json, read};
use std::alloc::Global;

/// The number of rooms, and of users.
const COUNT: u64 = 10;

/// What stands at a position.
#[derive(Clone, Copy)]
enum Row {
    /// The join of the user of a number.
    Join(u64),
    Topic,
    /// The redaction of the event at a position.
    Redaction(u64),
    Message,
}

/// What stands at a position: the turn of the positions from 10n on is n.
fn row_at(position: u64) -> Row {
    let turn = position / COUNT;
    if turn < COUNT {
        Row::Join(turn)
    } else if position % COUNT == 0 {
        Row::Topic
    } else if turn % COUNT == 5 {
        Row::Redaction(position.saturating_sub(50))
    } else {
        Row::Message
    }
}

/// The room of a number, of which those below ten are told apart. The topic of the room 0 changes.
pub fn room(number: u64) -> RoomId {
    RoomId {
        writer: 0,
        at: number % COUNT + 1,
    }
}

/// A copy of a text.
pub fn text(alloc: Global, s: &str) -> Result<Text, Memory> {
    Ok(Text::from_string(String::from_str(alloc, s)?))
}

/// The text `@uN:b` of a number.
fn user_text(alloc: Global, number: u64) -> Result<Text, Memory> {
    Ok(Text::from_string(format!(in alloc; "@u{number}:b")?))
}

/// The user `@uN:b` of a number below ten.
pub fn user(alloc: Global, number: u64) -> Result<UserId, Unmeasured> {
    user_id(user_text(alloc, number % COUNT)?).ok_or(Unmeasured::Other)
}

/// The type of an event.
fn kind(row: Row) -> &'static str {
    match row {
        Row::Join(_) => MEMBER,
        Row::Topic => TOPIC,
        Row::Redaction(_) => REDACTION,
        Row::Message => "m.room.message",
    }
}

/// The state key of an event: its user where it is a join, none where it sets no state.
fn key(alloc: Global, row: Row) -> Result<Option<Text>, Memory> {
    match row {
        Row::Join(number) => Ok(Some(user_text(alloc, number)?)),
        Row::Topic => Ok(Some(Text::new(alloc))),
        Row::Redaction(_) | Row::Message => Ok(None),
    }
}

fn content(alloc: Global, row: Row) -> Result<Json, Unmeasured> {
    match row {
        Row::Join(_) => json(alloc, "{\"membership\":\"join\"}"),
        Row::Topic => json(alloc, "{\"topic\":\"t\"}"),
        Row::Redaction(target) => redaction(alloc, target),
        Row::Message => json(alloc, "{\"body\":\"hi\",\"msgtype\":\"m.text\"}"),
    }
}

/// The content of a redaction of the event at a position.
fn redaction(alloc: Global, target: u64) -> Result<Json, Unmeasured> {
    let content = format!(in alloc; "{{\"redacts\":\"${target}:b\"}}")?;
    json(alloc, content.as_str())
}

/// What a text is read as. `Other` where it is none.
fn json(alloc: Global, s: &str) -> Result<Json, Unmeasured> {
    Ok(read(alloc, s.as_bytes())?)
}

/// The event at a position.
pub fn event(alloc: Global, position: u64) -> Result<Event, Unmeasured>
    ensures { IfOk result (λ e. position_of e ≡ position) }
{
    let row = row_at(position);
    Ok(Event {
        id: EventId { at: position },
        room: room(position),
        kind: text(alloc, kind(row))?,
        state_key: key(alloc, row)?,
        sender: user(alloc, position)?,
        content: content(alloc, row)?,
        ts: 0,
        txn: None,
        has_url: false,
    })
}

/// The events at the positions from 1 to `count`.
pub fn events(alloc: Global, count: u64) -> Result<Vec<Event>, Unmeasured>
    ensures { IfOk result (λ made. stand_from position_of 1 made.items ≡ true) }
{
    let mut made = Vec::new(alloc);
    'positions: for _position in 0..count {
        push_next(alloc, &mut made)?;
    }
    Ok(made)
}

/// Puts the next event at the end.
fn push_next(alloc: Global, events: &mut Vec<Event>) -> Result<(), Unmeasured>
    requires { stand_from position_of 1 events.old.items ≡ true }
    ensures { OnOk result (stand_from position_of 1 events.new.items ≡ true) }
{
    let position = events.len() as u64 + 1;
    events.push(event(alloc, position)?)?;
    Ok(())
}

//! Texts, users and JSON of literals, and what stands in a row of a table that is JSON.

use mx_ids::{Copied, RoomId, Text, UserId, user_id};
use mx_json::{Json, read};
use std::alloc::Global;
use std::process::Abort;

pub fn text(rt: &impl Abort, alloc: Global, s: &str) -> Text {
    Text::from_string(String::from_str(alloc, s).expect(rt, "memory"))
}

pub fn user(rt: &impl Abort, alloc: Global, id: &str) -> UserId {
    user_id(text(rt, alloc, id)).expect(rt, "a user id")
}

pub fn json(rt: &impl Abort, alloc: Global, s: &str) -> Json {
    read(alloc, s.as_bytes()).expect(rt, "a JSON text")
}

pub fn list<'a>(rt: &impl Abort, json: &'a Json) -> &'a [Json] {
    json.as_list().expect(rt, "a list").as_slice()
}

/// The entry of a row at an index.
pub fn at<'a>(rt: &impl Abort, row: &'a Json, index: usize) -> &'a Json {
    list(rt, row).get(index).expect(rt, "an entry")
}

pub fn number_in(rt: &impl Abort, row: &Json, index: usize) -> u64 {
    let number = at(rt, row, index).as_int().expect(rt, "a number");
    u64::try_from(number).expect(rt, "a number from 0 on")
}

pub fn str_in<'a>(rt: &impl Abort, row: &'a Json, index: usize) -> &'a str {
    at(rt, row, index).as_text().expect(rt, "a text").as_str()
}

pub fn is_true(rt: &impl Abort, row: &Json, index: usize) -> bool {
    at(rt, row, index).as_bool().expect(rt, "true or false")
}

/// The text of a row at an index, or none where `null` stands.
pub fn key_in(rt: &impl Abort, alloc: Global, row: &Json, index: usize) -> Option<Text> {
    match at(rt, row, index).as_text() {
        Some(key) => Some(key.copy(alloc).expect(rt, "memory")),
        None => None,
    }
}

/// The room of a number.
pub fn room(number: u64) -> RoomId {
    RoomId {
        writer: 0,
        at: number,
    }
}

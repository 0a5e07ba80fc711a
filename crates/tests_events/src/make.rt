//! Texts, users and JSON of literals, and what stands in a row of a table that is JSON.
use mx_ids::{Copied, Text, UserId, user_id};
use mx_json::{Json, read};
use std::alloc::Global;
use std::process::Abort;

pub fn text(rt: &impl Abort, alloc: Global, s: &str) -> Text {
    Text::from_string(String::from_str(alloc, s).expect(rt, "memory"))
}

pub fn user(rt: &impl Abort, alloc: Global, id: &str) -> UserId {
    user_id(text(rt, alloc, id)).expect(rt, "a user id")
}

pub fn json(rt: &impl Abort, alloc: Global, s: &str) -> Json {
    read(alloc, s.as_bytes()).expect(rt, "a JSON text")
}

pub fn list<'a>(rt: &impl Abort, json: &'a Json) -> &'a [Json] {
    json.as_list().expect(rt, "a list").as_slice()
}

/// The entry of a row at an index.
pub fn at<'a>(rt: &impl Abort, row: &'a Json, index: usize) -> &'a Json {
    list(rt, row).get(index).expect(rt, "an entry")
}

pub fn text_in(rt: &impl Abort, alloc: Global, row: &Json, index: usize) -> Text {
    let text = at(rt, row, index).as_text().expect(rt, "a text");
    text.copy(alloc).expect(rt, "memory")
}

pub fn user_in(rt: &impl Abort, alloc: Global, row: &Json, index: usize) -> UserId {
    user_id(text_in(rt, alloc, row, index)).expect(rt, "a user id")
}

/// The state key of a row, or none where `null` stands.
pub fn key_in(rt: &impl Abort, alloc: Global, row: &Json, index: usize) -> Option<Text> {
    match at(rt, row, index).as_text() {
        Some(key) => Some(key.copy(alloc).expect(rt, "memory")),
        None => None,
    }
}

pub fn number_in(rt: &impl Abort, row: &Json, index: usize) -> i64 {
    at(rt, row, index).as_int().expect(rt, "a number")
}

/// A text that is `start`, so many copies of `part`, and `end`.
pub fn repeated(
    rt: &impl Abort,
    alloc: Global,
    start: &str,
    part: &str,
    count: u32,
    end: &str,
) -> Text {
    let mut out = text(rt, alloc, start);
    for _ in 0..count {
        out.push_str(part).expect(rt, "memory");
    }
    out.push_str(end).expect(rt, "memory");
    out
}

/// The compact text of a value.
pub fn compact(rt: &impl Abort, alloc: Global, json: &Json) -> Text {
    let mut out = Text::new(alloc);
    json.write(alloc, &mut out).expect(rt, "memory");
    out
}

/// Asserts what is found in the case of a number.
pub fn expect_number(rt: &impl Abort, found: i64, wanted: i64, case: u64) {
    assert_eq!(rt; found, wanted, "case {case}");
}

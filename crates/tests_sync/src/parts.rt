//! What rows of a table have.

use mx_ids::{Text, UserId, user_id};
use mx_json::{Json, read};
use std::alloc::Global;
use std::process::Abort;

pub fn json(rt: &impl Abort, alloc: Global, s: &str) -> Json {
    read(alloc, s.as_bytes()).expect(rt, "a JSON text")
}

pub fn text(rt: &impl Abort, alloc: Global, s: &str) -> Text {
    Text::from_string(String::from_str(alloc, s).expect(rt, "memory"))
}

pub fn user(rt: &impl Abort, alloc: Global, id: &str) -> UserId {
    user_id(text(rt, alloc, id)).expect(rt, "a user id")
}

pub fn list<'a>(rt: &impl Abort, row: &'a Json) -> &'a [Json] {
    row.as_list().expect(rt, "a list").as_slice()
}

pub fn part<'a>(rt: &impl Abort, row: &'a Json, index: usize) -> &'a Json {
    list(rt, row).get(index).expect(rt, "an entry")
}

pub fn number(rt: &impl Abort, row: &Json, index: usize) -> u64 {
    let number = part(rt, row, index).as_int().expect(rt, "a number");
    u64::try_from(number).expect(rt, "a number from 0 on")
}

pub fn str_in<'a>(rt: &impl Abort, row: &'a Json, index: usize) -> &'a str {
    part(rt, row, index).as_text().expect(rt, "a text").as_str()
}

pub fn is_true(rt: &impl Abort, row: &Json, index: usize) -> bool {
    part(rt, row, index).as_bool().expect(rt, "true or false")
}

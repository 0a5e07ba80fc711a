//! Texts, users and JSON of literals.
use mx_ids::{Text, UserId, user_id};
use mx_json::{Json, read};
use std::alloc::Global;
use std::process::Abort;

pub fn text(rt: &impl Abort, alloc: Global, s: &str) -> Text {
    Text::from_string(String::from_str(alloc, s).expect(rt, "memory"))
}

pub fn user(rt: &impl Abort, alloc: Global, id: &str) -> UserId {
    user_id(text(rt, alloc, id)).expect(rt, "a user id")
}

pub fn json(rt: &impl Abort, alloc: Global, s: &str) -> Json {
    read(alloc, s.as_bytes()).expect(rt, "a JSON text")
}

pub fn list<'a>(rt: &impl Abort, json: &'a Json) -> &'a [Json] {
    json.as_list().expect(rt, "a list").as_slice()
}

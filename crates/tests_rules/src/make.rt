//! Texts, users and JSON of literals, and what stands in a row of a table that is JSON.
use mx_ids::{Copied, Text, UserId, user_id};
use mx_json::{Json, read};
use mx_rules::{Kind, RuleSet, defaults};
use std::alloc::Global;
use std::process::Abort;

pub fn json(rt: &impl Abort, alloc: Global, s: &str) -> Json {
    read(alloc, s.as_bytes()).expect(rt, "a JSON text")
}

pub fn list<'a>(rt: &impl Abort, json: &'a Json) -> &'a [Json] {
    json.as_list().expect(rt, "a list").as_slice()
}

/// The entry of a row at an index.
pub fn at<'a>(rt: &impl Abort, row: &'a Json, index: usize) -> &'a Json {
    list(rt, row).get(index).expect(rt, "an entry")
}

pub fn str_in<'a>(rt: &impl Abort, row: &'a Json, index: usize) -> &'a str {
    at(rt, row, index).as_text().expect(rt, "a text").as_str()
}

pub fn bool_in(rt: &impl Abort, row: &Json, index: usize) -> bool {
    at(rt, row, index).as_bool().expect(rt, "a truth value")
}

pub fn text_in(rt: &impl Abort, alloc: Global, row: &Json, index: usize) -> Text {
    let text = at(rt, row, index).as_text().expect(rt, "a text");
    text.copy(alloc).expect(rt, "memory")
}

pub fn user_in(rt: &impl Abort, alloc: Global, row: &Json, index: usize) -> UserId {
    user_id(text_in(rt, alloc, row, index)).expect(rt, "a user id")
}

pub fn text(rt: &impl Abort, alloc: Global, s: &str) -> Text {
    Text::from_string(String::from_str(alloc, s).expect(rt, "memory"))
}

/// The user `@al:example.org`.
pub fn al(rt: &impl Abort, alloc: Global) -> UserId {
    user_id(text(rt, alloc, "@al:example.org")).expect(rt, "a user id")
}

/// The default rules of that user.
pub fn default_rules(rt: &impl Abort, alloc: Global) -> RuleSet {
    defaults(alloc, &al(rt, alloc)).expect(rt, "memory")
}

/// The kind of rules of a name.
pub fn kind_of(name: &str) -> Kind {
    match name {
        "override" => Kind::Override,
        "content" => Kind::Content,
        "room" => Kind::Room,
        "sender" => Kind::Sender,
        _ => Kind::Underride,
    }
}

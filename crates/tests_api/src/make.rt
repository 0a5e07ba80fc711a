//! Calls and users of literals, and what stands in a row of a table that is JSON.
use mx_http::Call;
use mx_ids::{Seq, Text};
use mx_json::{Json, read};
use mx_users::{Directory, read_users};
use std::alloc::Global;
use std::process::Abort;

pub fn json(rt: &impl Abort, alloc: Global, s: &str) -> Json {
    read(alloc, s.as_bytes()).expect(rt, "a JSON text")
}

pub fn list<'a>(rt: &impl Abort, json: &'a Json) -> &'a [Json] {
    json.as_list().expect(rt, "a list").as_slice()
}

/// The entry of a row at an index.
pub fn at<'a>(rt: &impl Abort, row: &'a Json, index: usize) -> &'a Json {
    list(rt, row).get(index).expect(rt, "an entry")
}

pub fn str_in<'a>(rt: &impl Abort, row: &'a Json, index: usize) -> &'a str {
    at(rt, row, index).as_text().expect(rt, "a text").as_str()
}

pub fn text(rt: &impl Abort, alloc: Global, s: &str) -> Text {
    Text::from_string(String::from_str(alloc, s).expect(rt, "memory"))
}

/// Alice with two devices, and Bob with one.
pub fn users(rt: &impl Abort, alloc: Global) -> Directory {
    let file = "server example.org\nalice PHONE secret\nalice DESK other\nbob TAB third\n";
    read_users(alloc, file.as_bytes()).expect(rt, "users")
}

/// The call of a row: its method, what follows `/_matrix/client/v3` in its target, its bearer, or null, and its body.
pub fn call(rt: &impl Abort, alloc: Global, row: &Json) -> Call {
    let target = format!(in alloc; "/_matrix/client/v3{}", str_in(rt, row, 1)).expect(rt, "memory");
    let mut body = Seq::new(alloc);
    body.extend_from_slice(str_in(rt, row, 3).as_bytes())
        .expect(rt, "memory");
    Call {
        method: text(rt, alloc, str_in(rt, row, 0)),
        target: Text::from_string(target),
        bearer: bearer(rt, alloc, at(rt, row, 2)),
        body,
        close: false,
    }
}

fn bearer(rt: &impl Abort, alloc: Global, entry: &Json) -> Option<Text> {
    match entry.as_text() {
        Some(token) => Some(text(rt, alloc, token.as_str())),
        None => None,
    }
}

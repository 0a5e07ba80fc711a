//! JSON values as they are read, built and written.
use crate::make::{json, text};
use mx_ids::{Copied, Text};
use mx_json::{Json, JsonFault, Members, number_size, read, text_size};
use std::alloc::Global;
use std::process::Abort;

/// A value is written as this text, and as long as it says.
fn expect_written(rt: &impl Abort, alloc: Global, json: &Json, written: &str) {
    let mut out = Text::new(alloc);
    json.write(alloc, &mut out).expect(rt, "memory");
    assert_eq!(rt; out.as_str(), written);
    assert_eq!(rt; json.size(), out.len() as u64);
}

fn expect_compact(rt: &impl Abort, alloc: Global, s: &str, written: &str) {
    expect_written(rt, alloc, &json(rt, alloc, s), written);
}

#[test]
fn a_value_is_written_compact(rt: HostRuntime) {
    let alloc = rt.alloc();
    expect_compact(
        &rt,
        alloc,
        "[9007199254740991,-9007199254740991]",
        "[9007199254740991,-9007199254740991]",
    );
    expect_compact(
        &rt,
        alloc,
        " [ null , true,false , 0, -1, [] ,{ } ] ",
        "[null,true,false,0,-1,[],{}]",
    );
    expect_compact(
        &rt,
        alloc,
        r#"{"b":1,"":[],"a":{"z":2,"é":3}}"#,
        r#"{"":[],"a":{"z":2,"é":3},"b":1}"#,
    );
    expect_compact(&rt, alloc, r#"{"a":1.5,"a":2}"#, r#"{"a":2}"#);
    expect_compact(
        &rt,
        alloc,
        r#""\u0022\\\/\n\t\u0001\u00e9é""#,
        r#""\"\\/\n\t\u0001éé""#,
    );
}

fn expect_refused(rt: &impl Abort, alloc: Global, bytes: &[u8], fault: &JsonFault) {
    assert!(rt; read(alloc, bytes).err().as_ref() == Some(fault));
}

fn expect_all_refused(rt: &impl Abort, alloc: Global, texts: &[&str], fault: &JsonFault) {
    for text in texts {
        expect_refused(rt, alloc, text.as_bytes(), fault);
    }
}

#[test]
fn each_refusal_has_its_cause(rt: HostRuntime) {
    let alloc = rt.alloc();
    expect_refused(&rt, alloc, b"\"\xff\"", &JsonFault::NotJson);
    expect_all_refused(
        &rt,
        alloc,
        &["", r#"{"a":"#, "1e999", r#""\ud800""#, "[1] 2"],
        &JsonFault::NotJson,
    );
    expect_all_refused(
        &rt,
        alloc,
        &[
            r#"{"a":1.5}"#,
            "[9007199254740992,1e2]",
            "-0",
            "18446744073709551616",
        ],
        &JsonFault::Fraction,
    );
    expect_all_refused(
        &rt,
        alloc,
        &[
            "18446744073709551615",
            r#"{"a":9007199254740992}"#,
            "-9007199254740992",
        ],
        &JsonFault::IntegerRange,
    );
}

/// Whether lists that nest so deep are read.
fn is_nesting_read(rt: &impl Abort, alloc: Global, depth: usize) -> bool {
    let mut s = String::new(alloc);
    for _ in 0..depth {
        s.push('[').expect(rt, "memory");
    }
    close(rt, &mut s, depth);
    read(alloc, s.as_bytes()).is_ok()
}

fn close(rt: &impl Abort, s: &mut String, depth: usize) {
    for _ in 0..depth {
        s.push(']').expect(rt, "memory");
    }
}

#[test]
fn texts_and_numbers_are_measured(rt: HostRuntime) {
    assert_eq!(rt; text_size("a\n\"b\u{1}"), 14);
    assert_eq!(rt; number_size(0), 1);
    assert_eq!(rt; number_size(u64::MAX), 20);
}

#[test]
fn nesting_ends_at_127(rt: HostRuntime) {
    assert!(rt; is_nesting_read(&rt, rt.alloc(), 127));
    assert!(rt; !is_nesting_read(&rt, rt.alloc(), 128));
}

/// An object with one member.
fn one_member(rt: &impl Abort, alloc: Global, key: &str, s: &str) -> Members<Json> {
    let mut members = Members::new(alloc);
    let value = Json::Text(text(rt, alloc, s));
    members
        .push(text(rt, alloc, key), value)
        .expect(rt, "memory");
    members
}

/// A copy of an object that has a copy of these members.
fn copied(rt: &impl Abort, alloc: Global, members: &Members<Json>) -> Json {
    let object = Json::Object(members.copy(alloc).expect(rt, "memory"));
    object.copy(alloc).expect(rt, "memory")
}

/// Whether an object has a body, which is a text, and no other member.
fn has_body(object: &Members<Json>) -> bool {
    let Some(body) = object.get("body") else {
        return false;
    };
    object.len() == 1 && body.as_text().is_some() && object.get("msgtype").is_none()
}

#[test]
fn a_value_is_built_and_copied(rt: HostRuntime) {
    let members = one_member(&rt, rt.alloc(), "body", "hi");
    let copy = copied(&rt, rt.alloc(), &members);
    assert!(rt; has_body(copy.as_object().expect(&rt, "an object")));
    expect_written(&rt, rt.alloc(), &copy, r#"{"body":"hi"}"#);
}

fn set(rt: &impl Abort, alloc: Global, members: &mut Members<Json>, key: &str, number: i64) {
    members
        .set(text(rt, alloc, key), Json::Int(number))
        .expect(rt, "memory");
}

fn object_of_three(rt: &impl Abort, alloc: Global) -> Json {
    let mut members = Members::new(alloc);
    set(rt, alloc, &mut members, "b", 1);
    set(rt, alloc, &mut members, "a", 2);
    set(rt, alloc, &mut members, "c", 3);
    set(rt, alloc, &mut members, "b", 4);
    Json::Object(members)
}

#[test]
fn members_that_are_set_stand_in_order(rt: HostRuntime) {
    let object = object_of_three(&rt, rt.alloc());
    expect_written(&rt, rt.alloc(), &object, r#"{"a":2,"b":4,"c":3}"#);
    assert_eq!(rt; object.int_at("b"), Some(4));
    assert_eq!(rt; object.int_at("d"), None);
}

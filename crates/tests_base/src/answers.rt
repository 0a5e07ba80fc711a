//! The bytes of answers, and the names and values of queries.
use crate::make::{json, text};
use mx_http::{Answer, Body, parameter, path, path_parts, query, write_answer};
use mx_ids::Text;
use mx_outside::MemSink;
use std::alloc::Global;
use std::process::Abort;

const HEADERS: &str =
    "Access-Control-Allow-Origin: *\r\nAccess-Control-Allow-Methods: GET, POST, PUT, DELETE, OPTIONS\r\nAccess-Control-Allow-Headers: X-Requested-With, Content-Type, Authorization\r\n";

/// Whether bytes are the texts one behind the other.
fn are_texts(bytes: &[u8], texts: &[&str]) -> bool {
    let mut rest = bytes;
    for text in texts {
        match rest.strip_prefix(text.as_bytes()) {
            Some(behind) => rest = behind,
            None => return false,
        }
    }
    rest.is_empty()
}

/// Whether bytes are an answer: its status line, its length, the other headers, and what ends it.
fn is_answer(bytes: &[u8], parts: [&str; 3]) -> bool {
    let [status, length, end] = parts;
    let texts = [
        "HTTP/1.1 ",
        status,
        "\r\nContent-Type: application/json\r\nContent-Length: ",
        length,
        "\r\n",
        HEADERS,
        end,
    ];
    are_texts(bytes, &texts)
}

/// Asserts that an answer is written as these parts.
fn expect(
    rt: &impl Abort,
    alloc: Global,
    answer: &Answer,
    head_only: bool,
    close: bool,
    parts: [&str; 3],
) {
    let mut sink = MemSink::new(alloc, Vec::new(alloc));
    write_answer(&mut sink, answer, head_only, close).expect(rt, "no fault");
    assert!(rt; is_answer(sink.written(), parts));
    drop(sink);
}

/// Asserts how an answer that is an empty object ends.
fn expect_empty(rt: &impl Abort, alloc: Global, head_only: bool, close: bool, end: &str) {
    let answer = Answer {
        status: 200,
        body: Body::Json(json(rt, alloc, "{}")),
    };
    expect(rt, alloc, &answer, head_only, close, ["200 OK", "2", end]);
}

/// Asserts that an answer with this status and value is written as these parts.
fn expect_json(rt: &impl Abort, alloc: Global, status: u16, body: &str, parts: [&str; 3]) {
    let answer = Answer {
        status,
        body: Body::Json(json(rt, alloc, body)),
    };
    expect(rt, alloc, &answer, false, false, parts);
}

#[test]
fn answers_have_their_bytes(rt: HostRuntime) {
    let alloc = rt.alloc();
    expect_empty(&rt, alloc, false, false, "\r\n{}");
    expect_empty(&rt, alloc, true, false, "\r\n");
    expect_empty(&rt, alloc, false, true, "Connection: close\r\n\r\n{}");
    expect_json(
        &rt,
        alloc,
        404,
        r#"{"errcode":"M_UNRECOGNIZED","error":"not found"}"#,
        [
            "404 Not Found",
            "48",
            "\r\n{\"errcode\":\"M_UNRECOGNIZED\",\"error\":\"not found\"}",
        ],
    );
}

#[test]
fn bytes_may_be_fixed(rt: HostRuntime) {
    let answer = Answer {
        status: 299,
        body: Body::Fixed(b"[]"),
    };
    let parts = ["299 ", "2", "\r\n[]"];
    expect(&rt, rt.alloc(), &answer, false, false, parts);
}

#[test]
fn a_body_is_the_compact_text_of_its_value(rt: HostRuntime) {
    expect_json(
        &rt,
        rt.alloc(),
        200,
        r#"{"a":[null,true,false,-7,0,9007199254740991,[],{}],"b\n\"\\":{"":"\b\f\r\t\u0000\u001f/\u00e9"}}"#,
        [
            "200 OK",
            "92",
            "\r\n{\"a\":[null,true,false,-7,0,9007199254740991,[],{}],\"b\\n\\\"\\\\\":{\"\":\"\\b\\f\\r\\t\\u0000\\u001f/é\"}}",
        ],
    );
}

/// A text of 5,000 bytes between quotes, more than the stage holds.
fn long_text(rt: &impl Abort, alloc: Global) -> Text {
    let mut long = text(rt, alloc, "\"");
    for _ in 0..5000u32 {
        long.push_str("x").expect(rt, "memory");
    }
    long.push_str("\"").expect(rt, "memory");
    long
}

/// How many bytes of a long answer are written to a sink whose calls of these numbers fail: all, or a front in the error.
fn put_count(rt: &impl Abort, alloc: Global, failing: &[u64]) -> Result<usize, usize> {
    let failing = Vec::from_slice(alloc, failing).expect(rt, "memory");
    let mut sink = MemSink::new(alloc, failing);
    let answer = Answer {
        status: 200,
        body: Body::Json(json(rt, alloc, long_text(rt, alloc).as_str())),
    };
    match write_answer(&mut sink, &answer, false, false) {
        Ok(()) => Ok(sink.written().len()),
        Err(_) => Err(sink.written().len()),
    }
}

#[test]
fn a_large_body_takes_several_puts(rt: HostRuntime) {
    let alloc = rt.alloc();
    // a head of 245 bytes
    assert_eq!(rt; put_count(&rt, alloc, &[]), Ok(5247));
    let cut = put_count(&rt, alloc, &[1]).err().expect(&rt, "a fault");
    assert!(rt; cut < 5247);
}

/// Puts a name and a value as a line.
fn put_pair(rt: &impl Abort, out: &mut Text, name: &str, value: &str) {
    out.push_str(name).expect(rt, "memory");
    out.push_str("=").expect(rt, "memory");
    out.push_str(value).expect(rt, "memory");
    out.push_str("\n").expect(rt, "memory");
}

/// The names and values of a target's query, a line for each.
fn pairs(rt: &impl Abort, alloc: Global, target: &str) -> Text {
    let target = text(rt, alloc, target);
    let found = query(alloc, &target).expect(rt, "memory");
    let mut out = Text::new(alloc);
    for pair in found.as_slice() {
        put_pair(rt, &mut out, pair.0.as_str(), pair.1.as_str());
    }
    out
}

#[test]
fn a_query_is_decoded_in_order(rt: HostRuntime) {
    let found = pairs(
        &rt,
        rt.alloc(),
        "/sync?since=s1_0&a+b=%7B%C3%A9&&x&y=%ff&x=?",
    );
    assert_eq!(rt; found.as_str(), "since=s1_0\na b={é\nx=\ny=\u{fffd}\nx=?\n");
    assert!(rt; pairs(&rt, rt.alloc(), "/sync").as_str().is_empty());
}

/// The value of a parameter of a target.
fn value(rt: &impl Abort, alloc: Global, target: &str, name: &str) -> Text {
    let pairs = query(alloc, &text(rt, alloc, target)).expect(rt, "memory");
    match parameter(pairs.as_slice(), name) {
        Some(value) => text(rt, alloc, value.as_str()),
        None => text(rt, alloc, "none"),
    }
}

#[test]
fn the_first_parameter_of_a_name_counts(rt: HostRuntime) {
    let alloc = rt.alloc();
    let target = "/sync?timeout=0&since=a&since=b";
    assert_eq!(rt; value(&rt, alloc, target, "since").as_str(), "a");
    assert_eq!(rt; value(&rt, alloc, target, "sinc").as_str(), "none");
    assert_eq!(rt; path(&text(&rt, alloc, target)), "/sync");
}

/// Whether two parts of a path are these once they are decoded.
fn are_decoded(alloc: Global, parts: [&str; 2], first: &str, second: &str) -> bool {
    let Ok(Some(found)) = path_parts(alloc, parts.as_slice()) else {
        return false;
    };
    match found.as_slice() {
        [one, two] => one.as_str() == first && two.as_str() == second,
        _ => false,
    }
}

#[test]
fn parts_of_a_path_are_decoded(rt: HostRuntime) {
    let alloc = rt.alloc();
    assert!(rt; are_decoded(alloc, ["%21a%3Ab", "x+y%2"], "!a:b", "x+y%2"));
    assert!(rt; are_decoded(alloc, ["%c3%a9", ""], "é", ""));
    assert!(rt; matches!(path_parts(alloc, ["a", "%ff"].as_slice()), Ok(None)));
}

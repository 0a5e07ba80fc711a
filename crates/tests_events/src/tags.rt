//! Tags that are set and taken out.
use crate::make::{at, compact, json, list, text_in};
use mx_account::{tags_of, with_tag, without_tag};
use mx_ids::{Copied, Text};
use mx_json::Json;
use std::alloc::Global;
use std::process::Abort;

/// The tags after a call: the tag of the row is set to its body, or taken out where that is `null`.
fn changed(rt: &impl Abort, alloc: Global, tag: &Text, row: &Json) -> Json {
    let old = Some(at(rt, row, 0));
    match at(rt, row, 2) {
        Json::Null => without_tag(alloc, old, tag).expect(rt, "memory"),
        body => {
            let body = body.copy(alloc).expect(rt, "memory");
            with_tag(alloc, old, tag, body).expect(rt, "memory")
        }
    }
}

/// Asserts the compact text of the tags after the call of a row.
fn expect_changed(rt: &impl Abort, alloc: Global, row: &Json) {
    let tag = text_in(rt, alloc, row, 1);
    let content = changed(rt, alloc, &tag, row);
    let wanted = at(rt, row, 3).as_text().expect(rt, "a text");
    assert!(rt; compact(rt, alloc, &content).as_str() == wanted.as_str());
}

#[test]
fn a_tag_is_set_and_taken_out(rt: HostRuntime) {
    let rows = json(
        &rt,
        rt.alloc(),
        r#"[
        [null, "m.favourite", {"order":1}, "{\"tags\":{\"m.favourite\":{\"order\":1}}}"],
        [{"tags":{"a":{},"m.favourite":{"order":2},"u":{}},"x":1}, "m.favourite", {}, "{\"tags\":{\"a\":{},\"m.favourite\":{},\"u\":{}},\"x\":1}"],
        [{"tags":{"a":{},"u":{}},"x":1}, "a", null, "{\"tags\":{\"u\":{}},\"x\":1}"],
        [{"tags":[1],"x":1}, "a", null, "{\"tags\":{},\"x\":1}"],
        [{"x":1}, "a", {}, "{\"tags\":{\"a\":{}},\"x\":1}"]
    ]"#,
    );
    for row in list(&rt, &rows) {
        expect_changed(&rt, rt.alloc(), row);
    }
    let with_no_tags = at(&rt, at(&rt, &rows, 3), 0);
    assert!(&rt; tags_of(Some(with_no_tags)).is_none());
}

//! Globs over a whole text and between word boundaries.
use crate::make::{bool_in, json, list, str_in};
use mx_glob::{Same, glob, glob_in_words};
use mx_json::Json;
use std::process::Abort;

/// A pattern and a text; whether it fits the whole text exactly, folded, and a stretch between word boundaries, folded.
fn is_so(rt: &impl Abort, row: &Json) -> bool {
    let (pattern, text) = (str_in(rt, row, 0), str_in(rt, row, 1));
    glob(Same::Exact, pattern, text) == bool_in(rt, row, 2)
        && glob(Same::Folded, pattern, text) == bool_in(rt, row, 3)
        && glob_in_words(Same::Folded, pattern, text) == bool_in(rt, row, 4)
}

#[test]
fn a_pattern_fits_by_its_stars(rt: HostRuntime) {
    let rows = json(
        &rt,
        rt.alloc(),
        r#"[
        ["", "", true, true, true],
        ["", "a", false, false, true],
        ["*", "", true, true, true],
        ["*", "any thing", true, true, true],
        ["m.room.*", "m.room.message", true, true, true],
        ["m.room.*", "m.rooms", false, false, false],
        ["*.name", "m.room.name", true, true, true],
        ["a*b*c", "aXbYbZc", true, true, true],
        ["a*b*c", "aXcYb", false, false, false],
        ["*ab*ab", "ab", false, false, false],
        ["*ab", "aab", true, true, true],
        ["al?ce", "alice", false, true, true],
        ["al?ce", "hi ALICE!", false, false, true],
        ["al?ce", "malice", false, false, false],
        ["al?ce", "alices", false, false, false],
        ["?", "é", false, true, true],
        ["É", "é", false, false, false],
        ["a.b", "a.b", true, true, true],
        ["a*", "ba abc", false, false, true],
        ["b*a", "xb ya bcaz", false, false, false],
        ["x*a", "xb ya bcaz", false, false, true],
        ["_", "a _ b", false, false, true],
        ["_", "a_b", false, false, false]
    ]"#,
    );
    for row in list(&rt, &rows) {
        assert!(&rt; is_so(&rt, row));
    }
}

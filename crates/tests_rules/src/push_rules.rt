//! Push rules: how they change, which fault comes, and their JSON.
use crate::make::{at, bool_in, default_rules, json, kind_of, list, str_in, text_in};
use mx_ids::Text;
use mx_json::Json;
use mx_rules::{RuleFault, RuleSet, Side};
use std::alloc::Global;
use std::mem;
use std::process::Abort;

fn name_of(answer: Result<(), RuleFault>) -> &'static str {
    match answer {
        Ok(()) => "",
        Err(RuleFault::DefaultRule) => "default",
        Err(RuleFault::NoRule) => "rule",
        Err(RuleFault::BadCondition) => "condition",
        Err(RuleFault::BadAction) => "action",
        Err(RuleFault::NoNeighbour(Side::Before)) => "before",
        Err(RuleFault::NoNeighbour(Side::After)) => "after",
        Err(RuleFault::Memory(_)) => "memory",
    }
}

/// What a call on the rule of an id answers: its name, kind, id, value, and for `put` the neighbours, where a text stands.
fn answer(
    rt: &impl Abort,
    alloc: Global,
    rules: &mut RuleSet,
    id: &Text,
    row: &Json,
) -> Result<(), RuleFault> {
    let kind = kind_of(str_in(rt, row, 1));
    let value = at(rt, row, 3);
    match str_in(rt, row, 0) {
        "put" => {
            let before = at(rt, row, 4).as_text();
            rules.put(alloc, kind, id, value, before, at(rt, row, 5).as_text())
        }
        "remove" => rules.remove(kind, id),
        "enable" => rules.set_enabled(kind, id, value.as_bool().expect(rt, "a truth value")),
        _ => rules.set_actions(alloc, kind, id, value),
    }
}

/// Asserts that a call answers the fault of its row.
fn expect_answer(rt: &impl Abort, alloc: Global, rules: &mut RuleSet, row: &Json) {
    let id = text_in(rt, alloc, row, 2);
    let answer = answer(rt, alloc, rules, &id, row);
    assert!(rt; name_of(answer) == str_in(rt, row, 6));
}

/// The default rules after calls, one after the other, which answer the faults of their rows. Rules are forgotten and not
/// dropped, since their drop would stand in the proof of each function that owns some.
fn after(rt: &impl Abort, alloc: Global, rows: &str) -> RuleSet {
    let rows = json(rt, alloc, rows);
    let mut rules = default_rules(rt, alloc);
    for row in list(rt, &rows) {
        expect_answer(rt, alloc, &mut rules, row);
    }
    rules
}

/// Puts the id of a rule behind a space, with a minus where the rule isn't enabled.
fn put_id(rt: &impl Abort, out: &mut Text, rule: &Json) {
    let id = rule.text_at("rule_id").expect(rt, "an id");
    let enabled = rule.field("enabled").expect(rt, "a truth value").as_bool();
    let front = if enabled == Some(false) { " -" } else { " " };
    out.push_str(front).expect(rt, "memory");
    out.push_str(id.as_str()).expect(rt, "memory");
}

/// The ids of rules in order, each behind a space, and those that aren't enabled with a minus.
fn ids(rt: &impl Abort, alloc: Global, rules: &Json) -> Text {
    let mut out = Text::new(alloc);
    for rule in list(rt, rules) {
        put_id(rt, &mut out, rule);
    }
    out
}

/// Asserts the order of the rules of a kind in a content.
fn expect_order(rt: &impl Abort, alloc: Global, kinds: &Json, row: &Json) {
    let rules = kinds.field(str_in(rt, row, 0)).expect(rt, "a kind");
    assert!(rt; ids(rt, alloc, rules).as_str() == str_in(rt, row, 1));
}

/// Asserts the order of the rules of each kind of some rows.
fn expect_orders(rt: &impl Abort, alloc: Global, rules: &RuleSet, rows: &str) {
    let rows = json(rt, alloc, rows);
    let content = rules.to_json(alloc).expect(rt, "memory");
    let kinds = content.field("global").expect(rt, "the kinds");
    for row in list(rt, &rows) {
        expect_order(rt, alloc, kinds, row);
    }
}

/// The text of the content of rules.
fn written(rt: &impl Abort, alloc: Global, rules: &RuleSet) -> Text {
    text_of(rt, alloc, &rules.to_json(alloc).expect(rt, "memory"))
}

#[test]
fn the_default_rules_are_fifteen(rt: HostRuntime) {
    let rules = default_rules(&rt, rt.alloc());
    let found = written(&rt, rt.alloc(), &rules);
    mem::forget(rules);
    assert!(&rt;
        found.as_str()
            == r#"{"global":{"content":[{"actions":["notify",{"set_tweak":"sound","value":"default"},{"set_tweak":"highlight"}],"default":true,"enabled":true,"pattern":"al","rule_id":".m.rule.contains_user_name"}],"override":[{"actions":[],"conditions":[],"default":true,"enabled":false,"rule_id":".m.rule.master"},{"actions":[],"conditions":[{"key":"content.msgtype","kind":"event_match","pattern":"m.notice"}],"default":true,"enabled":true,"rule_id":".m.rule.suppress_notices"},{"actions":["notify",{"set_tweak":"sound","value":"default"}],"conditions":[{"key":"type","kind":"event_match","pattern":"m.room.member"},{"key":"content.membership","kind":"event_match","pattern":"invite"},{"key":"state_key","kind":"event_match","pattern":"@al:example.org"}],"default":true,"enabled":true,"rule_id":".m.rule.invite_for_me"},{"actions":[],"conditions":[{"key":"type","kind":"event_match","pattern":"m.room.member"}],"default":true,"enabled":true,"rule_id":".m.rule.member_event"},{"actions":["notify",{"set_tweak":"sound","value":"default"},{"set_tweak":"highlight"}],"conditions":[{"key":"content.m\\.mentions.user_ids","kind":"event_property_contains","value":"@al:example.org"}],"default":true,"enabled":true,"rule_id":".m.rule.is_user_mention"},{"actions":["notify",{"set_tweak":"sound","value":"default"},{"set_tweak":"highlight"}],"conditions":[{"kind":"contains_display_name"}],"default":true,"enabled":true,"rule_id":".m.rule.contains_display_name"},{"actions":["notify",{"set_tweak":"highlight"}],"conditions":[{"key":"content.m\\.mentions.room","kind":"event_property_is","value":true},{"key":"room","kind":"sender_notification_permission"}],"default":true,"enabled":true,"rule_id":".m.rule.is_room_mention"},{"actions":["notify",{"set_tweak":"highlight"}],"conditions":[{"key":"content.body","kind":"event_match","pattern":"@room"},{"key":"room","kind":"sender_notification_permission"}],"default":true,"enabled":true,"rule_id":".m.rule.roomnotif"},{"actions":["notify",{"set_tweak":"highlight"}],"conditions":[{"key":"type","kind":"event_match","pattern":"m.room.tombstone"},{"key":"state_key","kind":"event_match","pattern":""}],"default":true,"enabled":true,"rule_id":".m.rule.tombstone"},{"actions":[],"conditions":[{"key":"type","kind":"event_match","pattern":"m.reaction"}],"default":true,"enabled":true,"rule_id":".m.rule.reaction"},{"actions":[],"conditions":[{"key":"content.m\\.relates_to.rel_type","kind":"event_property_is","value":"m.replace"}],"default":true,"enabled":true,"rule_id":".m.rule.suppress_edits"}],"room":[],"sender":[],"underride":[{"actions":["notify",{"set_tweak":"sound","value":"ring"}],"conditions":[{"key":"type","kind":"event_match","pattern":"m.call.invite"}],"default":true,"enabled":true,"rule_id":".m.rule.call"},{"actions":["notify",{"set_tweak":"sound","value":"default"}],"conditions":[{"is":"2","kind":"room_member_count"},{"key":"type","kind":"event_match","pattern":"m.room.message"}],"default":true,"enabled":true,"rule_id":".m.rule.room_one_to_one"},{"actions":["notify"],"conditions":[{"key":"type","kind":"event_match","pattern":"m.room.message"}],"default":true,"enabled":true,"rule_id":".m.rule.message"}]}}"#
    );
}

#[test]
fn the_first_fault_is_answered(rt: HostRuntime) {
    let rows = r#"[
        ["put", "room", ".r", {}, "x", "x", "default"],
        ["remove", "override", ".m.rule.master", null, null, null, "default"],
        ["remove", "room", ".r", null, null, null, "default"],
        ["remove", "room", "r", null, null, null, "rule"],
        ["enable", "override", ".m.rule.reaction", false, null, null, ""],
        ["enable", "underride", ".m.rule.reaction", false, null, null, "rule"],
        ["act", "room", "r", 1, null, null, "rule"],
        ["act", "override", ".m.rule.master", 1, null, null, "action"],
        ["act", "override", ".m.rule.master", ["notify", "coalesce", "dont_notify", {"set_tweak":"x"}], null, null, ""],
        ["act", "override", ".m.rule.master", ["Notify"], null, null, "action"],
        ["act", "override", ".m.rule.master", [{"set_tweak":1}], null, null, "action"],
        ["put", "content", "w", {"actions":[]}, null, null, "condition"],
        ["put", "content", "w", {"pattern":1}, null, null, "condition"],
        ["put", "content", "w", {"pattern":"w"}, "x", null, "action"],
        ["put", "room", "r", {}, "x", null, "action"],
        ["put", "room", "r", {"actions":[]}, "x", "x", "before"],
        ["put", "room", "r", {"actions":[]}, null, "x", "after"],
        ["put", "room", "r", {"actions":[]}, "r", null, "before"],
        ["put", "override", "o", {"actions":[]}, ".m.rule.master", null, "before"],
        ["put", "override", "o", {"actions":[],"conditions":{}}, null, null, "condition"],
        ["put", "override", "o", {"actions":[],"conditions":[{}]}, null, null, "condition"],
        ["put", "override", "o", {"actions":[],"conditions":[{"kind":"unknown"}]}, null, null, ""],
        ["put", "underride", "u", {"actions":[],"conditions":[{"kind":"event_match","key":"a"}]}, null, null, "condition"],
        ["put", "underride", "u", {"actions":[],"conditions":[{"kind":"event_property_is","key":"a","value":[]}]}, null, null, "condition"],
        ["put", "underride", "u", {"actions":[],"conditions":[{"kind":"event_property_is","key":"a"}]}, null, null, "condition"],
        ["put", "underride", "u", {"actions":[],"conditions":[{"kind":"event_property_contains","key":"a","value":null}]}, null, null, ""],
        ["put", "underride", "u", {"actions":[],"conditions":[{"kind":"sender_notification_permission"}]}, null, null, "condition"],
        ["put", "underride", "u", {"actions":[],"conditions":[{"kind":"room_member_count","is":2}]}, null, null, "condition"],
        ["put", "underride", "u", {"actions":[],"conditions":[{"kind":"room_member_count","is":"02"}]}, null, null, "condition"],
        ["put", "underride", "u", {"actions":[],"conditions":[{"kind":"room_member_count","is":"=2"}]}, null, null, "condition"],
        ["put", "underride", "u", {"actions":[],"conditions":[{"kind":"room_member_count","is":"<"}]}, null, null, "condition"],
        ["put", "underride", "u", {"actions":[],"conditions":[{"kind":"room_member_count","is":"<=20"}]}, null, null, ""],
        ["put", "underride", "u", {"actions":[],"conditions":[{"kind":"room_member_count","is":"==0"}]}, null, null, ""],
        ["remove", "underride", "u", null, null, null, ""],
        ["remove", "underride", "u", null, null, null, "rule"]
    ]"#;
    mem::forget(after(&rt, rt.alloc(), rows));
}

#[test]
fn a_rule_stands_where_it_is_put(rt: HostRuntime) {
    let rows = r#"[
        ["put", "room", "a", {"actions":[]}, null, null, ""],
        ["put", "room", "b", {"actions":[]}, null, null, ""],
        ["put", "room", "c", {"actions":[]}, "a", null, ""],
        ["put", "room", "d", {"actions":[]}, null, "b", ""],
        ["put", "room", "e", {"actions":[]}, "b", "a", ""],
        ["enable", "room", "c", false, null, null, ""],
        ["put", "room", "c", {"actions":[]}, null, null, ""],
        ["put", "room", "d", {"actions":[]}, "d", "a", ""],
        ["put", "room", "e", {"actions":[]}, null, "a", ""],
        ["put", "sender", "a", {"actions":[]}, null, null, ""],
        ["put", "sender", "b", {"actions":[]}, null, "a", ""],
        ["put", "sender", "a", {"actions":[]}, null, "b", ""],
        ["put", "content", "w", {"actions":[],"pattern":"w"}, null, null, ""],
        ["put", "override", "o", {"actions":[]}, null, null, ""],
        ["put", "underride", "u", {"actions":[]}, null, null, ""],
        ["remove", "override", "o", null, null, null, ""],
        ["put", "override", "p", {"actions":[]}, null, null, ""]
    ]"#;
    let orders = r#"[
        ["room", " b d -c a e"],
        ["sender", " b a"],
        ["content", " w .m.rule.contains_user_name"],
        ["underride", " u .m.rule.call .m.rule.room_one_to_one .m.rule.message"],
        ["override", " -.m.rule.master p .m.rule.suppress_notices .m.rule.invite_for_me .m.rule.member_event .m.rule.is_user_mention .m.rule.contains_display_name .m.rule.is_room_mention .m.rule.roomnotif .m.rule.tombstone .m.rule.reaction .m.rule.suppress_edits"]
    ]"#;
    let rules = after(&rt, rt.alloc(), rows);
    expect_orders(&rt, rt.alloc(), &rules, orders);
    mem::forget(rules);
}

/// Whether the rules of a content are read, and are then written as this content.
fn reads_back(rt: &impl Abort, alloc: Global, content: &Json) -> bool {
    match RuleSet::from_json(alloc, content).expect(rt, "memory") {
        Some(rules) => {
            let again = written(rt, alloc, &rules);
            mem::forget(rules);
            again.as_str() == text_of(rt, alloc, content).as_str()
        }
        None => false,
    }
}

fn text_of(rt: &impl Abort, alloc: Global, json: &Json) -> Text {
    let mut text = Text::new(alloc);
    json.write(alloc, &mut text).expect(rt, "memory");
    text
}

/// Whether the content of a row is read where the row says so.
fn is_so(rt: &impl Abort, alloc: Global, row: &Json) -> bool {
    reads_back(rt, alloc, at(rt, row, 0)) == bool_in(rt, row, 1)
}

#[test]
fn a_content_is_read_where_it_is_of_rules(rt: HostRuntime) {
    let rows = json(
        &rt,
        rt.alloc(),
        r#"[
        [{"global":{"content":[],"override":[],"room":[],"sender":[],"underride":[]}}, true],
        [{"global":{"content":[{"actions":[1],"default":false,"enabled":true,"pattern":"p","rule_id":"a"}],"override":[{"actions":[],"conditions":[{}],"default":true,"enabled":false,"rule_id":".b"}],"room":[{"actions":[],"default":false,"enabled":true,"rule_id":"a"},{"actions":[],"default":false,"enabled":true,"rule_id":"b"}],"sender":[{"actions":[],"default":false,"enabled":true,"rule_id":"a"}],"underride":[]}}, true],
        [{"global":{"content":[],"override":[],"room":[{"actions":[],"default":false,"enabled":true,"rule_id":"a"},{"actions":[1],"default":false,"enabled":true,"rule_id":"a"}],"sender":[],"underride":[]}}, false],
        [{"global":{"content":[],"override":[{"actions":[],"default":false,"enabled":true,"rule_id":"a"}],"room":[],"sender":[],"underride":[]}}, false],
        [{"global":{"content":[],"override":[],"room":[{"actions":[],"default":false,"enabled":1,"rule_id":"a"}],"sender":[],"underride":[]}}, false],
        [{"global":{"content":[],"override":[],"room":[{"actions":[],"default":false,"enabled":true,"rule_id":"a","x":1}],"sender":[],"underride":[]}}, false],
        [{"global":{"content":[],"override":[],"room":[],"sender":[]}}, false],
        [{"global":{"content":[],"override":[],"room":[],"sender":[],"underride":[]},"x":1}, false],
        [[], false]
    ]"#,
    );
    for row in list(&rt, &rows) {
        assert!(&rt; is_so(&rt, rt.alloc(), row));
    }
}

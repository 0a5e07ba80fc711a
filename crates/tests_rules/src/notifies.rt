//! What push rules say of events. The rules are those of `@al:example.org`, whose display name is `Al Name`.
use crate::make::{al, at, default_rules, json, kind_of, list, str_in, text, text_in, user_in};
use mx_auth::AuthState;
use mx_event::Event;
use mx_ids::{Copied, EventId, RoomId, Text, UserId};
use mx_json::Json;
use mx_push::{Context, decide};
use mx_rules::RuleSet;
use std::alloc::Global;
use std::mem;
use std::process::Abort;

/// The event of a row: its type, its state key or `null`, its sender and its content.
fn event(rt: &impl Abort, alloc: Global, row: &Json) -> Event {
    let state_key = match at(rt, row, 1).as_text() {
        Some(key) => Some(key.copy(alloc).expect(rt, "memory")),
        None => None,
    };
    Event {
        id: EventId { at: 7 },
        room: RoomId { writer: 1, at: 2 },
        kind: text_in(rt, alloc, row, 0),
        state_key,
        sender: user_in(rt, alloc, row, 2),
        content: at(rt, row, 3).copy(alloc).expect(rt, "memory"),
        ts: 1000,
        txn: None,
        has_url: false,
    }
}

fn name_of(is_highlight: bool) -> &'static str {
    if is_highlight { "highlight" } else { "notify" }
}

/// The user of whom the rules are, with its display name, and the state of the room. It is forgotten and not dropped, since
/// that drop would stand in the proof of each function that owns one.
#[derive(Drop)]
struct Owner {
    user: UserId,
    name: Text,
    rules: RuleSet,
    state: AuthState,
}

/// What the rules say of an event in a room with so many members.
fn said(owner: &Owner, event: &Event, joined: u64) -> &'static str {
    let context = Context {
        user: &owner.user,
        name: Some(&owner.name),
        joined,
        state: &owner.state,
        room: "!1_2:example.org",
        event_id: "$7:example.org",
    };
    match decide(&owner.rules, event, &context) {
        Some(notify) => name_of(notify.highlight),
        None => "",
    }
}

/// Whether the rules say of the event of a row, in a room with as many members as the row says, what the row says.
fn is_said(rt: &impl Abort, alloc: Global, owner: &Owner, row: &Json) -> bool {
    let joined = at(rt, row, 4).as_int().expect(rt, "a number");
    let event = event(rt, alloc, row);
    let found = said(owner, &event, joined.unsigned_abs());
    mem::forget(event);
    found == str_in(rt, row, 5)
}

/// A room in which `@bo:example.org` has the level 50 and `@di:example.org` 40, the one that notifying the team needs.
fn state(rt: &impl Abort, alloc: Global) -> AuthState {
    let levels = json(
        rt,
        alloc,
        r#"["m.room.power_levels", "", "@bo:example.org", {"notifications":{"team":40},"users":{"@bo:example.org":50,"@di:example.org":40}}]"#,
    );
    let levels = event(rt, alloc, &levels);
    let mut state = AuthState::empty(alloc);
    state.take(&levels).expect(rt, "memory");
    mem::forget(levels);
    state
}

/// The user of a display name in that room, with the default rules.
fn named(rt: &impl Abort, alloc: Global, name: &str) -> Owner {
    Owner {
        user: al(rt, alloc),
        name: text(rt, alloc, name),
        rules: default_rules(rt, alloc),
        state: state(rt, alloc),
    }
}

/// Puts the rule of a row: a kind, an id and a body.
fn put(rt: &impl Abort, alloc: Global, rules: &mut RuleSet, row: &Json) {
    let kind = kind_of(str_in(rt, row, 0));
    let id = text_in(rt, alloc, row, 1);
    let put = rules.put(alloc, kind, &id, at(rt, row, 2), None, None);
    put.expect(rt, "a rule");
}

fn put_all(rt: &impl Abort, alloc: Global, rules: &mut RuleSet, rows: &str) {
    let rows = json(rt, alloc, rows);
    for row in list(rt, &rows) {
        put(rt, alloc, rules, row);
    }
}

/// Whether the rules say of the event of each row what the row says.
fn all_said(rt: &impl Abort, alloc: Global, owner: &Owner, rows: &str) -> bool {
    let rows = json(rt, alloc, rows);
    let mut right = true;
    for row in list(rt, &rows) {
        if !is_said(rt, alloc, owner, row) {
            right = false;
        }
    }
    right
}

/// Whether the default rules with those of `puts` say of each event of `rows` what its row says.
fn are_said(rt: &impl Abort, alloc: Global, puts: &str, rows: &str) -> bool {
    are_said_to(rt, alloc, "Al Name", puts, rows)
}

/// The same for a user of another display name.
fn are_said_to(rt: &impl Abort, alloc: Global, name: &str, puts: &str, rows: &str) -> bool {
    let mut owner = named(rt, alloc, name);
    put_all(rt, alloc, &mut owner.rules, puts);
    let right = all_said(rt, alloc, &owner, rows);
    mem::forget(owner);
    right
}

#[test]
fn each_default_rule_has_its_event(rt: HostRuntime) {
    let rows = r#"[
        ["m.room.message", null, "@al:example.org", {"body":"hello"}, 3, ""],
        ["m.room.message", null, "@bo:example.org", {"body":"al","msgtype":"m.notice"}, 3, ""],
        ["m.room.member", "@al:example.org", "@bo:example.org", {"membership":"invite"}, 1, "notify"],
        ["m.room.member", "@bo:example.org", "@bo:example.org", {"membership":"join"}, 3, ""],
        ["m.room.message", null, "@bo:example.org", {"m.mentions":{"user_ids":["@x:example.org","@al:example.org"]}}, 3, "highlight"],
        ["m.room.message", null, "@bo:example.org", {"m.mentions":{"user_ids":["@x:example.org"]},"body":"al"}, 3, "notify"],
        ["m.room.message", null, "@bo:example.org", {"body":"oh, Al Name!"}, 3, "highlight"],
        ["m.room.topic", "", "@bo:example.org", {"body":"oh, Al Names"}, 3, "highlight"],
        ["m.room.topic", "", "@bo:example.org", {"body":"oh, Als Name"}, 3, ""],
        ["m.room.message", null, "@bo:example.org", {"m.mentions":{"room":true}}, 3, "highlight"],
        ["m.room.message", null, "@cy:example.org", {"m.mentions":{"room":true}}, 3, "notify"],
        ["m.room.message", null, "@bo:example.org", {"body":"now @room!"}, 3, "highlight"],
        ["m.room.message", null, "@cy:example.org", {"body":"now @room!"}, 3, "notify"],
        ["m.room.tombstone", "", "@bo:example.org", {}, 3, "highlight"],
        ["m.room.tombstone", "x", "@bo:example.org", {}, 3, ""],
        ["m.reaction", null, "@bo:example.org", {"body":"al"}, 3, ""],
        ["m.room.message", null, "@bo:example.org", {"body":"al","m.relates_to":{"rel_type":"m.replace"}}, 3, ""],
        ["m.room.message", null, "@bo:example.org", {"body":"hi AL!"}, 3, "highlight"],
        ["m.room.message", null, "@bo:example.org", {"body":"malice"}, 3, "notify"],
        ["m.call.invite", null, "@bo:example.org", {}, 3, "notify"],
        ["m.room.message", null, "@bo:example.org", {}, 2, "notify"],
        ["m.room.topic", "", "@bo:example.org", {}, 2, ""],
        ["m.room.message", null, "@bo:example.org", {"body":"oh, Al Name!","m.mentions":{}}, 3, "notify"],
        ["m.room.message", null, "@bo:example.org", {"body":"now @room!","m.mentions":{}}, 3, "notify"],
        ["m.room.message", null, "@bo:example.org", {"m.mentions":{"room":false}}, 3, "notify"],
        ["m.room.topic", "", "@bo:example.org", {"body":"oh, xAl Name"}, 3, ""]
    ]"#;
    assert!(&rt; are_said(&rt, rt.alloc(), "[]", rows));
}

#[test]
fn the_first_rule_that_matches_decides(rt: HostRuntime) {
    let puts = r#"[
        ["override", "few", {"actions":[],"conditions":[{"kind":"room_member_count","is":"<3"},{"kind":"event_match","key":"type","pattern":"a.*"}]}],
        ["override", "many", {"actions":["notify"],"conditions":[{"kind":"room_member_count","is":">=99999999999999999999"}]}],
        ["override", "exact", {"actions":["notify",{"set_tweak":"highlight","value":false}],"conditions":[{"kind":"event_property_is","key":"content.n","value":7},{"kind":"event_match","key":"room_id","pattern":"!1_2:*"}]}],
        ["override", "unknown", {"actions":["notify"],"conditions":[{"kind":"org.example.new"}]}],
        ["content", "alice", {"actions":["notify",{"set_tweak":"highlight"}],"pattern":"al?ce"}],
        ["sender", "@bo:example.org", {"actions":["notify"]}],
        ["room", "!1_2:example.org", {"actions":[]}],
        ["underride", "all", {"actions":["notify"]}]
    ]"#;
    let rows = r#"[
        ["a.b", null, "@cy:example.org", {"body":"alice"}, 2, ""],
        ["a.b", null, "@cy:example.org", {"body":"alice"}, 3, "highlight"],
        ["b.a", null, "@cy:example.org", {"body":"ALxCE."}, 2, "highlight"],
        ["b.a", null, "@bo:example.org", {"body":"malice"}, 3, ""],
        ["b.a", null, "@bo:example.org", {"body":"alices","n":"7"}, 3, ""],
        ["b.a", null, "@bo:example.org", {"body":"alice","n":7}, 3, "notify"]
    ]"#;
    assert!(&rt; are_said(&rt, rt.alloc(), puts, rows));
}

#[test]
fn an_override_rule_of_the_user_comes_before_the_default_ones(rt: HostRuntime) {
    let puts = r#"[
        ["override", "seven", {"actions":["notify"],"conditions":[{"kind":"event_property_is","key":"content.n","value":7}]}]
    ]"#;
    let rows = r#"[
        ["m.room.message", null, "@bo:example.org", {"body":"x","msgtype":"m.notice"}, 3, ""],
        ["m.room.message", null, "@bo:example.org", {"body":"x","msgtype":"m.notice","n":7}, 3, "notify"],
        ["m.room.message", null, "@bo:example.org", {"body":"now @room!"}, 3, "highlight"],
        ["m.room.message", null, "@bo:example.org", {"body":"now @room!","n":7}, 3, "notify"],
        ["m.reaction", null, "@bo:example.org", {"n":7}, 3, "notify"],
        ["m.reaction", null, "@al:example.org", {"n":7}, 3, ""]
    ]"#;
    assert!(&rt; are_said(&rt, rt.alloc(), puts, rows));
}

#[test]
fn rules_of_a_room_and_of_a_sender_match_by_their_ids(rt: HostRuntime) {
    let puts = r#"[
        ["sender", "@bo:example.org", {"actions":["notify",{"set_tweak":"highlight"}]}],
        ["sender", "@di:example.org", {"actions":[]}],
        ["room", "!1-2:example.org", {"actions":[]}]
    ]"#;
    let rows = r#"[
        ["m.room.message", null, "@bo:example.org", {"body":"x"}, 3, "highlight"],
        ["m.room.topic", "", "@bo:example.org", {"topic":"x"}, 3, "highlight"],
        ["m.room.message", null, "@cy:example.org", {"body":"x"}, 3, "notify"],
        ["m.room.message", null, "@di:example.org", {"body":"x"}, 3, ""],
        ["m.room.message", null, "@di:example.org", {"body":"hi al"}, 3, "highlight"]
    ]"#;
    assert!(&rt; are_said(&rt, rt.alloc(), puts, rows));
    let room =
        r#"[["sender", "@bo:example.org", {"actions":["notify"]}], ["room", "!1_2:example.org", {"actions":[]}]]"#;
    let silent = r#"[["m.room.message", null, "@bo:example.org", {"body":"x"}, 3, ""]]"#;
    assert!(&rt; are_said(&rt, rt.alloc(), room, silent));
}

#[test]
fn a_sender_may_notify_by_the_level_of_the_key(rt: HostRuntime) {
    let puts = r#"[
        ["override", "team", {"actions":["notify",{"set_tweak":"highlight"}],"conditions":[{"kind":"event_match","key":"type","pattern":"org.example.team"},{"kind":"sender_notification_permission","key":"team"}]}]
    ]"#;
    let rows = r#"[
        ["org.example.team", null, "@bo:example.org", {}, 3, "highlight"],
        ["org.example.team", null, "@di:example.org", {}, 3, "highlight"],
        ["org.example.team", null, "@cy:example.org", {}, 3, ""],
        ["m.room.message", null, "@bo:example.org", {"m.mentions":{"room":true}}, 3, "highlight"],
        ["m.room.message", null, "@di:example.org", {"m.mentions":{"room":true}}, 3, "notify"]
    ]"#;
    assert!(&rt; are_said(&rt, rt.alloc(), puts, rows));
}

#[test]
fn a_name_stands_between_word_boundaries(rt: HostRuntime) {
    let puts = r#"[["content", "al", {"actions":[],"pattern":"al"}]]"#;
    let rows = r#"[
        ["m.room.topic", "", "@bo:example.org", {"body":"oh, Al Name"}, 3, "highlight"],
        ["m.room.topic", "", "@bo:example.org", {"body":"oh, Al Names"}, 3, ""]
    ]"#;
    assert!(&rt; are_said(&rt, rt.alloc(), puts, rows));
    let unnamed = r#"[["m.room.topic", "", "@bo:example.org", {"body":"oh"}, 3, ""]]"#;
    assert!(&rt; are_said_to(&rt, rt.alloc(), "", puts, unnamed));
}

#[test]
fn a_count_stands_by_its_sign(rt: HostRuntime) {
    let puts = r#"[
        ["override", "le", {"actions":["notify"],"conditions":[{"kind":"room_member_count","is":"<=3"},{"kind":"event_match","key":"type","pattern":"a.le"}]}],
        ["override", "gt", {"actions":["notify"],"conditions":[{"kind":"room_member_count","is":">3"},{"kind":"event_match","key":"type","pattern":"a.gt"}]}],
        ["override", "ge", {"actions":["notify"],"conditions":[{"kind":"room_member_count","is":">=3"},{"kind":"event_match","key":"type","pattern":"a.ge"}]}],
        ["override", "eq", {"actions":["notify"],"conditions":[{"kind":"room_member_count","is":"==3"},{"kind":"event_match","key":"type","pattern":"a.eq"}]}],
        ["override", "loud", {"actions":["notify",{"set_tweak":"highlight","value":true}],"conditions":[{"kind":"event_match","key":"type","pattern":"A.LOUD"}]}]
    ]"#;
    let rows = r#"[
        ["a.le", null, "@bo:example.org", {}, 3, "notify"],
        ["a.le", null, "@bo:example.org", {}, 4, ""],
        ["a.gt", null, "@bo:example.org", {}, 3, ""],
        ["a.gt", null, "@bo:example.org", {}, 4, "notify"],
        ["a.ge", null, "@bo:example.org", {}, 3, "notify"],
        ["a.ge", null, "@bo:example.org", {}, 2, ""],
        ["a.eq", null, "@bo:example.org", {}, 3, "notify"],
        ["a.eq", null, "@bo:example.org", {}, 2, ""],
        ["a.loud", null, "@bo:example.org", {}, 3, "highlight"]
    ]"#;
    assert!(&rt; are_said(&rt, rt.alloc(), puts, rows));
}

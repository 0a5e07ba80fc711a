//! What calls on rooms ask.
use crate::asking::{Routes, all_ask};
use crate::room_asks::is_room_ask;
use mx_api::Asked;
use mx_api_room::{RoomRoutes, ask_room, room_routes};
use mx_ask::Ask;
use mx_http::Call;
use mx_ids::Memory;
use mx_json::Json;
use mx_users::Directory;
use std::alloc::Global;
use std::process::Abort;

impl Routes for RoomRoutes {
    fn ask(&self, alloc: Global, call: &Call, users: &Directory) -> Result<Asked, Memory> {
        ask_room(alloc, self, call, users)
    }

    fn is_ask<A: Abort>(rt: &A, row: &Json, ask: &Ask) -> bool {
        is_room_ask(rt, row, ask)
    }
}

#[test]
fn the_first_refusal_is_told_in_order(rt: HostRuntime) {
    let rows = r#"[
        ["POST", "/rooms", "secret", "", null],
        ["POST", "/rooms//join", "secret", "", null],
        ["PUT", "/rooms/r/state//k", "secret", "{}", null],
        ["GET", "/createRoom", null, "", [405, "M_UNRECOGNIZED", "no such method"]],
        ["POST", "/rooms/%FF/state/a", null, "", [405, "M_UNRECOGNIZED", "no such method"]],
        ["POST", "/rooms/%FF/join", null, "", [401, "M_MISSING_TOKEN", "missing token"]],
        ["POST", "/rooms/%FF/join", "nobody", "", [401, "M_UNKNOWN_TOKEN", "unknown token"]],
        ["POST", "/rooms/%FF/join", "secret", "x", [400, "M_INVALID_PARAM", "invalid parameter: path"]],
        ["PUT", "/rooms/r/send/a/%C3", "secret", "x", [400, "M_INVALID_PARAM", "invalid parameter: path"]],
        ["POST", "/createRoom", "secret", "x", [400, "M_NOT_JSON", "not JSON"]],
        ["PUT", "/rooms/r/send/a/t", "secret", "", [400, "M_NOT_JSON", "not JSON"]],
        ["PUT", "/rooms/r/state/a", "secret", "1.5", [400, "M_BAD_JSON", "bad JSON: fraction"]],
        ["PUT", "/rooms/r/redact/e/t", "secret", "9007199254740992", [400, "M_BAD_JSON", "bad JSON: integer out of range"]],
        ["PUT", "/rooms/r/state/a/k", "secret", "[[[[[[[[[[[[[[[[[[[[[[[[[[[[[[[[[[[[[[[[[[[[[[[[[[[[[[[[[[[[[[[[[[[[[[[[[[[[[[[[[[[[[[[[[[[[[[[[[[[[[]]]]]]]]]]]]]]]]]]]]]]]]]]]]]]]]]]]]]]]]]]]]]]]]]]]]]]]]]]]]]]]]]]]]]]]]]]]]]]]]]]]]]]]]]]]]]]]]]]]]]", [400, "M_BAD_JSON", "bad JSON: nested too deep"]],
        ["PUT", "/rooms/r/state/a/k", "secret", "[[[[[[[[[[[[[[[[[[[[[[[[[[[[[[[[[[[[[[[[[[[[[[[[[[[[[[[[[[[[[[[[[[[[[[[[[[[[[[[[[[[[[[[[[[[[[[[[[[[[]]]]]]]]]]]]]]]]]]]]]]]]]]]]]]]]]]]]]]]]]]]]]]]]]]]]]]]]]]]]]]]]]]]]]]]]]]]]]]]]]]]]]]]]]]]]]]]]]]]]", [400, "M_BAD_JSON", "bad JSON: body"]],
        ["PUT", "/rooms/r/state/a/k", "secret", "[]", [400, "M_BAD_JSON", "bad JSON: body"]],
        ["POST", "/createRoom", "secret", "[]", [400, "M_BAD_JSON", "bad JSON: body"]],
        ["POST", "/createRoom", "secret", "{\"invite\":1,\"initial_state\":1}", [400, "M_BAD_JSON", "bad JSON: initial_state"]],
        ["POST", "/createRoom", "secret", "{\"invite\":[1]}", [400, "M_BAD_JSON", "bad JSON: invite"]],
        ["POST", "/rooms/r/leave", "secret", "1", [400, "M_BAD_JSON", "bad JSON: body"]],
        ["POST", "/rooms/r/invite", "secret", "", [400, "M_BAD_JSON", "bad JSON: user_id"]],
        ["POST", "/rooms/r/ban", "secret", "{\"user_id\":1}", [400, "M_BAD_JSON", "bad JSON: user_id"]]
    ]"#;
    let routes = room_routes(rt.alloc()).expect(&rt, "routes");
    all_ask(&rt, rt.alloc(), routes, rows);
}

#[test]
fn a_call_on_a_room_asks(rt: HostRuntime) {
    let rows = r#"[
        ["POST", "/createRoom", "secret", "", ["create", "none"]],
        ["POST", "/createRoom", "secret", "{\"body\":\"b\"}", ["create", "b"]],
        ["PUT", "/rooms/%21r/send/m.room.message/t%2F1", "secret", "{\"body\":\"b\"}", ["send", "!r", "m.room.message", "t/1", "!r", "send", "m.room.message", "b"]],
        ["PUT", "/rooms/r/redact/%24e/t", "secret", "{\"reason\":\"why\"}", ["redact", "r", "$e", "t", "r", "redact", "$e", "why"]],
        ["PUT", "/rooms/r/state/a/k", "secret", "{\"body\":\"b\"}", ["state", "r", "a", "k", "b"]],
        ["PUT", "/rooms/r/state/a/", "secret", "{}", ["state", "r", "a", "", "none"]],
        ["PUT", "/rooms/r/state/a", "secret", "{}", ["state", "r", "a", "", "none"]],
        ["GET", "/rooms/r/state/a/k%2F", "secret", "x", ["get", "r", "a", "k/"]],
        ["GET", "/rooms/r/state/a/", "secret", "", ["get", "r", "a", ""]],
        ["GET", "/rooms/r/state/a", "secret", "", ["get", "r", "a", ""]],
        ["POST", "/join/r", "secret", "", ["join", "r", "none"]],
        ["POST", "/rooms/r/join", "secret", "{\"reason\":\"why\"}", ["join", "r", "why"]],
        ["POST", "/rooms/r/leave", "secret", "{\"reason\":1}", ["leave", "r", "none"]],
        ["POST", "/rooms/r/invite", "secret", "{\"user_id\":\"@b:x\"}", ["invite", "r", "@b:x", "none"]],
        ["POST", "/rooms/r/kick", "secret", "{\"user_id\":\"@b:x\",\"reason\":\"why\"}", ["kick", "r", "@b:x", "why"]],
        ["POST", "/rooms/r/ban", "secret", "{\"user_id\":\"@b:x\"}", ["ban", "r", "@b:x", "none"]],
        ["POST", "/rooms/r/unban", "secret", "{\"user_id\":\"@b:x\"}", ["unban", "r", "@b:x", "none"]]
    ]"#;
    let routes = room_routes(rt.alloc()).expect(&rt, "routes");
    all_ask(&rt, rt.alloc(), routes, rows);
}

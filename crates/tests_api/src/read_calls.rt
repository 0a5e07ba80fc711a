//! What calls that read rooms ask.
use crate::asking::{Routes, all_ask};
use crate::read_asks::is_read_ask;
use mx_api::Asked;
use mx_api_reads::{ReadRoutes, ask_read, read_routes};
use mx_ask::Ask;
use mx_http::Call;
use mx_ids::Memory;
use mx_json::Json;
use mx_users::Directory;
use std::alloc::Global;
use std::process::Abort;

impl Routes for ReadRoutes {
    fn ask(&self, alloc: Global, call: &Call, users: &Directory) -> Result<Asked, Memory> {
        ask_read(alloc, self, call, users)
    }

    fn is_ask<A: Abort>(rt: &A, row: &Json, ask: &Ask) -> bool {
        is_read_ask(rt, row, ask)
    }
}

#[test]
fn the_first_refusal_is_told_in_order(rt: HostRuntime) {
    let rows = r#"[
        ["GET", "/rooms/r", "secret", "", null],
        ["GET", "/rooms/r/state/a", "secret", "", null],
        ["GET", "/rooms//members", "secret", "", null],
        ["PUT", "/rooms/r/messages", null, "", [405, "M_UNRECOGNIZED", "no such method"]],
        ["GET", "/rooms/%FF/messages", null, "", [401, "M_MISSING_TOKEN", "missing token"]],
        ["GET", "/rooms/%FF/messages", "secret", "", [400, "M_INVALID_PARAM", "invalid parameter: path"]],
        ["POST", "/rooms/r/receipt/m.other/e", "secret", "x", [400, "M_INVALID_PARAM", "invalid parameter: path"]],
        ["POST", "/rooms/r/receipt/m.read/e", "secret", "x", [400, "M_NOT_JSON", "not JSON"]],
        ["POST", "/rooms/r/receipt/m.read/e", "secret", "[]", [400, "M_BAD_JSON", "bad JSON: body"]]
    ]"#;
    let routes = read_routes(rt.alloc()).expect(&rt, "routes");
    all_ask(&rt, rt.alloc(), routes, rows);
}

#[test]
fn the_parameters_of_a_page_are_judged_in_order(rt: HostRuntime) {
    let rows = r#"[
        ["GET", "/rooms/r/messages?from=x", "secret", "", [400, "M_MISSING_PARAM", "missing parameter: dir"]],
        ["GET", "/rooms/r/messages?dir=x", "secret", "", [400, "M_INVALID_PARAM", "invalid parameter: dir"]],
        ["GET", "/rooms/r/messages?from=x&dir=x", "secret", "", [400, "M_INVALID_PARAM", "invalid parameter: from"]],
        ["GET", "/rooms/r/messages?to=s1_0_0_0_2&from=x&dir=f", "secret", "", [400, "M_INVALID_PARAM", "invalid parameter: to"]],
        ["GET", "/rooms/r/messages?limit=&dir=f", "secret", "", [400, "M_INVALID_PARAM", "invalid parameter: limit"]],
        ["GET", "/rooms/r/messages?limit=-1&dir=f", "secret", "", [400, "M_INVALID_PARAM", "invalid parameter: limit"]],
        ["GET", "/rooms/r/messages?filter=12&dir=f", "secret", "", [400, "M_INVALID_PARAM", "invalid parameter: filter"]],
        ["GET", "/rooms/r/messages?filter=%7B&limit=x&dir=f", "secret", "", [400, "M_INVALID_PARAM", "invalid parameter: limit"]],
        ["GET", "/rooms/r/messages?filter=%7B&dir=f", "secret", "", [400, "M_NOT_JSON", "not JSON"]],
        ["GET", "/rooms/r/messages?filter={\"limit\":0.5}&dir=f", "secret", "", [400, "M_BAD_JSON", "bad JSON: fraction"]],
        ["GET", "/rooms/r/messages?filter={\"limit\":9007199254740992}&dir=f", "secret", "", [400, "M_BAD_JSON", "bad JSON: integer out of range"]],
        ["GET", "/rooms/r/messages?filter={\"types\":1,\"senders\":1}&dir=f", "secret", "", [400, "M_BAD_JSON", "bad JSON: senders"]],
        ["GET", "/rooms/r/messages?dir=f&dir=x&limit=7&limit=x", "secret", "", ["page", "r", "f", "none", "none", "7", "all"]],
        ["GET", "/rooms/r/messages?dir=b&from=s5_4_3_2_1&to=p3_4", "secret", "", ["page", "r", "b", "s5", "p3", "10", "all"]],
        ["GET", "/rooms/r/messages?dir=b&limit=0007&from=p3_4", "secret", "", ["page", "r", "b", "p3", "none", "7", "all"]],
        ["GET", "/rooms/r/messages?dir=b&limit=18446744073709551623", "secret", "", ["page", "r", "b", "none", "none", "1000", "all"]],
        ["GET", "/rooms/r/messages?dir=b&other=x&filter={\"lazy_load_members\":true}", "secret", "", ["page", "r", "b", "none", "none", "10", "lazy"]]
    ]"#;
    let routes = read_routes(rt.alloc()).expect(&rt, "routes");
    all_ask(&rt, rt.alloc(), routes, rows);
}

#[test]
fn a_call_that_reads_asks(rt: HostRuntime) {
    let rows = r#"[
        ["GET", "/joined_rooms", "secret", "x", ["joined"]],
        ["GET", "/rooms/%21r/state", "secret", "", ["all", "!r"]],
        ["GET", "/rooms/r/members", "secret", "", ["members", "r", "none", "none"]],
        ["GET", "/rooms/r/members?not_membership=ban&membership=join&membership=x", "secret", "", ["members", "r", "join", "ban"]],
        ["GET", "/rooms/r/event/%24e", "secret", "", ["event", "r", "$e"]],
        ["POST", "/rooms/r/receipt/m.read/e", "secret", "", ["receipt", "r", "read", "e"]],
        ["POST", "/rooms/r/receipt/m.read.private/e", "secret", "{}", ["receipt", "r", "private", "e"]],
        ["POST", "/rooms/r/receipt/m.fully_read/e", "secret", "{}", ["receipt", "r", "fully", "e"]]
    ]"#;
    let routes = read_routes(rt.alloc()).expect(&rt, "routes");
    all_ask(&rt, rt.alloc(), routes, rows);
}

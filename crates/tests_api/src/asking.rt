//! Whether calls ask what the rows of a table say.
use crate::make::{at, call, json, list, users};
use crate::told::told;
use mx_api::Asked;
use mx_ask::Ask;
use mx_http::Call;
use mx_ids::Memory;
use mx_json::Json;
use mx_users::Directory;
use std::alloc::Global;
use std::mem;
use std::process::Abort;

/// The routes of a crate.
pub trait Routes {
    /// What a call asks.
    fn ask(&self, alloc: Global, call: &Call, users: &Directory) -> Result<Asked, Memory>;

    /// Whether this is what a row says.
    fn is_ask<A: Abort>(rt: &A, row: &Json, ask: &Ask) -> bool;
}

/// Whether a call asks, or is refused, as a row says.
fn is_told<A: Abort, R: Routes>(rt: &A, alloc: Global, row: &Json, asked: &Asked) -> bool {
    match told(rt, alloc, row, asked) {
        Ok(ask) => R::is_ask(rt, row, ask),
        Err(is_refused) => is_refused,
    }
}

/// Whether the call of a row asks what the row says.
fn asks<A: Abort, R: Routes>(
    rt: &A,
    alloc: Global,
    routes: &R,
    users: &Directory,
    row: &Json,
) -> bool {
    let call = call(rt, alloc, row);
    let asked = routes.ask(alloc, &call, users).expect(rt, "memory");
    let is_so = is_told::<A, R>(rt, alloc, at(rt, row, 4), &asked);
    // (the proof of its drop takes minutes, and no test is about it)
    mem::forget(asked);
    drop(call);
    is_so
}

/// Whether the calls of all rows ask what the rows say.
fn all_are<A: Abort, R: Routes>(
    rt: &A,
    alloc: Global,
    routes: &R,
    users: &Directory,
    rows: &Json,
) -> bool {
    for row in list(rt, rows) {
        if !asks(rt, alloc, routes, users, row) {
            return false;
        }
    }
    true
}

/// The calls of the rows ask what the rows say.
pub fn all_ask<A: Abort, R: Routes + Drop>(rt: &A, alloc: Global, routes: R, rows: &str) {
    let users = users(rt, alloc);
    let rows = json(rt, alloc, rows);
    let are_so = all_are(rt, alloc, &routes, &users, &rows);
    drop(rows);
    drop(users);
    drop(routes);
    assert!(rt; are_so);
}

//! Receipts and account data: what a snapshot finds of them.

use crate::known::{accounts, receipts, snapshot};
use crate::rows::room;
use crate::scans::with;
use mx_account::Entry;
use mx_receipt::ReceiptKind;
use mx_snapshot::{Accounts, Receipts, Snapshot};
use std::alloc::Global;
use std::mem;
use std::process::Abort;
use std::test::*;

/// Receipts of three rooms that take turns: the room, the user, whether it is private, and the event.
const RECEIPTS: &str = r#"[
    [2,"@a:b",false,1], [3,"@a:b",false,1], [1,"@a:b",false,1],
    [2,"@a:b",false,1], [3,"@a:b",false,1], [1,"@a:b",false,1],
    [2,"@a:b",false,1], [3,"@a:b",false,1], [1,"@a:b",false,1],
    [2,"@a:b",true,1], [2,"@c:b",false,1], [2,"@a:b",false,1]]"#;

/// Account data of three rooms that take turns, and then global data: the user, the room or 0, the type and the content.
const DATA: &str = r#"[
    ["@a:b",2,"m.tag",null], ["@a:b",3,"m.tag",null], ["@a:b",1,"m.tag",null], ["@a:b",0,"m.tag",null],
    ["@a:b",2,"m.tag",null], ["@a:b",3,"m.tag",null], ["@a:b",1,"m.tag",null], ["@a:b",0,"m.tag",null],
    ["@a:b",2,"m.tag",null], ["@a:b",3,"m.tag",null], ["@a:b",1,"m.tag",null], ["@a:b",0,"m.tag",null]]"#;

/// A snapshot of these receipts and account data, and of no events.
fn known(rt: &impl Abort, alloc: Global) -> Snapshot {
    let receipts = receipts(rt, alloc, RECEIPTS).expect(rt, "memory");
    let accounts = accounts(rt, alloc, DATA).expect(rt, "memory");
    snapshot(alloc, &[], receipts, accounts).expect(rt, "memory")
}

fn receipts_digest(receipts: &Receipts, rt: &impl Abort, alloc: Global, low: u64) -> u64 {
    let found = receipts.of_room(alloc, &room(2), low, 100);
    let mut sum = 0u64;
    for receipt in &found.expect(rt, "memory") {
        sum = with(sum, receipt.at);
    }
    sum
}

fn last_data(accounts: &Accounts, global: bool, last: u64) -> u64 {
    let room = room(2);
    let asked = if global { None } else { Some(&room) };
    match accounts.last_of("@a:b", asked, "m.tag", last) {
        Some(Entry::Data { at, .. }) => *at,
        _ => 0,
    }
}

#[test]
fn receipts_are_found_by_room(rt: HostRuntime) {
    let known = known(&rt, rt.alloc());
    let wanted = with(with(with(with(with(0, 4), 7), 10), 11), 12);
    let found = receipts_digest(&known.receipts, &rt, rt.alloc(), 1);
    assert_eq!(&rt; found, wanted);
    assert_eq!(&rt; known.receipts.last_in(&room(2)), 12);
    assert_eq!(&rt; known.receipts.front(), 12);
    mem::forget(known);
}

/// The positions of a user's receipts in a room after the first, of one kind.
fn own_digest(receipts: &Receipts, rt: &impl Abort, alloc: Global, kind: ReceiptKind) -> u64 {
    let found = receipts.of_user(alloc, &room(2), "@a:b", kind, 1, 100);
    let mut sum = 0u64;
    for receipt in &found.expect(rt, "memory") {
        sum = with(sum, receipt.at);
    }
    sum
}

#[test]
fn receipts_are_found_by_room_user_and_kind(rt: HostRuntime) {
    let known = known(&rt, rt.alloc());
    let public = own_digest(&known.receipts, &rt, rt.alloc(), ReceiptKind::Read);
    assert_eq!(&rt; public, with(with(with(0, 4), 7), 12));
    let private = own_digest(&known.receipts, &rt, rt.alloc(), ReceiptKind::Private);
    assert_eq!(&rt; private, with(0, 10));
    mem::forget(known);
}

/// How many entries of a user there are after position 9.
fn newest(rt: &impl Abort, alloc: Global, accounts: &Accounts) -> usize {
    let found = accounts.of_user(alloc, "@a:b", 9, 12);
    found.expect(rt, "memory").len()
}

#[test]
fn account_data_are_found_by_user_room_and_type(rt: HostRuntime) {
    let known = known(&rt, rt.alloc());
    assert_eq!(&rt; last_data(&known.accounts, true, 11), 8);
    assert_eq!(&rt; last_data(&known.accounts, false, 8), 5);
    assert_eq!(&rt; newest(&rt, rt.alloc(), &known.accounts), 3);
    assert_eq!(&rt; known.accounts.last_in("@c:b"), 0);
    mem::forget(known);
}

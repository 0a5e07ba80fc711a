//! Snapshots of events, and of receipts and account data that the rows of texts list. A snapshot is forgotten and not dropped,
//! since the drop of its maps would stand in the proof of each function that owns one.

ghost use Rattle.std.specs.Prelude.{◌≡◌, true, IfOk, OnOk};
ghost use Rattle.mx_window.specs.Windows.{stand_from};
ghost use Rattle.mx_event.specs.Shown.{position_of};
ghost use Rattle.mx_account.specs.Entries as entries;
ghost use Rattle.mx_account.specs.Values as account;
ghost use Rattle.mx_receipt.specs.Receipts as receipt;

use crate::rows::{at, is_true, json, list, number_in, room, str_in, text, user};
use mx_account::Entry;
use mx_event::Event;
use mx_ids::{Copied, EventId, Memory, RoomId};
use mx_json::Json;
use mx_lanes::Parts;
use mx_receipt::{Receipt, ReceiptKind};
use mx_snapshot::Snapshot;
use std::alloc::Global;
use std::process::Abort;

fn kind_in(rt: &impl Abort, row: &Json) -> ReceiptKind {
    if is_true(rt, row, 2) {
        ReceiptKind::Private
    } else {
        ReceiptKind::Read
    }
}

/// The receipt of a row: the room, the user, whether it is private, and the event.
fn receipt(rt: &impl Abort, alloc: Global, row: &Json, position: u64) -> Receipt
    ensures { receipt.position_of result ≡ position }
{
    Receipt {
        room: room(number_in(rt, row, 0)),
        user: user(rt, alloc, str_in(rt, row, 1)),
        kind: kind_in(rt, row),
        event: EventId {
            at: number_in(rt, row, 3),
        },
        ts: 0,
        at: position,
    }
}

fn push_receipt(
    rt: &impl Abort,
    alloc: Global,
    row: &Json,
    made: &mut Vec<Receipt>,
) -> Result<(), Memory>
    requires { receipt.AreInPlace made.old.items }
    ensures { OnOk result (receipt.AreInPlace made.new.items) }
{
    let position = made.len() as u64 + 1;
    made.push(receipt(rt, alloc, row, position))?;
    Ok(())
}

/// The receipts of the rows of a text, from position 1 on.
pub fn receipts(rt: &impl Abort, alloc: Global, rows: &str) -> Result<Parts<Receipt>, Memory>
    ensures { IfOk result (λ parts. receipt.AreInPlace parts.items) }
{
    let rows = json(rt, alloc, rows);
    let mut made = Vec::new(alloc);
    'rows: for row in list(rt, &rows) {
        push_receipt(rt, alloc, row, &mut made)?;
    }
    Parts::of(alloc, &made, 1)
}

/// The room of a number, or none of 0.
fn room_of(number: u64) -> Option<RoomId> {
    if number == 0 {
        None
    } else {
        Some(room(number))
    }
}

/// The entry of a row: the user, the room (0 where the data are global), the type and the content.
fn entry(rt: &impl Abort, alloc: Global, row: &Json, position: u64) -> Entry
    ensures { entries.position_of result ≡ position }
{
    Entry::Data {
        user: user(rt, alloc, str_in(rt, row, 0)),
        room: room_of(number_in(rt, row, 1)),
        kind: text(rt, alloc, str_in(rt, row, 2)),
        content: at(rt, row, 3).copy(alloc).expect(rt, "memory"),
        at: position,
    }
}

fn push_entry(
    rt: &impl Abort,
    alloc: Global,
    row: &Json,
    made: &mut Vec<Entry>,
) -> Result<(), Memory>
    requires { account.AreInPlace made.old.items }
    ensures { OnOk result (account.AreInPlace made.new.items) }
{
    let position = made.len() as u64 + 1;
    made.push(entry(rt, alloc, row, position))?;
    Ok(())
}

/// The account data of the rows of a text, from position 1 on.
pub fn accounts(rt: &impl Abort, alloc: Global, rows: &str) -> Result<Parts<Entry>, Memory>
    ensures { IfOk result (λ parts. account.AreInPlace parts.items) }
{
    let rows = json(rt, alloc, rows);
    let mut made = Vec::new(alloc);
    'rows: for row in list(rt, &rows) {
        push_entry(rt, alloc, row, &mut made)?;
    }
    Parts::of(alloc, &made, 1)
}

/// A snapshot of events, receipts and account data.
pub fn snapshot(
    alloc: Global,
    events: &[Event],
    receipts: Parts<Receipt>,
    accounts: Parts<Entry>,
) -> Result<Snapshot, Memory>
    requires events { stand_from position_of 1 events.now ≡ true }
    requires receipts { receipt.AreInPlace receipts.items }
    requires accounts { account.AreInPlace accounts.items }
    ensures { IfOk result (λ known. known.events ≡ events.now) }
{
    let parts = Parts::of(alloc, events, 1)?;
    let mut known = Snapshot::new(alloc);
    known.events.advance(alloc, parts)?;
    known.receipts.advance(alloc, receipts)?;
    known.accounts.advance(alloc, accounts)?;
    Ok(known)
}

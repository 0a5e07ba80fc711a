//! Receipts in the rooms, and account data of the users: rooms and users take turns.

ghost use Rattle.std.specs.Prelude.{◌≡◌, IfOk, OnOk};
ghost use Rattle.mx_account.specs.Entries as entries;
ghost use Rattle.mx_account.specs.Values as account;
ghost use Rattle.mx_receipt.specs.Receipts as receipt;

use crate::history::{room, text, user};
use crate::unmeasured::Unmeasured;
use mx_account::Entry;
use mx_ids::EventId;
use mx_json::Json;
use mx_receipt::{Receipt, ReceiptKind};
use std::alloc::Global;

/// The receipt at a position.
fn receipt(alloc: Global, position: u64) -> Result<Receipt, Unmeasured>
    ensures { IfOk result (λ made. receipt.position_of made ≡ position) }
{
    Ok(Receipt {
        room: room(position),
        user: user(alloc, position)?,
        kind: ReceiptKind::Read,
        event: EventId { at: 1 },
        ts: 0,
        at: position,
    })
}

/// Puts the next receipt at the end.
fn push_receipt(alloc: Global, made: &mut Vec<Receipt>) -> Result<(), Unmeasured>
    requires { receipt.AreInPlace made.old.items }
    ensures { OnOk result (receipt.AreInPlace made.new.items) }
{
    let position = made.len() as u64 + 1;
    made.push(receipt(alloc, position)?)?;
    Ok(())
}

/// The receipts at the positions from 1 to `count`.
pub fn receipts(alloc: Global, count: u64) -> Result<Vec<Receipt>, Unmeasured>
    ensures { IfOk result (λ made. receipt.AreInPlace made.items) }
{
    let mut made = Vec::new(alloc);
    'positions: for _position in 0..count {
        push_receipt(alloc, &mut made)?;
    }
    Ok(made)
}

/// The entry at a position.
fn entry(alloc: Global, position: u64) -> Result<Entry, Unmeasured>
    ensures { IfOk result (λ made. entries.position_of made ≡ position) }
{
    Ok(Entry::Data {
        user: user(alloc, position)?,
        room: Some(room(position / 10)),
        kind: text(alloc, "m.tag")?,
        content: Json::Null,
        at: position,
    })
}

/// Puts the next entry at the end.
fn push_entry(alloc: Global, made: &mut Vec<Entry>) -> Result<(), Unmeasured>
    requires { account.AreInPlace made.old.items }
    ensures { OnOk result (account.AreInPlace made.new.items) }
{
    let position = made.len() as u64 + 1;
    made.push(entry(alloc, position)?)?;
    Ok(())
}

/// The account data at the positions from 1 to `count`.
pub fn accounts(alloc: Global, count: u64) -> Result<Vec<Entry>, Unmeasured>
    ensures { IfOk result (λ made. account.AreInPlace made.items) }
{
    let mut made = Vec::new(alloc);
    'positions: for _position in 0..count {
        push_entry(alloc, &mut made)?;
    }
    Ok(made)
}

//! Receipts as values.

ghost use Rattle.std.specs.Prelude.{◌≡◌, IfOk, IfSome, Some};
ghost use Rattle.mx_records.specs.Fits.{ReceiptFits};
ghost use Rattle.mx_records.specs.Records.{is_private, kind_if, receipt_json, receipt_read};

use crate::fault::RecordFault;
use crate::values::{number_of, push_number, push_room, push_text, room_of};
use mx_ids::{Copied, EventId, Memory, RoomId, Seq, Text, user_id};
use mx_json::Json;
use mx_receipt::{Receipt, ReceiptKind};
use std::alloc::Global;

/// A receipt as a value, without its position.
pub fn receipt_value(alloc: Global, receipt: &Receipt) -> Result<Json, RecordFault>
    ensures value { IfOk result (λ j. j ≡ receipt_json receipt.now) }
    ensures fits { IfOk result (λ j. ReceiptFits receipt.now) }
{
    let mut parts = Seq::new(alloc);
    push_text(alloc, &mut parts, receipt.user.as_text())?;
    push_room(alloc, &mut parts, receipt.room)?;
    parts.push(Json::Bool(is_private(receipt.kind)))?;
    push_number(&mut parts, receipt.event.at)?;
    push_number(&mut parts, receipt.ts)?;
    Ok(Json::List(parts))
}

fn is_private(kind: ReceiptKind) -> bool
    ensures { result ≡ is_private kind }
{
    match kind {
        ReceiptKind::Read => false,
        ReceiptKind::Private => true,
    }
}

/// The receipt that a value says, without a position; `None` where it says none, or its user is no user id.
pub fn read_receipt(alloc: Global, json: &Json) -> Result<Option<Receipt>, Memory>
    ensures { IfOk result (λ o. IfSome o (λ r. receipt_read json.now ≡ Some r)) }
{
    let Some(seen) = seen_in(json) else {
        return Ok(None);
    };
    let Some(user) = user_id(seen.user.copy(alloc)?) else {
        return Ok(None);
    };
    Ok(Some(Receipt {
        room: seen.room,
        user,
        kind: kind_if(seen.private),
        event: EventId { at: seen.event },
        ts: seen.ts,
        at: 0,
    }))
}

/// The parts of a receipt, as they are seen in a value.
#[derive(Clone, Copy)]
struct SeenReceipt<'a> {
    user: &'a Text,
    room: RoomId,
    private: bool,
    event: u64,
    ts: u64,
}

fn seen_in(json: &Json) -> Option<SeenReceipt<'_>>
    ensures { IfSome result (λ s. receipt_read json.now ≡ Some (record { room = s.room; user = s.user.now; kind = kind_if s.private; event = record { at = s.event }; ts = s.ts; at = 0 })) }
{
    let [user, room, private, event, ts] = json.as_list()?.as_slice() else {
        return None;
    };
    let ((((user, room), private), event), ts) = user
        .as_text()
        .zip(room_of(room))
        .zip(private.as_bool())
        .zip(number_of(event))
        .zip(number_of(ts))?;
    Some(SeenReceipt {
        user,
        room,
        private,
        event,
        ts,
    })
}

fn kind_if(private: bool) -> ReceiptKind
    ensures { result ≡ kind_if private }
{
    if private {
        ReceiptKind::Private
    } else {
        ReceiptKind::Read
    }
}

//! What a user has read at a position of the stream.

ghost use Rattle.std.specs.Prelude.{◌≡◌, max, if◌then◌else◌};
ghost use Rattle.std.specs.Option.{option_copied};
ghost use Rattle.mx_receipt.specs.Receipts.{AreInPlace, furthest, is_users, standing};

use crate::receipt::{Receipt, ReceiptKind};
use mx_ids::{RoomId, UserId};
use mx_lanes::Parts;

/// The standing receipt of a user in a room, of a kind, at position `r`: the last one stored up to `r`
/// (Client-Server API, Receipts). `None` exactly where there is none.
///
/// Each item of the list stands at its own position. Takes no memory; looks back from `r`, or from the list's front
/// where `r` is above it, and costs time in the number of receipts that it passes.
pub fn standing<'a>(
    list: &'a Parts<Receipt>,
    room: &RoomId,
    user: &UserId,
    kind: ReceiptKind,
    r: u64,
) -> Option<&'a Receipt>
    requires { AreInPlace list.now.items }
    ensures { option_copied result ≡ standing room.now user.now kind r list.now.items }
{
    let mut position = r.min(list.front());
    'receipts: while let Some(receipt) = list.at(position) {
        if receipt.is_for(room, user, kind) {
            return Some(receipt);
        }
        position -= 1;
    }
    None
}

/// The greatest position of an event among a user's receipts in a room, of either kind, at the positions up to `r` of
/// their stream; 0 where there is none.
///
/// Each item of the list stands at its own position. Takes no memory; costs time in the number of receipts up to `r`.
pub fn furthest(list: &Parts<Receipt>, room: &RoomId, user: &UserId, r: u64) -> u64
    requires { AreInPlace list.now.items }
    ensures { result ≡ furthest room.now user.now r list.now.items }
{
    let mut event = 0;
    let mut position = r.min(list.front());
    'receipts: while let Some(receipt) = list.at(position) {
        event = event_after(event, receipt, room, user);
        position -= 1;
    }
    event
}

/// The later of an event and that of a receipt, if the receipt is of the room and user.
fn event_after(event: u64, receipt: &Receipt, room: &RoomId, user: &UserId) -> u64
    ensures { result ≡ (if is_users room.now user.now receipt.now then max event receipt.now.event.at else event) }
{
    if receipt.is_users(room, user) {
        event.max(receipt.event.at)
    } else {
        event
    }
}

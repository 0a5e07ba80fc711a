//! Up to where a user has read a room.

ghost use Rattle.std.specs.Prelude.{◌≡◌, ◌≤◌, true, IfOk};
ghost use Rattle.mx_event.specs.Lawful.{of_room};
ghost use Rattle.mx_folding.specs.Visible.{joined_at};
ghost use Rattle.mx_receipt.specs.Receipts as receipt;
ghost use Rattle.mx_receipt.specs.Receipts.{furthest_in};
ghost use Rattle.mx_snapshot.specs.Looks.{all_now};
ghost use Rattle.mx_snapshot.specs.Receipts.{of_user};
ghost use Rattle.mx_view.specs.Readings.{viewer_of};
ghost use Rattle.mx_view.specs.Tokens.{is_before};
ghost use Rattle.mx_window.specs.Windows.{between};
ghost use Rattle.mx_unread.specs.Marks.{furthest_of};
ghost use Rattle.mx_unread.specs.Unread.{mark_of};

use crate::entering::{entered, entered_after};
use mx_ids::{Memory, RoomId, SyncToken, UserId};
use mx_receipt::{Receipt, ReceiptKind};
use mx_snapshot::{Receipts, Snapshot};
use std::alloc::Global;

/// The position up to which a room is read for a user at a token: the later of the furthest event that its receipts name
/// and its latest entry.
pub(crate) fn mark_of(
    alloc: Global,
    snapshot: &Snapshot,
    room: &RoomId,
    user: &UserId,
    at: &SyncToken,
) -> Result<u64, Memory>
    ensures { IfOk result (λ mark. mark ≡ mark_of room.now user.now at.now.e at.now.r (of_room room.now snapshot.now.events) snapshot.now.receipts) }
{
    let read = furthest_in(alloc, &snapshot.receipts, room, user, 0, at.r)?;
    let entry = entered(alloc, &snapshot.events, room, user, at.e)?;
    Ok(read.max(entry))
}

/// The same at a token, by the mark at an earlier one at which the user is joined. Takes the time of two searches, and of the
/// room's receipts and the user's member events between the two.
pub(crate) fn mark_after(
    alloc: Global,
    snapshot: &Snapshot,
    room: &RoomId,
    user: &UserId,
    from: &SyncToken,
    mark: u64,
    at: &SyncToken,
) -> Result<u64, Memory>
    requires after { is_before from.now at.now ≡ true }
    requires joined { joined_at (viewer_of user.now) (of_room room.now snapshot.now.events) from.now.e ≡ true }
    requires mark { mark ≡ mark_of room.now user.now from.now.e from.now.r (of_room room.now snapshot.now.events) snapshot.now.receipts }
    ensures mark { IfOk result (λ m. m ≡ mark_of room.now user.now at.now.e at.now.r (of_room room.now snapshot.now.events) snapshot.now.receipts) }
    ensures grows { IfOk result (λ m. mark ≤ m) }
{
    let _events = snapshot.events.front();
    let _receipts = snapshot.receipts.front();
    let read = furthest_in(alloc, &snapshot.receipts, room, user, from.r, at.r)?;
    let entry = entered_after(alloc, &snapshot.events, room, user, from.e, at.e)?;
    Ok(mark.max(read.max(entry)))
}

/// The furthest event that a user's receipts in a room name, among those after a position and up to another.
fn furthest_in(
    alloc: Global,
    receipts: &Receipts,
    room: &RoomId,
    user: &UserId,
    low: u64,
    r: u64,
) -> Result<u64, Memory>
    ensures { IfOk result (λ event. event ≡ furthest_in room.now user.now (between receipt.position_of low r receipts.now)) }
{
    let public = furthest_of_kind(alloc, receipts, room, user, ReceiptKind::Read, low, r)?;
    let private = furthest_of_kind(alloc, receipts, room, user, ReceiptKind::Private, low, r)?;
    Ok(public.max(private))
}

/// The same of the receipts of one kind.
fn furthest_of_kind(
    alloc: Global,
    receipts: &Receipts,
    room: &RoomId,
    user: &UserId,
    kind: ReceiptKind,
    low: u64,
    r: u64,
) -> Result<u64, Memory>
    ensures { IfOk result (λ event. event ≡ furthest_of (between receipt.position_of low r (of_user room.now user.now kind receipts.now))) }
{
    let stored = receipts.of_user(alloc, room, user.as_str(), kind, low, r)?;
    Ok(furthest_of(&stored))
}

/// The furthest event that receipts name.
fn furthest_of(receipts: &[&Receipt]) -> u64
    ensures { result ≡ furthest_of (all_now receipts.now) }
{
    let mut event = 0;
    'receipts: for receipt in receipts {
        event = event.max(receipt.event.at);
    }
    event
}

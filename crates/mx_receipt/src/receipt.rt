ghost use Rattle.std.specs.Prelude.{◌≡◌};
ghost use Rattle.mx_receipt.specs.Receipts.{are_placed, is_for, is_users, placed_at};

use mx_ids::{Copied, EventId, Memory, RoomId, UserId};
use mx_lanes::Placed;
use std::alloc::Global;

/// The kind of a receipt (Client-Server API, Receipts). `m.fully_read` is no kind: it is room account data.
#[derive(Clone, Copy, Debug, PartialEq, Eq)]
pub enum ReceiptKind {
    /// `m.read`, which all members of the room see.
    Read,
    /// `m.read.private`, which its own user alone sees.
    Private,
}

/// A receipt, up to which event of a room a user has read: an item of the stream of receipts.
#[derive(Debug, Drop)]
pub struct Receipt {
    /// The room of the event.
    pub room: RoomId,
    /// The user that has read.
    pub user: UserId,
    /// Who sees the receipt.
    pub kind: ReceiptKind,
    /// The event up to which the user has read.
    pub event: EventId,
    /// When the receipt was made, in milliseconds since 1970.
    pub ts: u64,
    /// The item's position in the stream of receipts, from 1, below 2^48.
    pub at: u64,
}

impl Receipt {
    /// Whether the receipt is of this room and user. Takes no memory.
    pub(crate) fn is_users(&self, room: &RoomId, user: &UserId) -> bool
        ensures { result ≡ is_users room.now user.now self.now }
    {
        self.room == *room && self.user == *user
    }

    /// Whether the receipt is of this room, user and kind. Takes no memory.
    pub(crate) fn is_for(&self, room: &RoomId, user: &UserId, kind: ReceiptKind) -> bool
        ensures { result ≡ is_for room.now user.now kind self.now }
    {
        self.is_users(room, user) && self.kind == kind
    }
}

impl Copied for ReceiptKind {
    fn copy(&self, _alloc: Global) -> Result<ReceiptKind, Memory> {
        Ok(*self)
    }
}

impl Copied for Receipt {
    fn copy(&self, alloc: Global) -> Result<Receipt, Memory> {
        Ok(Receipt {
            room: self.room,
            user: self.user.copy(alloc)?,
            kind: self.kind,
            event: self.event,
            ts: self.ts,
            at: self.at,
        })
    }
}

/// Items of a store are lawful where each stands at its own position.
impl Placed for Receipt {
    ghost lawful = { λ writer before first items. are_placed first items };

    ghost placed = { λ receipt first at. placed_at receipt at };

    fn place(&mut self, _first: u64, at: u64) {
        self.at = at;
    }
}

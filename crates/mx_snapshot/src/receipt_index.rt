//! Where to find what among receipts.

ghost use Rattle.std.specs.Prelude.{◌≡◌, ◌++◌, [], ◌∷◌, List, OnOk};
ghost use Rattle.mx_receipt.specs.declared.receipt.Receipt.{Receipt};
ghost use Rattle.mx_snapshot.specs.Receipts.{IsIndexed, kind_name};

use crate::lists::{Kinds, add_to_room, add_version};
use mx_ids::{Memory, RoomId};
use mx_receipt::{Receipt, ReceiptKind};
use std::alloc::Global;
use std::collections::BTreeMap;

/// Where to find what among receipts.
#[derive(Drop)]
pub(crate) struct ReceiptIndex {
    /// The positions of each room's receipts.
    pub(crate) rooms: BTreeMap<RoomId, Vec<u64>>,
    /// The positions of the receipts of each room, kind and user.
    pub(crate) own: BTreeMap<RoomId, Kinds>,
}

impl ReceiptIndex {
    /// The index of no receipts. Takes no memory.
    pub(crate) fn new(alloc: Global) -> ReceiptIndex
        ensures { IsIndexed result [] }
    {
        ReceiptIndex {
            rooms: BTreeMap::new(alloc),
            own: BTreeMap::new(alloc),
        }
    }

    /// Takes in the receipt after those that are indexed. The time is that of some look-ups.
    pub(crate) fn take_in(&mut self, alloc: Global, receipt: &Receipt) -> Result<(), Memory>
        ensures { (rs : List Receipt) → IsIndexed self.old rs → OnOk result (IsIndexed self.new (rs ++ receipt.now ∷ [])) }
    {
        add_to_room(alloc, &mut self.rooms, receipt.room, receipt.at)?;
        add_version(
            alloc,
            &mut self.own,
            receipt.room,
            kind_name(receipt.kind),
            receipt.user.as_str(),
            receipt.at,
        )
    }
}

/// The name of a kind of receipts (Client-Server API, Receipts).
pub(crate) fn kind_name(kind: ReceiptKind) -> &'static str
    ensures { result.now ≡ kind_name kind }
{
    match kind {
        ReceiptKind::Read => "m.read",
        ReceiptKind::Private => "m.read.private",
    }
}

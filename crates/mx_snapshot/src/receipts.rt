//! The receipts of a stream up to its front.

ghost use Rattle.std.specs.Prelude.{◌≡◌, ◌≤◌, ◌<◌, ◌+◌, [], length, take, IfOk, OnErr, OnOk};
ghost use Rattle.std.specs.Option.{option_copied};
ghost use Rattle.mx_event.specs.Core.History.{Begins};
ghost use Rattle.mx_window.specs.Windows.{between};
ghost use Rattle.mx_event.specs.Lawful.{same_room};
ghost use Rattle.mx_receipt.specs.Receipts.{AreInPlace, position_of};
ghost use Rattle.mx_snapshot.specs.Looks.{all_now, at_position, last_position};
ghost use Rattle.mx_snapshot.specs.Receipts.{IsIndexed, of_room, of_user};

use crate::gather::gather;
use crate::looks::{room_positions, version_positions};
use crate::positions::{last_one, within};
use crate::receipt_index::{ReceiptIndex, kind_name};
use mx_ids::{Memory, RoomId};
use mx_receipt::{Parts, Receipt, ReceiptKind};
use std::alloc::Global;
use std::marker::Model;

/// The receipts of a stream up to its front, with indices beside them. Contracts see it as the list of its receipts.
#[derive(Drop)]
pub struct Receipts {
    receipts: Parts<Receipt>,
    index: ReceiptIndex,
}

impl Model for Receipts {
    ghost use Rattle.std.specs.Prelude.{List};
    ghost use Rattle.std.specs.Coded.{coded_list};
    ghost use Rattle.mx_receipt.specs.Receipts.{AreInPlace};
    ghost use Rattle.mx_receipt.specs.contracts.receipt.Receipt.{the_row as receipt_row};
    ghost use Rattle.mx_receipt.specs.declared.receipt.Receipt.{Receipt};
    ghost use Rattle.mx_snapshot.specs.Receipts.{IsIndexed};

    ghost Value = { List Receipt };

    ghost coded = { coded_list receipt_row.coded };

    ghost view = { λ s. s.receipts.items };

    ghost invariant = { λ s. AreInPlace s.receipts.items × IsIndexed s.index s.receipts.items };
}

impl Receipts {
    /// No receipts. Takes no memory.
    pub(crate) fn new(alloc: Global) -> Receipts
        ensures { result ≡ [] }
    {
        Receipts {
            receipts: Parts::none(alloc),
            index: ReceiptIndex::new(alloc),
        }
    }

    /// Goes on to a later front: the list begins with what is known, and each receipt stands at its own position. Only the receipts after
    /// the old front are looked at. `Memory` leaves no receipt, and the next call takes in all.
    pub fn advance(&mut self, alloc: Global, receipts: Parts<Receipt>) -> Result<(), Memory>
        requires begins { Begins self.old receipts.items }
        requires placed { AreInPlace receipts.items }
        ensures ok { OnOk result (self.new ≡ receipts.items) }
        ensures err { OnErr result (self.new ≡ []) }
    {
        let front = self.receipts.front();
        let grown = index_after(alloc, &mut self.index, &receipts, front);
        if grown.is_ok() {
            self.receipts = receipts;
        } else {
            drop(receipts);
            self.receipts = Parts::none(alloc);
            self.index = ReceiptIndex::new(alloc);
        }
        grown
    }

    /// The front: the number of receipts, each of which stands at its own position. Takes no memory.
    pub fn front(&self) -> u64
        ensures count { result ≡ length self.now }
        ensures placed { AreInPlace self.now }
    {
        self.receipts.front()
    }

    /// The receipt at a position. Takes no memory.
    pub fn at(&self, position: u64) -> Option<&Receipt>
        ensures { option_copied result ≡ at_position self.now position }
    {
        self.receipts.at(position)
    }

    /// The receipts of a room at the positions after `low` and up to `high`, in their order. Takes the time of two searches
    /// among the room's receipts, and of those that it gives.
    pub fn of_room(
        &self,
        alloc: Global,
        room: &RoomId,
        low: u64,
        high: u64,
    ) -> Result<Vec<&Receipt>, Memory>
        ensures { IfOk result (λ made. all_now made.items ≡ between position_of low high (of_room room.now self.now)) }
    {
        let positions = room_positions(&self.index.rooms, room);
        gather(alloc, &self.receipts, within(positions, low, high))
    }

    /// The receipts of a user in a room, of one kind, at the positions after `low` and up to `high`, in their order. Takes the
    /// time of two searches among these, and of those that it gives.
    pub fn of_user(
        &self,
        alloc: Global,
        room: &RoomId,
        user: &str,
        kind: ReceiptKind,
        low: u64,
        high: u64,
    ) -> Result<Vec<&Receipt>, Memory>
        ensures { IfOk result (λ made. all_now made.items ≡ between position_of low high (of_user room.now user.now kind self.now)) }
    {
        let positions = version_positions(&self.index.own, room, kind_name(kind), user);
        gather(alloc, &self.receipts, within(positions, low, high))
    }

    /// The position of a room's last receipt, or 0 where it has none. Takes the time of a look-up, and no memory.
    pub fn last_in(&self, room: &RoomId) -> u64
        ensures { result ≡ last_position position_of (λ receipt. same_room receipt.room room.now) self.now }
    {
        last_one(room_positions(&self.index.rooms, room))
    }
}

fn index_after(
    alloc: Global,
    index: &mut ReceiptIndex,
    receipts: &Parts<Receipt>,
    from: u64,
) -> Result<(), Memory>
    requires within { from ≤ length receipts.now.items }
    requires indexed { IsIndexed index.old (take from receipts.now.items) }
    ensures { OnOk result (IsIndexed index.new receipts.now.items) }
{
    'receipts: for position in from..receipts.front() {
        take_next(alloc, index, receipts, position)?;
    }
    Ok(())
}

fn take_next(
    alloc: Global,
    index: &mut ReceiptIndex,
    receipts: &Parts<Receipt>,
    passed: u64,
) -> Result<(), Memory>
    requires within { passed < length receipts.now.items }
    requires indexed { IsIndexed index.old (take passed receipts.now.items) }
    ensures { OnOk result (IsIndexed index.new (take (passed + 1) receipts.now.items)) }
{
    let _front = receipts.front();
    match receipts.at(passed + 1) {
        Some(receipt) => index.take_in(alloc, receipt),
        None => Ok(()),
    }
}

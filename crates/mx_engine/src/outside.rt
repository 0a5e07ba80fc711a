//! What stands outside of an engine's streams.

ghost use Rattle.std.specs.Prelude.{◌≡◌, [], IfOk, refl};
ghost use Rattle.mx_aims.specs.EventsDecided.{decided_events};
ghost use Rattle.mx_entries.specs.Decided.{decided_entries};
ghost use Rattle.mx_entries.specs.Receipts.{decided_receipts};

use mx_account::Entry;
use mx_aims::{EventDraft, EventFault, Rooms, rooms};
use mx_entries::{
    Accounts, EntryDraft, EntryFault, Never, ReceiptDraft, Receipts, accounts, receipts,
};
use mx_event::Event;
use mx_ids::Memory;
use mx_receipt::Receipt;
use mx_writers::{Folds, Gate, Open};
use std::alloc::Global;

/// What stands outside of an engine's streams: a gate that hears of each store, and what the writers keep their stores by before they
/// make them. That lies in the writers' values, which decide as those do that keep nothing.
pub trait Outside: Gate + Drop {
    /// The value of a writer of events.
    type Events: Folds<Item = Event, Draft = EventDraft, Fault = EventFault>;
    /// The value of a writer of receipts.
    type Receipts: Folds<Item = Receipt, Draft = ReceiptDraft, Fault = Never>;
    /// The value of a writer of account data.
    type Accounts: Folds<Item = Entry, Draft = EntryDraft, Fault = EntryFault>;

    /// The value of a writer of events without stores.
    fn events(&self, alloc: Global, writer: u8) -> Result<Self::Events, Memory>
        ensures { IfOk result (λ f. (Self.Events.writer f ≡ writer) × (Self.Events.own f ≡ [])) };

    /// The value of a writer of receipts without stores.
    fn receipts(&self, alloc: Global, writer: u8) -> Result<Self::Receipts, Memory>
        ensures { IfOk result (λ f. (Self.Receipts.writer f ≡ writer) × (Self.Receipts.own f ≡ [])) };

    /// The value of a writer of account data without stores.
    fn accounts(&self, alloc: Global, writer: u8) -> Result<Self::Accounts, Memory>
        ensures { IfOk result (λ f. (Self.Accounts.writer f ≡ writer) × (Self.Accounts.own f ≡ [])) };

    // Each decides as one that keeps nothing.
    ghost decides_events: { Self.Events.decides ≡ decided_events };

    ghost decides_receipts: { Self.Receipts.decides ≡ decided_receipts };

    ghost decides_accounts: { Self.Accounts.decides ≡ decided_entries };
}

/// Nothing is kept, and nobody hears of a store.
impl Outside for Open {
    type Events = Rooms;

    type Receipts = Receipts;

    type Accounts = Accounts;

    fn events(&self, alloc: Global, writer: u8) -> Result<Rooms, Memory> {
        rooms(alloc, writer)
    }

    fn receipts(&self, alloc: Global, writer: u8) -> Result<Receipts, Memory> {
        Ok(receipts(alloc, writer))
    }

    fn accounts(&self, alloc: Global, writer: u8) -> Result<Accounts, Memory> {
        Ok(accounts(alloc, writer))
    }

    ghost decides_events = { refl };

    ghost decides_receipts = { refl };

    ghost decides_accounts = { refl };
}

//! Writes to the streams of an engine.

ghost use Rattle.std.specs.Prelude.{◌≡◌, ◌<◌, ◌≤◌};
ghost use Rattle.mx_aims.specs.EventsDecided.{decided_events};
ghost use Rattle.mx_entries.specs.Decided.{decided_entries};
ghost use Rattle.mx_entries.specs.Lawful.{entry_placed, receipt_placed};
ghost use Rattle.mx_entries.specs.Receipts.{decided_receipts};
ghost use Rattle.mx_event.specs.Lawful.{placed_event};
ghost use Rattle.mx_front.specs.Shown.{place_of, place_of_pass, reads, seen_by, writers_of};
ghost use Rattle.mx_engine.specs.Shown.{stops_of};
ghost use Rattle.mx_engine.specs.Written.{IsWritten, made_by};

use crate::held::Engine;
use crate::outside::Outside;
use crate::seat::{Seat, write_on};
use mx_account::Entry;
use mx_aims::{EventDraft, EventFault};
use mx_entries::{EntryDraft, EntryFault, Never, ReceiptDraft};
use mx_event::Event;
use mx_receipt::Receipt;
use mx_writers::{Refused, Written};
use std::alloc::Global;
use std::sync::Wait;

impl<G: Outside> Engine<G> {
    /// A write of events by a writer, in its turn.
    pub(crate) fn store_events<R: Wait>(
        &self,
        rt: &R,
        alloc: Global,
        shard: u8,
        draft: EventDraft,
        seat: &mut Seat<Event>,
    ) -> Result<Written, Refused<EventFault>>
        requires shard { shard < writers_of self.now.events.stream }
        requires stream { place_of_pass seat.old.pass ≡ place_of self.now.events.stream }
        ensures stream { place_of_pass seat.new.pass ≡ place_of_pass seat.old.pass }
        ensures looks { (reads seat.old.pass).looks ≤ (reads seat.new.pass).looks }
        ensures wrote { IsWritten placed_event decided_events shard (stops_of self.now).events draft result (seen_by seat.old.pass) (seen_by seat.new.pass) }
        ensures made { seat.new.made ≡ made_by seat.old.made result }
    {
        write_on(rt, alloc, &self.events, shard, draft, &self.gate, seat)
    }

    /// A write of receipts by a writer, in its turn.
    pub(crate) fn store_receipts<R: Wait>(
        &self,
        rt: &R,
        alloc: Global,
        shard: u8,
        draft: ReceiptDraft,
        seat: &mut Seat<Receipt>,
    ) -> Result<Written, Refused<Never>>
        requires shard { shard < writers_of self.now.receipts.stream }
        requires stream { place_of_pass seat.old.pass ≡ place_of self.now.receipts.stream }
        ensures stream { place_of_pass seat.new.pass ≡ place_of_pass seat.old.pass }
        ensures looks { (reads seat.old.pass).looks ≤ (reads seat.new.pass).looks }
        ensures wrote { IsWritten receipt_placed decided_receipts shard (stops_of self.now).receipts draft result (seen_by seat.old.pass) (seen_by seat.new.pass) }
        ensures made { seat.new.made ≡ made_by seat.old.made result }
    {
        write_on(rt, alloc, &self.receipts, shard, draft, &self.gate, seat)
    }

    /// A write of account data by a writer, in its turn.
    pub(crate) fn store_accounts<R: Wait>(
        &self,
        rt: &R,
        alloc: Global,
        shard: u8,
        draft: EntryDraft,
        seat: &mut Seat<Entry>,
    ) -> Result<Written, Refused<EntryFault>>
        requires shard { shard < writers_of self.now.accounts.stream }
        requires stream { place_of_pass seat.old.pass ≡ place_of self.now.accounts.stream }
        ensures stream { place_of_pass seat.new.pass ≡ place_of_pass seat.old.pass }
        ensures looks { (reads seat.old.pass).looks ≤ (reads seat.new.pass).looks }
        ensures wrote { IsWritten entry_placed decided_entries shard (stops_of self.now).accounts draft result (seen_by seat.old.pass) (seen_by seat.new.pass) }
        ensures made { seat.new.made ≡ made_by seat.old.made result }
    {
        write_on(rt, alloc, &self.accounts, shard, draft, &self.gate, seat)
    }
}

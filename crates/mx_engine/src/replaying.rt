//! Stores of a journal are made again.

ghost use Rattle.std.specs.Prelude.{◌≡◌, OnOk};
ghost use Rattle.mx_engine.specs.Again.{with_again, with_record};
ghost use Rattle.mx_engine.specs.Places.{IsAlone};
ghost use Rattle.mx_engine.specs.Shown.{Ties, made_of, stores_of};
ghost use Rattle.mx_aims.specs.EventsDecided.{decided_events};
ghost use Rattle.mx_entries.specs.Decided.{decided_entries};
ghost use Rattle.mx_entries.specs.Lawful.{entry_placed, receipt_placed};
ghost use Rattle.mx_entries.specs.Receipts.{decided_receipts};
ghost use Rattle.mx_event.specs.Lawful.{placed_event};

use crate::held::{Engine, EnginePass};
use crate::outside::Outside;
use crate::record::{Again, Record, Unreplayed};
use crate::seat::replay_on;
use mx_aims::EventDraft;
use mx_entries::{EntryDraft, ReceiptDraft};
use std::alloc::Global;
use std::sync::Wait;

impl<G: Outside> Engine<G> {
    /// Makes a store again, in its place. At `Ok` it is the one store that the pass has seen besides those that it had seen: what its
    /// writer decides on the draft. The pass is one of this engine's, and no pass is split off from it. Nobody else is to store meanwhile:
    /// where somebody does it answers `Elsewhere`. What was refused may have stored.
    pub fn replay_record<R: Wait>(
        &self,
        rt: &R,
        alloc: Global,
        pass: &mut EnginePass,
        store: Record,
    ) -> Result<(), Unreplayed>
        requires ties { Ties self.now pass.old }
        ensures ties { Ties self.now pass.new }
        ensures alone { IsAlone (made_of pass.old) → IsAlone (made_of pass.new) }
        ensures replayed { OnOk result (stores_of pass.new ≡ with_record store (stores_of pass.old)) }
    {
        match store {
            Record::Events(again) => self.replay_events(rt, alloc, pass, again),
            Record::Receipts(again) => self.replay_receipts(rt, alloc, pass, again),
            Record::Accounts(again) => self.replay_accounts(rt, alloc, pass, again),
        }
    }

    fn replay_events<R: Wait>(
        &self,
        rt: &R,
        alloc: Global,
        pass: &mut EnginePass,
        again: Again<EventDraft>,
    ) -> Result<(), Unreplayed>
        requires ties { Ties self.now pass.old }
        ensures ties { Ties self.now pass.new }
        ensures alone { IsAlone (made_of pass.old) → IsAlone (made_of pass.new) }
        ensures others { ((stores_of pass.new).receipts ≡ (stores_of pass.old).receipts) × ((stores_of pass.new).accounts ≡ (stores_of pass.old).accounts) }
        ensures replayed { OnOk result ((stores_of pass.new).events ≡ with_again placed_event decided_events again (stores_of pass.old).events) }
    {
        if again.writer >= self.site.workers() {
            drop(again);
            return Err(Unreplayed::Writer);
        }
        replay_on(rt, alloc, &self.events, again, &mut pass.events)
    }

    fn replay_receipts<R: Wait>(
        &self,
        rt: &R,
        alloc: Global,
        pass: &mut EnginePass,
        again: Again<ReceiptDraft>,
    ) -> Result<(), Unreplayed>
        requires ties { Ties self.now pass.old }
        ensures ties { Ties self.now pass.new }
        ensures alone { IsAlone (made_of pass.old) → IsAlone (made_of pass.new) }
        ensures others { ((stores_of pass.new).events ≡ (stores_of pass.old).events) × ((stores_of pass.new).accounts ≡ (stores_of pass.old).accounts) }
        ensures replayed { OnOk result ((stores_of pass.new).receipts ≡ with_again receipt_placed decided_receipts again (stores_of pass.old).receipts) }
    {
        if again.writer >= self.site.workers() {
            drop(again);
            return Err(Unreplayed::Writer);
        }
        replay_on(rt, alloc, &self.receipts, again, &mut pass.receipts)
    }

    fn replay_accounts<R: Wait>(
        &self,
        rt: &R,
        alloc: Global,
        pass: &mut EnginePass,
        again: Again<EntryDraft>,
    ) -> Result<(), Unreplayed>
        requires ties { Ties self.now pass.old }
        ensures ties { Ties self.now pass.new }
        ensures alone { IsAlone (made_of pass.old) → IsAlone (made_of pass.new) }
        ensures others { ((stores_of pass.new).events ≡ (stores_of pass.old).events) × ((stores_of pass.new).receipts ≡ (stores_of pass.old).receipts) }
        ensures replayed { OnOk result ((stores_of pass.new).accounts ≡ with_again entry_placed decided_entries again (stores_of pass.old).accounts) }
    {
        if again.writer >= self.site.workers() {
            drop(again);
            return Err(Unreplayed::Writer);
        }
        replay_on(rt, alloc, &self.accounts, again, &mut pass.accounts)
    }
}

//! What a reader of the streams knows, with tallies of the rooms that it was told of last.

ghost use Rattle.std.specs.Prelude.{◌≡◌, ◌↔◌, ℕ, true, [], Some, None, IfOk, IsErrOf, OnOk, OnErr};
ghost use Rattle.mx_core.specs.History.{Begins};
ghost use Rattle.mx_account.specs.Values as account;
ghost use Rattle.mx_event.specs.Shown.{position_of};
ghost use Rattle.mx_fold.specs.Lists.{fronts_of};
ghost use Rattle.mx_receipt.specs.Receipts as receipt;
ghost use Rattle.mx_rest.specs.Servers.{AreValid, lists_of};
ghost use Rattle.mx_window.specs.Windows.{stand_from};
ghost use Rattle.mx_sync.specs.Asks.{ahead_of, asked};
ghost use Rattle.mx_sync.specs.Replies.{reply_of};
ghost use Rattle.mx_sync.specs.declared.fault.SyncFault.TheVariants as faults;

use crate::answering::reply_with;
use crate::fault::SyncFault;
use crate::sync_ask::SyncAsk;
use crate::sync_reply::Reply;
use mx_account::Entry;
use mx_event::Event;
use mx_ids::Memory;
use mx_lanes::Parts;
use mx_receipt::Receipt;
use mx_rest::{Tallies, rules_last, tallies_last};
use mx_snapshot::Snapshot;
use std::alloc::Global;
use std::marker::Model;

/// A snapshot that goes on, with tallies, and the push rules that were read last, that stand for it. Contracts see it as the snapshot.
#[derive(Drop)]
pub struct Known {
    snapshot: Snapshot,
    tallies: Tallies,
}

impl Model for Known {
    ghost use Rattle.mx_snapshot.specs.contracts.snapshot.Snapshot.{the_row as snapshot_row};
    ghost use Rattle.mx_snapshot.specs.declared.snapshot.Snapshot.{Snapshot};
    ghost use Rattle.mx_rest.specs.Unread.Kept.{Stand};

    ghost Value = { Snapshot };

    ghost coded = { snapshot_row.coded };

    ghost view = { λ k. k.snapshot };

    ghost invariant = { λ k. Stand k.snapshot k.tallies };
}

impl Known {
    /// Nothing: each front is 0. Takes no memory.
    pub fn new(alloc: Global) -> Known
        ensures events { result.events ≡ [] }
        ensures receipts { result.receipts ≡ [] }
        ensures accounts { result.accounts ≡ [] }
    {
        Known {
            snapshot: Snapshot::new(alloc),
            tallies: Tallies::new(),
        }
    }

    /// The snapshot.
    pub fn as_snapshot(&self) -> &Snapshot
        ensures { result.now ≡ self.now }
    {
        &self.snapshot
    }

    /// Goes on to a later front of the events, as [`mx_snapshot::Events::advance`] does; the tallies stand. `Memory` leaves no event, and no
    /// tally.
    pub fn advance_events(&mut self, alloc: Global, events: Parts<Event>) -> Result<(), Memory>
        requires begins { Begins self.old.events events.items }
        requires placed { stand_from position_of 1 events.items ≡ true }
        ensures ok { OnOk result (self.new.events ≡ events.items) }
        ensures err { OnErr result (self.new.events ≡ []) }
        ensures receipts { self.new.receipts ≡ self.old.receipts }
        ensures accounts { self.new.accounts ≡ self.old.accounts }
    {
        let _events = self.snapshot.events.front();
        let _receipts = self.snapshot.receipts.front();
        let _accounts = self.snapshot.accounts.front();
        tallies_last();
        rules_last();
        let grown = self.snapshot.events.advance(alloc, events);
        if grown.is_err() {
            self.tallies = Tallies::new();
        }
        grown
    }

    /// Goes on to a later front of the receipts, as [`mx_snapshot::Receipts::advance`] does; the tallies stand. `Memory` leaves no receipt, and no
    /// tally.
    pub fn advance_receipts(
        &mut self,
        alloc: Global,
        receipts: Parts<Receipt>,
    ) -> Result<(), Memory>
        requires begins { Begins self.old.receipts receipts.items }
        requires placed { receipt.AreInPlace receipts.items }
        ensures ok { OnOk result (self.new.receipts ≡ receipts.items) }
        ensures err { OnErr result (self.new.receipts ≡ []) }
        ensures events { self.new.events ≡ self.old.events }
        ensures accounts { self.new.accounts ≡ self.old.accounts }
    {
        let _events = self.snapshot.events.front();
        let _receipts = self.snapshot.receipts.front();
        let _accounts = self.snapshot.accounts.front();
        tallies_last();
        rules_last();
        let grown = self.snapshot.receipts.advance(alloc, receipts);
        if grown.is_err() {
            self.tallies = Tallies::new();
        }
        grown
    }

    /// Goes on to a later front of the account data, as [`mx_snapshot::Accounts::advance`] does; the tallies stand. `Memory` leaves no entry, and no
    /// tally.
    pub fn advance_accounts(&mut self, alloc: Global, accounts: Parts<Entry>) -> Result<(), Memory>
        requires begins { Begins self.old.accounts accounts.items }
        requires placed { account.AreInPlace accounts.items }
        ensures ok { OnOk result (self.new.accounts ≡ accounts.items) }
        ensures err { OnErr result (self.new.accounts ≡ []) }
        ensures events { self.new.events ≡ self.old.events }
        ensures receipts { self.new.receipts ≡ self.old.receipts }
    {
        let _events = self.snapshot.events.front();
        let _receipts = self.snapshot.receipts.front();
        let _accounts = self.snapshot.accounts.front();
        tallies_last();
        rules_last();
        let grown = self.snapshot.accounts.advance(alloc, accounts);
        if grown.is_err() {
            self.tallies = Tallies::new();
        }
        grown
    }

    /// The reply to a sync, by the tallies.
    pub fn reply(&mut self, alloc: Global, ask: &SyncAsk<'_>) -> Result<Reply, SyncFault>
        requires valid { AreValid (lists_of self.old) }
        ensures same { self.new ≡ self.old }
        ensures reply { IfOk result (λ r. r ≡ reply_of (lists_of self.old) ask.now.user.now (asked ask.now)) }
        ensures behind { IfOk result (λ r. ahead_of ask.now.since (fronts_of (lists_of self.old)) ≡ None) }
        ensures ahead { (at front : ℕ) → IsErrOf result (faults.TokenAhead at front) ↔ (ahead_of ask.now.since (fronts_of (lists_of self.old)) ≡ Some (at, front)) }
    {
        reply_with(alloc, &self.snapshot, ask, &mut self.tallies)
    }
}

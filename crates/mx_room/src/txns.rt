//! The transactions in which a writer's events were sent.
ghost use Rattle.std.specs.Prelude.{◌≡◌, None, IfOk, OnOk};
ghost use Rattle.mx_room.specs.declared.txn_key.TxnKey.{TxnKey};
ghost use Rattle.mx_room.specs.Keys.{id_after, id_at, sent_at, txn_of};

use crate::txn_key::{TxnKey, id_rank};
use mx_event::Txn;
use mx_ids::{Copied, EventId, Memory};
use std::alloc::Global;
use std::collections::BTreeMap;

/// A transaction's key, if there is a transaction.
pub(crate) fn key_of(alloc: Global, txn: &Option<Txn>) -> Result<Option<TxnKey>, Memory>
    ensures { IfOk result (λ key. txn_of key ≡ txn.now) }
{
    match txn {
        Some(txn) => {
            let txn = txn.copy(alloc)?;
            let rank = id_rank(&txn.id);
            Ok(Some(TxnKey { rank, txn }))
        }
        None => Ok(None),
    }
}

/// A transaction, and the event that was sent in it.
#[derive(Drop)]
pub(crate) struct SentTxn {
    pub(crate) key: TxnKey,
    pub(crate) id: EventId,
}

/// The event of each transaction. The last one stands beside the others until memory may be taken.
#[derive(Drop)]
pub(crate) struct TxnIndex {
    pub(crate) earlier: BTreeMap<TxnKey, EventId>,
    pub(crate) last: Option<SentTxn>,
}

impl TxnIndex {
    /// No transaction. Takes no memory.
    pub(crate) fn new(alloc: Global) -> TxnIndex
        ensures { (k : TxnKey) → id_at result k ≡ None }
    {
        TxnIndex {
            earlier: BTreeMap::new(alloc),
            last: None,
        }
    }

    /// The event that was sent in a transaction, if there is one. Logarithmic in the number of transactions.
    pub(crate) fn sent(&self, key: &Option<TxnKey>) -> Option<EventId>
        ensures { result ≡ sent_at self.now key.now }
    {
        match key {
            Some(key) => self.id_at(key),
            None => None,
        }
    }

    fn id_at(&self, key: &TxnKey) -> Option<EventId>
        ensures { result ≡ id_at self.now key.now }
    {
        match &self.last {
            Some(last) if last.key == *key => Some(last.id),
            _ => self.earlier.get(key).copied(),
        }
    }

    /// Puts the last transaction among the others. `Memory` where the allocator refuses. What was sent stays.
    pub(crate) fn settle(&mut self) -> Result<(), Memory>
        ensures settled { OnOk result (self.new.last ≡ None) }
        ensures same { (k : TxnKey) → id_at self.new k ≡ id_at self.old k }
    {
        let Some(last) = self.last.take() else {
            return Ok(());
        };
        match self.earlier.insert(last.key, last.id) {
            Ok(_) => Ok(()),
            Err(failed) => {
                let ((key, id), refused) = Memory::with_value(failed);
                self.last = Some(SentTxn { key, id });
                Err(refused)
            }
        }
    }

    /// Sets the event of a transaction, once the others are settled. Takes no memory.
    pub(crate) fn put(&mut self, key: Option<TxnKey>, id: EventId)
        requires { self.old.last ≡ None }
        ensures { (k : TxnKey) → id_at self.new k ≡ id_after key id k (id_at self.old k) }
    {
        if let Some(key) = key {
            self.last = Some(SentTxn { key, id });
        }
    }
}

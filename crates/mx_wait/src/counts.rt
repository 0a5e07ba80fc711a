//! Words that threads read without a lock.

use crate::names::StreamName;
use std::sync::atomic::AtomicU64;

/// A number for each stream.
#[derive(Drop)]
pub(crate) struct Counts {
    events: AtomicU64,
    receipts: AtomicU64,
    accounts: AtomicU64,
}

impl Counts {
    /// All are 0.
    pub(crate) const fn new() -> Counts {
        Counts {
            events: AtomicU64::new(0),
            receipts: AtomicU64::new(0),
            accounts: AtomicU64::new(0),
        }
    }

    pub(crate) fn at(&self, stream: StreamName) -> &AtomicU64 {
        match stream {
            StreamName::Events => &self.events,
            StreamName::Receipts => &self.receipts,
            StreamName::Accounts => &self.accounts,
        }
    }
}

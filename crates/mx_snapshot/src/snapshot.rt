//! What a reader knows of the streams.

ghost use Rattle.std.specs.Prelude.{◌≡◌, []};

use crate::accounts::Accounts;
use crate::events::Events;
use crate::receipts::Receipts;
use std::alloc::Global;

/// The events, receipts and account data of a server up to their fronts. A reader keeps one, and each part goes
/// on to later fronts of its stream by itself.
#[derive(Drop)]
pub struct Snapshot {
    /// The events of all rooms.
    pub events: Events,
    /// The receipts of all rooms.
    pub receipts: Receipts,
    /// The account data of all users.
    pub accounts: Accounts,
}

impl Snapshot {
    /// Nothing: each front is 0. Takes no memory.
    pub fn new(alloc: Global) -> Snapshot
        ensures events { result.events ≡ [] }
        ensures receipts { result.receipts ≡ [] }
        ensures accounts { result.accounts ≡ [] }
    {
        Snapshot {
            events: Events::new(alloc),
            receipts: Receipts::new(alloc),
            accounts: Accounts::new(alloc),
        }
    }
}

//! What stands outside of an engine with a journal.

ghost use Rattle.std.specs.Prelude.{◌≡◌, true, IfOk, refl};

use mx_aims::{Rooms, rooms};
use mx_desk::{Desk, DeskKeeper, StreamTexts};
use mx_engine::Outside;
use mx_entries::{Accounts, Receipts, accounts, receipts};
use mx_ids::Memory;
use mx_keep::Journaled;
use mx_log::Log;
use mx_wait::StreamName;
use mx_writers::Gate;
use std::alloc::Global;
use std::sync::Arc;

/// Outside of an engine whose writers keep each store at a desk before they make it.
#[derive(Drop)]
pub struct Kept<L: Log + Drop> {
    desk: Arc<Desk<L>>,
}

impl<L: Log + Drop> Kept<L> {
    /// What stands outside of an engine whose stores are kept at a new desk.
    pub fn new(alloc: Global) -> Result<Kept<L>, Memory> {
        let desk = Arc::new(alloc, Desk::new(alloc)?)?;
        Ok(Kept { desk })
    }

    /// The desk.
    pub fn desk(&self) -> &Desk<L> {
        &self.desk
    }

    /// The keeper of a writer of a stream.
    fn keeper(
        &self,
        alloc: Global,
        stream: StreamName,
        writer: u8,
    ) -> Result<DeskKeeper<L, StreamTexts>, Memory>
        ensures { IfOk result (λ keeper. keeper.writer ≡ writer) }
    {
        let desk = Arc::try_clone(&self.desk)?;
        Ok(DeskKeeper::new(alloc, desk, StreamTexts { stream }, stream, writer))
    }
}

impl<L: Log + Drop> Gate for Kept<L> {
    ghost told = { λ gate shard first. true };

    fn drawn(&self, _shard: u8, _first: u64) {}
}

impl<L: Log + Drop + Send + 'static> Outside for Kept<L> {
    type Events = Journaled<Rooms, DeskKeeper<L, StreamTexts>>;

    type Receipts = Journaled<Receipts, DeskKeeper<L, StreamTexts>>;

    type Accounts = Journaled<Accounts, DeskKeeper<L, StreamTexts>>;

    fn events(&self, alloc: Global, writer: u8) -> Result<Self::Events, Memory> {
        let keeper = self.keeper(alloc, StreamName::Events, writer)?;
        Ok(Journaled::new(rooms(alloc, writer)?, keeper))
    }

    fn receipts(&self, alloc: Global, writer: u8) -> Result<Self::Receipts, Memory> {
        let keeper = self.keeper(alloc, StreamName::Receipts, writer)?;
        Ok(Journaled::new(receipts(alloc, writer), keeper))
    }

    fn accounts(&self, alloc: Global, writer: u8) -> Result<Self::Accounts, Memory> {
        let keeper = self.keeper(alloc, StreamName::Accounts, writer)?;
        Ok(Journaled::new(accounts(alloc, writer), keeper))
    }

    ghost decides_events = { refl };

    ghost decides_receipts = { refl };

    ghost decides_accounts = { refl };
}

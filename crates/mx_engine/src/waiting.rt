//! What a pass keeps for the syncs that wait on it.

ghost use Rattle.mx_engine.specs.Shown.{KeepsAll};

use crate::held::EnginePass;
use mx_ids::Memory;
use mx_wait::{Flag, Tickets, flag};
use std::alloc::Global;

impl EnginePass {
    /// A flag for a sync that waits on this pass: a twin of the one that the pass keeps. With the tickets that it keeps beside it
    /// a pass has one waker at each stream, however many syncs have waited on it.
    pub fn flag(&mut self, alloc: Global) -> Result<Flag, Memory>
        ensures { KeepsAll self.old self.new }
    {
        match &self.flag {
            Some(flag) => flag.twin(),
            None => self.first_flag(alloc),
        }
    }

    fn first_flag(&mut self, alloc: Global) -> Result<Flag, Memory>
        ensures { KeepsAll self.old self.new }
    {
        let first = flag(alloc)?;
        let twin = first.twin();
        self.flag = Some(first);
        twin
    }

    /// The tickets by which the pass's flag was parked last. Takes no memory.
    pub fn tickets(&self) -> Option<Tickets> {
        self.tickets
    }

    /// Keeps the tickets by which the pass's flag was parked last. Takes no memory.
    pub fn keep(&mut self, tickets: Option<Tickets>)
        ensures { KeepsAll self.old self.new }
    {
        self.tickets = tickets;
    }
}

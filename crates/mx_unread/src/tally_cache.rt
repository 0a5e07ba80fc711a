//! Tallies by room and user.

ghost use Rattle.std.specs.Prelude.{◌≡◌, [], length, IfOk};
ghost use Rattle.mx_unread.specs.Cached.{AreKeyed, tallies_of};

use crate::held::Held;
use mx_ids::Memory;
use std::alloc::Global;
use std::marker::Model;

/// The tallies that were used last, each under its own room and user: one is found in expected constant time, however many there
/// are. Contracts see the list of them, the one that was used last first.
#[derive(Drop)]
pub(crate) struct TallyCache {
    /// `None` until there is a tally.
    pub(crate) held: Option<Held>,
}

impl Model for TallyCache {
    ghost use Rattle.std.specs.Prelude.{List};
    ghost use Rattle.std.specs.Coded.{coded_list};
    ghost use Rattle.mx_unread.specs.Cached.{AreKeyed, entries_of, tallies_of};
    ghost use Rattle.mx_unread.specs.contracts.running.Tally as row;
    ghost use Rattle.mx_unread.specs.declared.running.Tally.{Tally};

    ghost Value = { List Tally };

    ghost coded = { coded_list row.the_row.coded };

    ghost view = { λ c. tallies_of (entries_of c.held) };

    ghost invariant = { λ c. AreKeyed (entries_of c.held) };
}

impl TallyCache {
    /// No tally. Takes no memory.
    pub(crate) fn new() -> TallyCache
        ensures { result ≡ [] }
    {
        TallyCache { held: None }
    }

    /// Takes the tallies out; none is left here. Takes memory where there was none.
    pub(crate) fn take(&mut self, alloc: Global) -> Result<Held, Memory>
        ensures keyed { IfOk result (λ h. AreKeyed h.cache.entries) }
        ensures all { IfOk result (λ h. tallies_of h.cache.entries ≡ self.old) }
        ensures left { self.new ≡ [] }
    {
        match self.held.take() {
            Some(held) => Ok(held),
            None => Held::new(alloc),
        }
    }

    /// Keeps these tallies, and no others.
    pub(crate) fn put(&mut self, held: Held)
        requires { AreKeyed held.cache.entries }
        ensures { self.new ≡ tallies_of held.cache.entries }
    {
        self.held = Some(held);
    }
    /// How many tallies there are.
    pub(crate) fn len(&self) -> usize
        ensures { result ≡ length self.now }
    {
        match &self.held {
            Some(held) => held.cache.len(),
            None => 0,
        }
    }
}

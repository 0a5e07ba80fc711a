//! What is kept from count to count.

ghost use Rattle.std.specs.Prelude.{◌≡◌, length};
ghost use Rattle.mx_snapshot.specs.declared.snapshot.Snapshot.{Snapshot};
ghost use Rattle.mx_unread.specs.Standing.{Stand};

use crate::read_rules::ReadRules;
use crate::tally_cache::TallyCache;

/// Tallies of the rooms that were counted last, with the push rules that were read last.
#[derive(Drop)]
pub struct Tallies {
    pub(crate) list: TallyCache,
    pub(crate) rules: Option<ReadRules>,
}

impl Tallies {
    /// No tally, and no rules. They stand for every snapshot. Takes no memory.
    pub fn new() -> Tallies
        ensures { (s : Snapshot) → Stand s result }
    {
        Tallies {
            list: TallyCache::new(),
            rules: None,
        }
    }

    /// How many tallies are kept. Takes no memory.
    pub fn count(&self) -> usize
        ensures { result ≡ length self.now.list }
    {
        self.list.len()
    }
}

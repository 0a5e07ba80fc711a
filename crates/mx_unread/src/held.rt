//! Tallies with the memory that they take.

ghost use Rattle.mx_snapshot.specs.declared.snapshot.Snapshot.{Snapshot};
ghost use Rattle.mx_unread.specs.Cached.{AreStanding};
ghost use Rattle.mx_unread.specs.Kept.{IsOf, StandsWithin};
ghost use Rattle.std.specs.Prelude.{◌≡◌, [], IfOk};

use crate::running::Tally;
use crate::tally_key::TallyKey;
use lru::LruCache;
use mx_ids::Memory;
use std::alloc::Global;
use std::num::NonZeroUsize;

/// How many tallies are kept at most. One takes up to 310 bytes with its place in the cache, and its user's id twice: together 27 MB
/// for ids of 255 bytes, 12 MB for ids of 25.
const MOST_TALLIES: usize = 32_768;

/// For how many unread events the tallies together have room at most, at eight bytes each; a highlighted one counts twice.
const MOST_PLACES: usize = 4_194_304;

/// Tallies, the one that was used last first, with the room that they take.
#[derive(Drop)]
pub(crate) struct Held {
    pub(crate) cache: LruCache<TallyKey, Tally>,
    /// For how many positions the tallies have room.
    pub(crate) places: usize,
}

impl Held {
    /// No tally.
    pub(crate) fn new(alloc: Global) -> Result<Held, Memory>
        ensures { IfOk result (λ h. h.cache.entries ≡ []) }
    {
        let most = NonZeroUsize::new(MOST_TALLIES).unwrap();
        Ok(Held {
            cache: LruCache::sparse(alloc, most)?,
            places: 0,
        })
    }

    /// Keeps a tally under its key, if there is memory.
    pub(crate) fn keep(&mut self, key: TallyKey, used: Tally)
        requires { IsOf used key.room key.user }
        ensures { (s : Snapshot) → AreStanding s self.old.cache.entries → StandsWithin s used → AreStanding s self.new.cache.entries }
    {
        let places = used.places();
        if self.cache.put(key, used).is_ok() {
            self.places = self.places.saturating_add(places);
        }
    }

    /// Drops the tallies that were used longest ago, until one more has its place and the others no more room than they may.
    pub(crate) fn drop_oldest(&mut self)
        ensures { (s : Snapshot) → AreStanding s self.old.cache.entries → AreStanding s self.new.cache.entries }
    {
        'tallies: for _ in 1..self.cache.len() {
            if !self.is_full() {
                return;
            }
            self.drop_one();
        }
    }

    fn is_full(&self) -> bool {
        MOST_PLACES < self.places || MOST_TALLIES <= self.cache.len()
    }

    fn drop_one(&mut self)
        ensures { (s : Snapshot) → AreStanding s self.old.cache.entries → AreStanding s self.new.cache.entries }
    {
        if let Some((_, oldest)) = self.cache.pop_lru() {
            self.places = self.places.saturating_sub(oldest.places());
        }
    }
}

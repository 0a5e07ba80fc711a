//! Whose a tally is.

ghost use Rattle.std.specs.Prelude.{◌≡◌, ◌++◌, IfOk};
ghost use Rattle.std.specs.Cmp.Rules.{hashing};
ghost use Rattle.std.specs.Hash as fed;
ghost use Rattle.std.proofs.Common.{rules};

use mx_ids::{Copied, Memory, RoomId, UserId};
use std::alloc::Global;
use std::hash::{Hash, Hasher};

/// The room and the user of a tally. Room ids are numbers that the server gives, and users are those that it was started with, so
/// nobody picks keys for their hashes.
#[derive(PartialEq, Eq, Drop)]
pub(crate) struct TallyKey {
    pub(crate) room: RoomId,
    pub(crate) user: UserId,
}

impl TallyKey {
    pub(crate) fn new(alloc: Global, room: &RoomId, user: &UserId) -> Result<TallyKey, Memory>
        ensures room { IfOk result (λ k. k.room ≡ room.now) }
        ensures user { IfOk result (λ k. k.user ≡ user.now) }
    {
        Ok(TallyKey {
            room: *room,
            user: user.copy(alloc)?,
        })
    }
}

impl Hash for TallyKey {
    ghost hash_input = { λ k. fed.u8 k.room.writer ++ fed.u64 k.room.at ++ fed.str k.user };

    ghost respects_eq = { Prim.search (hashing, rules) };

    fn hash<H: Hasher>(&self, state: &mut H) {
        self.room.writer.hash(state);
        self.room.at.hash(state);
        self.user.hash(state);
    }
}

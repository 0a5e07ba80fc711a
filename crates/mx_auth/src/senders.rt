//! Who sent the events of a room.
ghost use Rattle.std.specs.Prelude.{◌≡◌, ◌<◌, [], true, length, slice_index_or, IfSome, IsSome, OnOk};
ghost use Rattle.mx_auth.specs.Placing.{is_in, Longer};

use mx_ids::{Copied, Memory, UserId};
use std::alloc::Global;
use std::collections::BTreeMap;
use std::marker::Model;

/// The users who sent events of a room, each with a number.
#[derive(Drop)]
pub(crate) struct Senders {
    names: Vec<UserId>,
    numbers: BTreeMap<String, usize>,
}

impl Model for Senders {
    ghost use Rattle.mx_auth.specs.Placing.{IsNumbered, SenderList};

    ghost Value = { SenderList };

    ghost view = { λ s. record { names = s.names.items } };

    ghost invariant = { λ s. IsNumbered s.names.items s.numbers };
}

impl Senders {
    /// No sender. Takes no memory.
    pub(crate) fn new(alloc: Global) -> Senders
        ensures { result.names ≡ [] }
    {
        Senders {
            names: Vec::new(alloc),
            numbers: BTreeMap::new(alloc),
        }
    }

    /// Gives a user a number, if there is none yet. `Memory` leaves the numbers.
    pub(crate) fn add(&mut self, alloc: Global, user: &UserId) -> Result<(), Memory>
        ensures names { Longer self.old.names self.new.names }
        ensures known { OnOk result (is_in self.new.names user.now ≡ true) }
    {
        if self.numbers.contains_key(user.as_str()) {
            return Ok(());
        }
        let number = self.names.len();
        self.names.reserve(1)?;
        let name = user.copy(alloc)?;
        let key = String::from_str(alloc, user.as_str())?;
        self.numbers.insert(key, number)?;
        self.names.push(name).unwrap();
        Ok(())
    }

    /// The number of a user. Logarithmic in the number of users.
    pub(crate) fn number(&self, user: &str) -> Option<usize>
        ensures known { is_in self.now.names user.now ≡ true → IsSome result }
        ensures named { IfSome result (λ n. (n < length self.now.names) × (slice_index_or self.now.names n [] ≡ user.now)) }
    {
        self.numbers.get(user).copied()
    }

    /// The id of the user with a number; empty where there is none.
    pub(crate) fn name(&self, number: usize) -> &str
        ensures { result.now ≡ slice_index_or self.now.names number [] }
    {
        match self.names.get(number) {
            Some(name) => name.as_str(),
            None => "",
        }
    }
}

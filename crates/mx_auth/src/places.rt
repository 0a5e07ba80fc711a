//! At which positions the events of a room stand, and who sent them.
ghost use Rattle.std.specs.Prelude.{◌≡◌, ◌<◌, ◌≤◌, ◌+◌, ◌&&◌, ◌||◌, ◌==◌, [], true, OnOk, slice_index_or};
ghost use Rattle.std.specs.List.{filter, list_any};
ghost use Rattle.std.specs.List.Sorted.{IsNonDecreasingBy};
ghost use Rattle.std.specs.Str.{bytes_eq};
ghost use Rattle.mx_auth.specs.declared.places.SentAt.{SentAt};
ghost use Rattle.mx_auth.specs.Placing.{any_place, is_in, is_sent_at, sent_position, Longer, PlaceTest};

use crate::senders::Senders;
use mx_ids::{Memory, UserId};
use std::alloc::Global;
use std::marker::Model;

/// The position of an event, and the number of who sent it.
#[derive(Drop)]
pub(crate) struct SentAt {
    pub(crate) at: u64,
    pub(crate) by: usize,
}

/// The places of the events of a room, in the order of their positions, with spare places that are made beforehand.
#[derive(Drop)]
pub(crate) struct Places {
    senders: Senders,
    items: Vec<SentAt>,
    /// How many places can be put without memory.
    spare: usize,
}

impl Model for Places {
    ghost use Rattle.std.specs.Prelude.{◌≤◌, ◌+◌, length, map, vec_len};
    ghost use Rattle.std.specs.List.Sorted.{IsNonDecreasingBy};
    ghost use Rattle.std.specs.Vec.{vec_capacity};
    ghost use Rattle.mx_auth.specs.Placing.{AreNamed, PlaceList, place_of, sent_position};

    ghost Value = { PlaceList };

    ghost view = { λ p. record { items = map (place_of p.senders.names) p.items.items; names = p.senders.names; spare = p.spare } };

    ghost invariant = { λ p. IsNonDecreasingBy sent_position p.items.items × (vec_len p.items + p.spare ≤ vec_capacity p.items) × AreNamed (length p.senders.names) p.items.items };
}

impl Places {
    /// No place, and none that is spare. Takes no memory.
    pub(crate) fn new(alloc: Global) -> Places
        ensures { result.items ≡ [] }
    {
        Places {
            senders: Senders::new(alloc),
            items: Vec::new(alloc),
            spare: 0,
        }
    }

    /// Makes at least `count` spare places, and gives a sender a number. `Memory` leaves the places and those that are spare.
    pub(crate) fn reserve(
        &mut self,
        alloc: Global,
        count: usize,
        sender: &UserId,
    ) -> Result<(), Memory>
        ensures items { self.new.items ≡ self.old.items }
        ensures enough { OnOk result (count ≤ self.new.spare) }
        ensures known { OnOk result (is_in self.new.names sender.now ≡ true) }
        ensures spare { self.old.spare ≤ self.new.spare }
        ensures names { Longer self.old.names self.new.names }
    {
        self.items.reserve(count)?;
        self.spare = self.spare.max(count);
        self.senders.add(alloc, sender)
    }

    /// Puts the place of an event after those with no larger position. Takes no memory.
    pub(crate) fn put(&mut self, at: u64, sender: &str)
        requires spare { 0 < self.old.spare }
        requires known { is_in self.old.names sender.now ≡ true }
        ensures items { (test : PlaceTest) → any_place test self.new.items ≡ (test at sender.now || any_place test self.old.items) }
        ensures spare { self.new.spare + 1 ≡ self.old.spare }
        ensures names { self.new.names ≡ self.old.names }
    {
        let by = self.senders.number(sender).unwrap();
        let index = self.items.partition_point(|before| before.at <= at);
        self.items.insert(index, SentAt { at, by }).unwrap();
        self.spare -= 1;
    }

    /// Whether an event is at a position. Logarithmic in the number of places.
    pub(crate) fn has(&self, at: u64) -> bool
        ensures { result ≡ any_place (λ p sender. at == p) self.now.items }
    {
        !those_at(self.items.as_slice(), at).is_empty()
    }

    /// Whether a user sent an event at a position. Logarithmic in the number of places, at each position of one event.
    pub(crate) fn has_by(&self, at: u64, user: &str) -> bool
        ensures { result ≡ any_place (λ p sender. (at == p) && bytes_eq sender user.now) self.now.items }
    {
        any_by(those_at(self.items.as_slice(), at), &self.senders, user)
    }
}

/// The places at a position. Logarithmic in the number of places.
fn those_at(items: &[SentAt], at: u64) -> &[SentAt]
    requires { IsNonDecreasingBy sent_position items.now }
    ensures { result.now ≡ filter (is_sent_at at) items.now }
{
    let from = items.partition_point(|sent| sent.at < at);
    let rest = &items[from..];
    let count = rest.partition_point(|sent| sent.at <= at);
    &rest[..count]
}

/// Whether a user sent one of some events.
fn any_by(items: &[SentAt], senders: &Senders, user: &str) -> bool
    ensures { result ≡ list_any (λ (s : SentAt). bytes_eq (slice_index_or senders.now.names s.by []) user.now) items.now }
{
    items.iter().any(|sent| senders.name(sent.by) == user)
}

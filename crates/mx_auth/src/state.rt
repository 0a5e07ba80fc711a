//! The state of a room as the rules read it.
ghost use Rattle.std.specs.Prelude.{◌≡◌, [], ◌∷◌, ◌++◌, ◌==◌, length, drop, option_map, OnOk, OnErr};
ghost use Rattle.mx_event.specs.Lawful.{placed_event};
ghost use Rattle.mx_event.specs.Levels.{powers};
ghost use Rattle.mx_event.specs.State.{creator, join_rule, membership_of};
ghost use Rattle.mx_auth.specs.Kept.{has_event, has_sent};
ghost use Rattle.mx_auth.specs.Standing.{no_standing};

use crate::kept::{Change, Count, Kept};
use crate::kinds::target;
use crate::taken::Taken;
use mx_event::Event;
use mx_ids::{Memory, Text, UserId};
use mx_json::Json;
use std::alloc::Global;
use std::collections::VecDeque;
use std::marker::Model;

/// The state of a room after its events, as far as the authorization rules read it. Contracts see it as the list of the
/// events that it took in, and beside it the list of the events that are ready to be taken in; of these it holds what the rules ask
/// alone.
#[derive(Drop)]
pub struct AuthState {
    alloc: Global,
    kept: Kept,
    /// What the events that are ready set, in their order.
    waiting: VecDeque<Change>,
    taken: Taken,
    ready: Taken,
}

impl Model for AuthState {
    ghost use Rattle.mx_event.specs.contracts.event.Event.{the_row as event_row};
    ghost use Rattle.mx_auth.specs.Standing.{Standing, standing_code};

    ghost Value = { Standing };

    ghost coded = { standing_code event_row.coded };

    ghost use Rattle.mx_auth.specs.Kept.{IsKept, IsWaiting};

    ghost view = { λ s. record { events = s.taken.events; ready = s.ready.events } };

    ghost invariant = { λ s. IsKept s.kept s.taken.events × IsWaiting s.kept s.waiting.items s.ready.events };
}

impl AuthState {
    /// The state of a room without events. Takes no memory.
    pub fn empty(alloc: Global) -> AuthState
        ensures { result ≡ no_standing }
    {
        AuthState {
            alloc,
            kept: Kept::new(alloc),
            waiting: VecDeque::new(alloc),
            taken: Taken::new(),
            ready: Taken::new(),
        }
    }

    /// Takes an event in, after those that were taken in before it. `Memory` where an allocation that a copy of what it sets
    /// needs is refused: the state is then as it was. The time is linear in the size of what is copied, and logarithmic in
    /// the number of events where positions rise, as they do in a room.
    pub fn take(&mut self, event: &Event) -> Result<(), Memory>
        ensures ok { OnOk result (self.new ≡ record self.old { events = self.old.events ++ event.now ∷ [] }) }
        ensures same { OnErr result (self.new ≡ self.old) }
    {
        let count = self.waiting.len() + 1;
        let change = self.kept.prepare(self.alloc, event, count)?;
        self.kept
            .settle(target(event), event.sender.as_str(), change, event.id.at);
        self.taken = Taken::with(&self.taken, event);
        Ok(())
    }

    /// Readies an event, after those that are ready already: `take_ready` can then take it in without memory. `Memory`
    /// where an allocation that a copy of what it sets needs is refused: the state is then as it was.
    pub fn make_ready(&mut self, event: &Event) -> Result<(), Memory>
        ensures ok { OnOk result (self.new ≡ record self.old { ready = self.old.ready ++ event.now ∷ [] }) }
        ensures same { OnErr result (self.new ≡ self.old) }
    {
        let count = self.waiting.len() + 1;
        let change = self.kept.prepare(self.alloc, event, count)?;
        self.waiting.push_back(change)?;
        self.ready = Taken::with(&self.ready, event);
        Ok(())
    }

    /// Takes in the first of the events that are ready, as it stands at the position `at` in a block that begins at
    /// `first`. Takes no memory.
    pub fn take_ready(&mut self, event: &Event, first: u64, at: u64)
        requires { self.old.ready ≡ event.now ∷ drop 1 self.old.ready }
        ensures { self.new ≡ record { events = self.old.events ++ placed_event event.now first at ∷ []; ready = drop 1 self.old.ready } }
    {
        let change = self.waiting.pop_front().unwrap();
        self.kept
            .settle(target(event), event.sender.as_str(), change, at);
        self.taken = Taken::placed(&self.taken, event, &first, &at);
        self.ready = Taken::rest(&self.ready);
        self.release();
    }

    /// Drops the events that are ready. Takes no memory.
    pub fn drop_ready(&mut self)
        ensures { self.new ≡ record self.old { ready = [] } }
    {
        self.waiting = VecDeque::new(self.alloc);
        self.ready = Taken::new();
    }

    /// Gives back the memory of what the events that were ready set, once none is left: a room keeps none of it.
    fn release(&mut self)
        ensures { self.new ≡ self.old }
    {
        if self.waiting.is_empty() {
            self.waiting = VecDeque::new(self.alloc);
        }
    }

    /// The membership of a user (Client-Server API, m.room.member), or `None` where no member event of the user stands, or
    /// it gives none. Takes no memory.
    pub fn membership(&self, user: &UserId) -> Option<&Text>
        ensures { option_map (λ t. t.now) result ≡ membership_of user.now self.now.events }
    {
        self.membership_of(user.as_str())
    }

    pub(crate) fn membership_of(&self, user: &str) -> Option<&Text>
        ensures { option_map (λ t. t.now) result ≡ membership_of user.now self.now.events }
    {
        match self.kept.memberships.get(user) {
            Some(membership) => membership.as_ref(),
            None => None,
        }
    }

    /// The content of the standing power levels (Client-Server API, m.room.power_levels), or `None` where none stand. Takes
    /// no memory.
    pub fn powers(&self) -> Option<&Json>
        ensures { option_map (λ j. j.now) result ≡ powers self.now.events }
    {
        self.kept.powers.as_ref()
    }

    /// Who created the room.
    pub(crate) fn creator(&self) -> Option<&UserId>
        ensures { option_map (λ u. u.now) result ≡ creator self.now.events }
    {
        self.kept.creator.as_ref()
    }

    pub(crate) fn join_rule(&self) -> Option<&Text>
        ensures { option_map (λ t. t.now) result ≡ join_rule self.now.events }
    {
        self.kept.join_rule.as_ref()
    }

    /// Whether there is no event.
    pub(crate) fn is_empty(&self) -> bool
        ensures { result ≡ (length self.now.events == 0) }
    {
        matches!(self.kept.count, Count::Zero)
    }

    /// Whether there is one event alone.
    pub(crate) fn has_one_event(&self) -> bool
        ensures { result ≡ (length self.now.events == 1) }
    {
        matches!(self.kept.count, Count::One)
    }

    /// Whether a user sent an event at a position.
    pub(crate) fn has_sent(&self, user: &UserId, at: u64) -> bool
        ensures { result ≡ has_sent user.now at self.now.events }
    {
        self.kept.places.has_by(at, user.as_str())
    }

    /// Whether an event is at a position.
    pub(crate) fn has_event(&self, at: u64) -> bool
        ensures { result ≡ has_event at self.now.events }
    {
        self.kept.places.has(at)
    }
}

//! Whose syncs rest, and at which places.

use mx_account::Entry;
use mx_event::Event;
use mx_event::event_types::MEMBER;
use mx_ids::{Memory, RoomId, SyncToken};
use mx_poll::EnginePass;
use mx_snapshot::{Accounts, Events, Receipts};
use std::alloc::Global;
use std::collections::{BTreeMap, BTreeSet};

/// The places at which syncs rest, by the users who asked them, and these users by the rooms in which they have a member event: who
/// is concerned by what came is found at a cost in what came and in the number of those.
#[derive(Drop)]
pub(crate) struct Resting {
    /// The number of each user who asked one.
    numbers: BTreeMap<String, usize>,
    /// By the user's number, the places at which its syncs rest.
    places: Vec<BTreeSet<usize>>,
    /// The numbers of the users who have a member event in a room.
    rooms: BTreeMap<RoomId, BTreeSet<usize>>,
    /// Each place at which a sync rests, with the number of its user.
    users: BTreeMap<usize, usize>,
    /// Up to these fronts the rooms are known, and who rested was told of what came.
    told: SyncToken,
}

impl Resting {
    /// No sync rests. Takes no memory.
    pub(crate) fn new(alloc: Global, pass: &EnginePass) -> Resting {
        Resting {
            numbers: BTreeMap::new(alloc),
            places: Vec::new(alloc),
            rooms: BTreeMap::new(alloc),
            users: BTreeMap::new(alloc),
            told: pass.fronts(),
        }
    }

    /// Whether no sync rests.
    pub(crate) fn is_empty(&self) -> bool {
        self.users.is_empty()
    }

    /// A sync of a user rests at a place, on what the pass knows.
    pub(crate) fn put(
        &mut self,
        alloc: Global,
        pass: &EnginePass,
        which: usize,
        user: &str,
    ) -> Result<(), Memory> {
        let number = self.number(alloc, pass, user)?;
        self.remove(which);
        if let Some(places) = self.places.get_mut(number) {
            places.insert(which)?;
        }
        self.users.insert(which, number)?;
        Ok(())
    }

    /// None rests at a place any more.
    pub(crate) fn remove(&mut self, which: usize) {
        if let Some(number) = self.users.remove(&which) {
            if let Some(places) = self.places.get_mut(number) {
                places.remove(&which);
            }
        }
    }

    /// Puts down each place whose sync is concerned by what the pass knows beyond what was told, and that none rests there: an event or a receipt
    /// of a room in which its user has a member event, or its account data. `Memory` leaves it untold.
    pub(crate) fn take_concerned(
        &mut self,
        alloc: Global,
        pass: &EnginePass,
        found: &mut Vec<usize>,
    ) -> Result<(), Memory> {
        let snapshot = pass.snapshot();
        let mut rooms = BTreeSet::new(alloc);
        self.take_events(alloc, &snapshot.events, &mut rooms)?;
        add_rooms(&snapshot.receipts, self.told.r, &mut rooms)?;
        'rooms: for room in rooms.iter() {
            self.take_in(room, found)?;
        }
        self.take_owners(&snapshot.accounts, found)?;
        self.told = pass.fronts();
        Ok(())
    }

    /// Puts down each place at which a sync rests, and that none rests there.
    pub(crate) fn take_all(&mut self, found: &mut Vec<usize>) -> Result<(), Memory> {
        'places: for number in 0..self.places.len() {
            take_of(&mut self.places, &mut self.users, number, found)?;
        }
        Ok(())
    }

    /// The number of a user: one that it has, or a new one, under which it is put into its rooms.
    fn number(&mut self, alloc: Global, pass: &EnginePass, user: &str) -> Result<usize, Memory> {
        if let Some(number) = self.numbers.get(user) {
            return Ok(*number);
        }
        let number = self.places.len();
        if number == 0 {
            self.told = pass.fronts();
        }
        let rooms = pass.snapshot().events.rooms_of(alloc, user)?;
        'rooms: for (room, _) in rooms.as_slice() {
            self.enter(alloc, *room, number)?;
        }
        let name = String::from_str(alloc, user)?;
        self.places.push(BTreeSet::new(alloc))?;
        self.numbers.insert(name, number)?;
        Ok(number)
    }

    /// A user has a member event in a room.
    fn enter(&mut self, alloc: Global, room: RoomId, number: usize) -> Result<(), Memory> {
        if let Some(users) = self.rooms.get_mut(&room) {
            users.insert(number)?;
            return Ok(());
        }
        let mut users = BTreeSet::new(alloc);
        users.insert(number)?;
        self.rooms.insert(room, users)?;
        Ok(())
    }

    /// Takes in the events that weren't told, and adds their rooms to others.
    fn take_events(
        &mut self,
        alloc: Global,
        events: &Events,
        rooms: &mut BTreeSet<RoomId>,
    ) -> Result<(), Memory> {
        'events: for passed in self.told.e..events.front() {
            if let Some(event) = events.at(passed + 1) {
                self.take_member(alloc, event)?;
                rooms.insert(event.room)?;
            }
        }
        Ok(())
    }

    /// Where the event is the member event of a user who has a number, the user is in its room.
    fn take_member(&mut self, alloc: Global, event: &Event) -> Result<(), Memory> {
        match &event.state_key {
            Some(user) if event.is_of(MEMBER) => match self.numbers.get(user.as_str()).copied() {
                Some(number) => self.enter(alloc, event.room, number),
                None => Ok(()),
            },
            _ => Ok(()),
        }
    }

    /// Puts down the places of the users who have a member event in a room.
    fn take_in(&mut self, room: &RoomId, found: &mut Vec<usize>) -> Result<(), Memory> {
        if let Some(users) = self.rooms.get(room) {
            'users: for user in users.iter() {
                take_of(&mut self.places, &mut self.users, *user, found)?;
            }
        }
        Ok(())
    }

    /// Puts down the places of the users whose account data wasn't told.
    fn take_owners(&mut self, accounts: &Accounts, found: &mut Vec<usize>) -> Result<(), Memory> {
        'entries: for passed in self.told.a..accounts.front() {
            if let Some(Entry::Data { user, .. }) = accounts.at(passed + 1) {
                if let Some(number) = self.numbers.get(user.as_str()) {
                    take_of(&mut self.places, &mut self.users, *number, found)?;
                }
            }
        }
        Ok(())
    }
}

/// Puts down the places at which syncs of a user rest, and that none rests there.
fn take_of(
    places: &mut Vec<BTreeSet<usize>>,
    users: &mut BTreeMap<usize, usize>,
    number: usize,
    found: &mut Vec<usize>,
) -> Result<(), Memory> {
    let Some(places) = places.get_mut(number) else {
        return Ok(());
    };
    'places: for which in places.iter() {
        found.push(*which)?;
        users.remove(which);
    }
    places.clear();
    Ok(())
}

/// Adds the rooms of the receipts after the first so many to others.
fn add_rooms(receipts: &Receipts, told: u64, rooms: &mut BTreeSet<RoomId>) -> Result<(), Memory> {
    'receipts: for passed in told..receipts.front() {
        if let Some(receipt) = receipts.at(passed + 1) {
            rooms.insert(receipt.room)?;
        }
    }
    Ok(())
}

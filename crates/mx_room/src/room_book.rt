//! The rooms of one writer.
ghost use Rattle.std.specs.Prelude.{◌≡◌, ◌⊎◌, ◌+◌, ◌<◌, ◌^◌, [], ◌∷◌, ◌++◌, MatchOption, Ok, Err, IfOk, IfErr, OnOk, length, map, option_map, None, vec_len};
ghost use Rattle.std.specs.List.{AllByRecursion};
ghost use Rattle.std.specs.Vec.{vec_capacity};
ghost use Rattle.mx_core.specs.History.{placed_from};
ghost use Rattle.mx_event.specs.Forms.{fits};
ghost use Rattle.mx_event.specs.Lawful.{placed_event};
ghost use Rattle.mx_event.specs.State.{membership_of};
ghost use Rattle.mx_ids.specs.Memory.{refused_memory};
ghost use Rattle.mx_ids.specs.User.{server_of};
ghost use Rattle.mx_room.specs.declared.fault.RoomFault.TheVariants as faults;
ghost use Rattle.mx_room.specs.Admitting.{admitted_by, answered, has_room, outcome, ready_block};
ghost use Rattle.mx_room.specs.Books.{no_rooms, room_events, taken_in, MayStand, SameRooms};
ghost use Rattle.mx_room.specs.Creating.{IsNew};
ghost use Rattle.mx_room.specs.Held.{bare, events_in, IsRoomAt, Rises};
ghost use Rattle.mx_room.specs.Keys.{txn_of};

use crate::admitted::{Admitted, Ready};
use crate::fault::RoomFault;
use crate::judged::judge;
use crate::ledger::Ledger;
use crate::rooms::{Room, index_of, make_all_ready, make_one_ready, take_all, take_all_in};
use crate::txn_key::TxnKey;
use crate::txns::TxnIndex;
use crate::weighed::Weighed;
use mx_auth::AuthState;
use mx_core::Prepared;
use mx_event::Event;
use mx_ids::{EventId, Memory, RoomId, Seq, Text, UserId};
use std::alloc::Global;
use std::marker::Model;

/// The rooms of one writer after its own stores. Contracts see it as these stores, and beside them as the block that is
/// ready to be stored; it holds the states of the rooms and an index of the transactions alone.
#[derive(Drop)]
pub struct RoomBook {
    alloc: Global,
    writer: u8,
    /// The rooms, in the order of the positions at which they were created.
    rooms: Vec<Room>,
    txns: TxnIndex,
    /// The transaction of the pending event.
    key: Option<TxnKey>,
    /// The state of the room that the pending block creates.
    fresh: Option<AuthState>,
    ledger: Ledger,
}

impl Model for RoomBook {
    ghost use Rattle.std.specs.Prelude.{◌<◌, vec_len};
    ghost use Rattle.std.specs.Vec.{vec_capacity};
    ghost use Rattle.mx_event.specs.contracts.event.Event.{the_row as event_row};
    ghost use Rattle.mx_room.specs.Books.{Rooms};
    ghost use Rattle.mx_room.specs.Coding.{rooms_code};
    ghost use Rattle.mx_room.specs.Held.{IsBook};

    ghost Value = { Rooms };

    ghost coded = { rooms_code event_row.coded };

    ghost view = { λ b. b.ledger.rooms };

    ghost invariant = { λ b. IsBook b.writer b.rooms.items b.txns b.key b.fresh (vec_len b.rooms < vec_capacity b.rooms) b.ledger.rooms };
}

/// The rooms of a writer without stores. Takes no memory today, and `Memory` is never answered.
pub fn book(alloc: Global, writer: u8) -> Result<RoomBook, Memory>
    ensures { IfOk result (λ b. b ≡ no_rooms writer) }
{
    Ok(RoomBook {
        alloc,
        writer,
        rooms: Vec::new(alloc),
        txns: TxnIndex::new(alloc),
        key: None,
        fresh: None,
        ledger: Ledger::empty(&writer),
    })
}

impl RoomBook {
    /// The writer of the rooms.
    pub fn writer(&self) -> u8
        ensures { result ≡ self.now.writer }
    {
        self.writer
    }

    /// The membership of a user in a room (Client-Server API, m.room.member), or `None` where the writer has no such room,
    /// no member event of the user stands, or it gives none. Takes no memory.
    pub fn membership(&self, room: &RoomId, user: &UserId) -> Option<&Text>
        ensures { option_map (λ t. t.now) result ≡ membership_of user.now (room_events self.now room.now) }
    {
        let state = self.state(room)?;
        state.membership(user)
    }

    /// Whether the writer has a room. Takes no memory; logarithmic in the number of rooms.
    pub fn has_room(&self, room: &RoomId) -> bool
        ensures { result ≡ has_room self.now room.now }
    {
        find_room(self.rooms.as_slice(), self.writer, room).is_some()
    }

    /// What becomes of a draft: an event that may be stored, and is ready, or the id of the event that the
    /// device sent before in the same transaction. A refusal leaves the rooms as they were. It costs a look for the room and
    /// for the transaction, the rules, and the copies of what the event sets.
    pub fn admit(&mut self, draft: Weighed) -> Result<Admitted, RoomFault>
        ensures found { IfOk result (λ a. admitted_by self.old draft ≡ Ok a) }
        ensures refused { IfErr result (λ f. (f ≡ faults.Memory refused_memory) ⊎ (admitted_by self.old draft ≡ Err f)) }
        ensures same { SameRooms self.old self.new }
        ensures pending { IfOk result (λ a. self.new.pending ≡ ready_block a self.old.pending) }
    {
        let Weighed {
            event,
            key,
            is_small,
        } = draft;
        match self.ready_one(&event, key, is_small)? {
            Some(id) => Ok(Admitted::Repeat(id)),
            None => Ok(Admitted::Ready(Ready { event })),
        }
    }

    /// Readies an event, or answers the id of the event that the device sent before in the same transaction.
    fn ready_one(
        &mut self,
        event: &Event,
        key: Option<TxnKey>,
        is_small: bool,
    ) -> Result<Option<EventId>, RoomFault>
        requires keyed { txn_of key ≡ event.now.txn }
        requires sized { is_small ≡ fits (server_of event.now.sender) event.now }
        ensures found { IfOk result (λ sent. outcome self.old event.now ≡ Ok (answered event.now sent)) }
        ensures refused { IfErr result (λ f. (f ≡ faults.Memory refused_memory) ⊎ (outcome self.old event.now ≡ Err f)) }
        ensures same { SameRooms self.old self.new }
        ensures pending { IfOk result (λ sent. self.new.pending ≡ ready_block (answered event.now sent) self.old.pending) }
    {
        let Some(index) = find_room(self.rooms.as_slice(), self.writer, &event.room) else {
            return Err(RoomFault::NoRoom);
        };
        if let Some(id) = self.txns.sent(&key) {
            return Ok(Some(id));
        }
        judge(event, is_small, &self.rooms[index].state)?;
        self.fresh = None;
        self.ledger = Ledger::without_block(&self.ledger);
        self.txns.settle()?;
        make_one_ready(self.rooms.as_mut_slice(), index, event)?;
        self.key = key;
        self.ledger = Ledger::with(&self.ledger, event);
        Ok(None)
    }

    /// Readies a block that creates a room of this writer. `Memory` where an allocation that it needs is refused.
    /// The rooms are as they were.
    pub fn ready_room(&mut self, events: &Seq<Event>) -> Result<(), Memory>
        requires some { 0 < length events.now }
        requires new { AllByRecursion (IsNew self.old.writer) events.now }
        ensures same { SameRooms self.old self.new }
        ensures pending { OnOk result (self.new.pending ≡ events.now) }
    {
        self.drop_block();
        let mut state = AuthState::empty(self.alloc);
        let mut ledger = Ledger::without_block(&self.ledger);
        make_all_ready(&mut state, &mut ledger, events.as_slice())?;
        self.rooms.reserve(1)?;
        self.fresh = Some(state);
        self.ledger = ledger;
        Ok(())
    }

    /// Stores the pending block from a position on. Takes no memory.
    pub fn take_in(&mut self, first: u64, prepared: &Prepared<Event>)
        requires pending { prepared.now.items ≡ self.old.pending }
        requires some { 0 < length self.old.pending }
        requires place { MayStand self.old first }
        ensures { self.new ≡ taken_in self.old first }
    {
        self.ledger = Ledger::stored(&self.ledger, &first);
        let events = prepared.items.as_slice();
        match self.fresh.take() {
            Some(state) => put_room(&mut self.rooms, state, events, first),
            None => {
                if let Some(index) = index_of(self.rooms.as_slice(), events[0].room.at) {
                    take_all_in(self.rooms.as_mut_slice(), index, events, first);
                    self.txns.put(self.key.take(), EventId { at: first });
                }
            }
        }
    }

    /// Drops the pending block.
    fn drop_block(&mut self)
        ensures { self.new ≡ record self.old { pending = [] } }
    {
        self.fresh = None;
        self.key = None;
        self.ledger = Ledger::without_block(&self.ledger);
    }

    /// The state of a room.
    fn state(&self, room: &RoomId) -> Option<&AuthState>
        ensures { MatchOption result (room_events self.now room.now ≡ []) (λ s. room_events self.now room.now ≡ s.now.events) }
    {
        let index = find_room(self.rooms.as_slice(), self.writer, room)?;
        Some(&self.rooms[index].state)
    }
}

/// The index of a room. Logarithmic in the number of rooms.
fn find_room(rooms: &[Room], writer: u8, room: &RoomId) -> Option<usize>
    requires { Rises (map bare rooms.now) }
    ensures { MatchOption result (events_in writer (map bare rooms.now) room.now ≡ []) (λ i. IsRoomAt writer rooms.now room.now i) }
{
    if room.writer == writer {
        index_of(rooms, room.at)
    } else {
        None
    }
}

/// Puts a room more at the end, with its first events as they stand from a position on. Takes no memory.
fn put_room(rooms: &mut Vec<Room>, mut state: AuthState, events: &[Event], first: u64)
    requires spare { vec_len rooms.old < vec_capacity rooms.old }
    requires ready { state.ready ≡ events.now }
    requires last { first + length events.now < 2 ^ 48 + 1 }
    ensures { rooms.new.items ≡ rooms.old.items ++ record { at = first; state = record { events = state.events ++ placed_from placed_event first first events.now; ready = [] } } ∷ [] }
{
    take_all(&mut state, events, first);
    rooms.push(Room { at: first, state }).unwrap();
}

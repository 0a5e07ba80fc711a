//! The rooms of a user.

ghost use Rattle.std.specs.Prelude.{◌≡◌, ◌++◌, [], ◌∷◌, map, IfOk, OnOk};
ghost use Rattle.mx_rest.specs.Servers.{lists_of};
ghost use Rattle.mx_room_reads.specs.Reads as read;
ghost use Rattle.mx_snapshot.specs.Looks.{own_now};

use crate::places::joins;
use mx_ask::Said;
use mx_event::Event;
use mx_ids::{Memory, RoomId, Seq, UserId};
use mx_snapshot::Snapshot;
use std::alloc::Global;

/// The rooms in which a user is joined, by writer, then by position (Client-Server API, `GET /joined_rooms`). Takes the time
/// of a look-up, and of the rooms in which the user has a member event.
#[tactic(auto, unfolding(crate::specs::Reads::joined_rooms_said))]
pub fn joined_rooms(alloc: Global, snapshot: &Snapshot, user: &UserId) -> Result<Said, Memory>
    ensures { IfOk result (λ said. said ≡ read.joined_rooms_said (lists_of snapshot.now) user.now) }
{
    let own = snapshot.events.rooms_of(alloc, user.as_str())?;
    let rooms = joined_among(alloc, &own);
    drop(own);
    Ok(Said::Rooms(Seq::from_vec(rooms?)))
}

/// Those of some rooms in which the user's last member event is a join.
fn joined_among(alloc: Global, own: &[(RoomId, &Event)]) -> Result<Vec<RoomId>, Memory>
    ensures { IfOk result (λ rooms. rooms.items ≡ read.joined_of (map own_now own.now)) }
{
    let mut rooms = Vec::new(alloc);
    'rooms: for entry in own {
        add(&mut rooms, entry.0, entry.1)?;
    }
    Ok(rooms)
}

fn add(rooms: &mut Vec<RoomId>, room: RoomId, own: &Event) -> Result<(), Memory>
    ensures { OnOk result (rooms.new.items ≡ rooms.old.items ++ read.joined_of ((room, own.now) ∷ [])) }
{
    if joins(own) {
        rooms.push(room)?;
    }
    Ok(())
}

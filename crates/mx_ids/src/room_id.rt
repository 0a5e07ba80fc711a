ghost use Rattle.std.specs.Prelude.{◌≡◌, ◌≢◌, ◌++◌, ◌^◌, ◌-◌, List, ℕ, Some, MatchOption, IfOk, OnOk, OnErr, string_bytes};
ghost use Rattle.mx_ids.specs.Ids.{room_id_text, IsRoomId, room_id_at};
ghost use Rattle.mx_ids.specs.declared.room_id.RoomId.{RoomId};

use crate::memory::Memory;
use crate::number::{LIMIT, read_marked};
use crate::server_part::is_server_part;
use crate::text::Text;
use std::alloc::{AllocError, Global};

/// The last of the writers.
const LAST_WRITER: u64 = 15;

/// The id of a room, `!{writer}-{at}:{server}` (Appendices, Room IDs): the writer of its events, 0 to 15,
/// and the position of its create event, below 2^48.
#[derive(Clone, Copy, Debug, PartialEq, Eq, PartialOrd, Ord)]
pub struct RoomId {
    pub writer: u8,
    pub at: u64,
}

/// Reads a room id of a server, in decimal without leading zeros (Appendices, Room IDs). `None` exactly
/// where the text isn't of the form `!{writer}-{at}:{server}`, with a writer up to 15 and a position
/// below 2^48. Takes no memory.
pub fn read_room_id(text: &str, server: &str) -> Option<RoomId>
    ensures found { MatchOption result ((id : RoomId) → IsRoomId id → text.now ≢ room_id_text server.now id) (λ id. (text.now ≡ room_id_text server.now id) × IsRoomId id) }
    ensures back { (id : RoomId) → text.now ≡ room_id_text server.now id → IsRoomId id → result ≡ Some id }
    ensures test { result ≡ room_id_at (2 ^ 64 - 1) server.now text.now }
{
    room_id_of(text.as_bytes(), server.as_bytes())
}

/// A law, with nothing to run: at one server, no two room ids have one text.
pub fn room_id_text_is_injective()
    ensures { (server : List ℕ) (x y : RoomId) → room_id_text server x ≡ room_id_text server y → x ≡ y }
{}

/// Appends the text of a room id at a server. `Memory` leaves `out` as it was.
pub fn write_room_id(
    alloc: Global,
    room: &RoomId,
    server: &str,
    out: &mut Text,
) -> Result<(), Memory>
    ensures ok { OnOk result (out.new ≡ out.old ++ room_id_text server.now room.now) }
    ensures same { OnErr result (out.new ≡ out.old) }
{
    let text = print(alloc, *room, server)?;
    out.push_str(text.as_str())
}

#[tactic(auto, using(crate::proofs::Ids::room_id_text_prints))]
fn print(alloc: Global, room: RoomId, server: &str) -> Result<String, AllocError>
    ensures { IfOk result (λ s. string_bytes s ≡ room_id_text server.now room) }
{
    let RoomId { writer, at } = room;
    format!(in alloc; "!{writer}-{at}:{server}")
}

/// The room id that a text spells. A number that no `u64` holds is read as `u64::MAX`.
#[tactic(auto, unfolding(crate::specs::Ids::room_id_at))]
fn room_id_of(text: &[u8], server: &[u8]) -> Option<RoomId>
    ensures { result ≡ room_id_at (2 ^ 64 - 1) server.now text.now }
{
    let (writer, rest) = read_marked(b'!', text)?;
    let (at, rest) = read_marked(b'-', rest)?;
    if is_server_part(server, rest) && writer <= LAST_WRITER && at < LIMIT {
        Some(RoomId {
            writer: writer as u8,
            at,
        })
    } else {
        None
    }
}

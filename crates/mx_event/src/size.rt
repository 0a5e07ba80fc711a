//! The size of an event.
ghost use Rattle.std.specs.Prelude.{◌≡◌, ◌∷◌, [], true, ◌-◌, ◌^◌, min, length, codes, option_map};
ghost use Rattle.mx_ids.specs.Ids.{event_id_text, room_id_text};
ghost use Rattle.mx_json.specs.Texts.{json_text, members_len};
ghost use Rattle.mx_json.specs.declared.value.Json.{Json};
ghost use Rattle.mx_event.specs.declared.event.Event.{Event};
ghost use Rattle.mx_json.specs.declared.value.Json.TheVariants as json;
ghost use Rattle.mx_event.specs.Forms.{bare_form, event_members, fits, member, member_if, redacts_of, with_long_ids};

use crate::event::Event;
use crate::forms::LARGEST;
use mx_json::{number_size, text_size};

/// The largest size of an event, in bytes.
const LIMIT: u64 = 65_536;

/// Whether an event is at most 65,536 bytes (Client-Server API, Size limits): as compact JSON in
/// the form that clients see, with `room_id` and without `unsigned`, and with the positions in its
/// id and its room's id counted as fifteen digits. Takes no memory.
pub fn fits(event: &Event, server: &str) -> bool
    ensures { result ≡ fits server.now event.now }
{
    size(event, server) <= LIMIT
}

/// The size of an event, and 2^64 - 1 where it is larger.
fn size(event: &Event, server: &str) -> u64
    ensures { result ≡ min (length (json_text (bare_form server.now true (with_long_ids event.now)))) (2 ^ 64 - 1) }
{
    let timestamp = number_size(event.ts.min(LARGEST));
    let size = 1_u64
        .saturating_add(member_size("content", event.content.size()))
        .saturating_add(member_size("event_id", event_id_size(server)))
        .saturating_add(member_size("origin_server_ts", timestamp))
        .saturating_add(redacts_size(event));
    size.saturating_add(member_size("room_id", room_id_size(event, server)))
        .saturating_add(member_size("sender", text_size(event.sender.as_str())))
        .saturating_add(state_key_size(event))
        .saturating_add(member_size("type", text_size(event.kind.as_str())))
}

/// The size of a member by that of its value, with its colon and the comma or brace behind it.
fn member_size(key: &str, value: u64) -> u64
    ensures { (j : Json) → value ≡ min (length (json_text j)) (2 ^ 64 - 1) → result ≡ min (members_len (member key.now j ∷ [])) (2 ^ 64 - 1) }
{
    text_size(key).saturating_add(value).saturating_add(2)
}

/// The size of the member `redacts`, where the event has one.
fn redacts_size(event: &Event) -> u64
    ensures { result ≡ min (members_len (member_if (codes "redacts") (redacts_of event.now))) (2 ^ 64 - 1) }
{
    match event.redacts() {
        Some(named) => member_size("redacts", named.size()),
        None => 0,
    }
}

/// The size of the member `state_key`, where the event has one.
fn state_key_size(event: &Event) -> u64
    ensures { result ≡ min (members_len (member_if (codes "state_key") (option_map json.Text event.now.state_key))) (2 ^ 64 - 1) }
{
    match &event.state_key {
        Some(key) => member_size("state_key", text_size(key.as_str())),
        None => 0,
    }
}

/// The size of an event's id with fifteen digits: a mark, these and a colon stand before the server.
fn event_id_size(server: &str) -> u64
    ensures { (e : Event) → result ≡ min (length (json_text (json.Text (event_id_text server.now (with_long_ids e).id)))) (2 ^ 64 - 1) }
{
    text_size(server).saturating_add(17)
}

/// The size of a room's id with fifteen digits: two marks, the writer, these and a colon stand before the server.
fn room_id_size(event: &Event, server: &str) -> u64
    ensures { result ≡ min (length (json_text (json.Text (room_id_text server.now (with_long_ids event.now).room)))) (2 ^ 64 - 1) }
{
    text_size(server)
        .saturating_add(number_size(u64::from(event.room.writer)))
        .saturating_add(18)
}

ghost use Rattle.std.specs.Prelude.{◌≡◌, ◌≢◌, ◌++◌, ◌^◌, ◌-◌, List, ℕ, Some, MatchOption, IfOk, OnOk, OnErr, string_bytes};
ghost use Rattle.mx_ids.specs.Ids.{event_id_text, IsEventId, event_id_at};
ghost use Rattle.mx_ids.specs.declared.event_id.EventId.{EventId};

use crate::memory::Memory;
use crate::number::{LIMIT, read_marked};
use crate::server_part::is_server_part;
use crate::text::Text;
use std::alloc::{AllocError, Global};

/// The id of an event, `${at}:{server}` (Appendices, Event IDs): its position in the stream of
/// events, below 2^48. No event stands at position 0.
#[derive(Clone, Copy, Debug, PartialEq, Eq, PartialOrd, Ord)]
pub struct EventId {
    pub at: u64,
}

/// Reads an event id of a server, in decimal without leading zeros (Appendices, Event IDs). `None`
/// exactly where the text isn't of the form `${at}:{server}`, with a position below 2^48. The id with
/// position 0 is of the form. Takes no memory.
pub fn read_event_id(text: &str, server: &str) -> Option<EventId>
    ensures found { MatchOption result ((id : EventId) → IsEventId id → text.now ≢ event_id_text server.now id) (λ id. (text.now ≡ event_id_text server.now id) × IsEventId id) }
    ensures back { (id : EventId) → text.now ≡ event_id_text server.now id → IsEventId id → result ≡ Some id }
    ensures test { result ≡ event_id_at (2 ^ 64 - 1) server.now text.now }
{
    event_id_of(text.as_bytes(), server.as_bytes())
}

/// A law, with nothing to run: at one server, no two event ids have one text.
pub fn event_id_text_is_injective()
    ensures { (server : List ℕ) (x y : EventId) → event_id_text server x ≡ event_id_text server y → x ≡ y }
{}

/// Appends the text of an event id at a server. `Memory` leaves `out` as it was.
pub fn write_event_id(
    alloc: Global,
    event: &EventId,
    server: &str,
    out: &mut Text,
) -> Result<(), Memory>
    ensures ok { OnOk result (out.new ≡ out.old ++ event_id_text server.now event.now) }
    ensures same { OnErr result (out.new ≡ out.old) }
{
    let text = print(alloc, *event, server)?;
    out.push_str(text.as_str())
}

#[tactic(auto, using(crate::proofs::Ids::event_id_text_prints))]
fn print(alloc: Global, event: EventId, server: &str) -> Result<String, AllocError>
    ensures { IfOk result (λ s. string_bytes s ≡ event_id_text server.now event) }
{
    let at = event.at;
    format!(in alloc; "${at}:{server}")
}

/// The event id that a text spells. A number that no `u64` holds is read as `u64::MAX`.
#[tactic(auto, unfolding(crate::specs::Ids::event_id_at))]
fn event_id_of(text: &[u8], server: &[u8]) -> Option<EventId>
    ensures { result ≡ event_id_at (2 ^ 64 - 1) server.now text.now }
{
    let (at, rest) = read_marked(b'$', text)?;
    if is_server_part(server, rest) && at < LIMIT {
        Some(EventId { at })
    } else {
        None
    }
}

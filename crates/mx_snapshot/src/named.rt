//! What is read of one event.

ghost use Rattle.std.specs.Prelude.{◌≡◌};
ghost use Rattle.mx_snapshot.specs.Events.{target};

use mx_event::Event;

/// The position of the earlier event that a redaction names.
pub(crate) fn target(event: &Event) -> Option<u64>
    ensures { result ≡ target event.now }
{
    match event.named_id() {
        Some(id) if id.at < event.id.at => Some(id.at),
        _ => None,
    }
}

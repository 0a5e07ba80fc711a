//! What kind of event an event is, and whom it is about.
ghost use Rattle.std.specs.Prelude.{◌≡◌, option_map};
ghost use Rattle.mx_event.specs.Kinds.{is_text};
ghost use Rattle.mx_event.specs.Denied.{gives, is_own, target};

use mx_event::Event;
pub(crate) use mx_event::event_types::{CREATE, JOIN_RULES, MEMBER, POWER_LEVELS};
use mx_ids::Text;

/// Whether a text is there, and is this one.
pub(crate) fn is_text(text: &str, found: Option<&Text>) -> bool
    ensures { result ≡ is_text text.now (option_map (λ t. t.now) found.entry) }
{
    match found {
        Some(found) => found.as_str() == text,
        None => false,
    }
}

/// Whom a member event is about: its state key.
pub(crate) fn target(event: &Event) -> &str
    ensures { result.now ≡ target event.now }
{
    match &event.state_key {
        Some(key) => key.as_str(),
        None => "",
    }
}

/// Whether a member event is about its sender.
pub(crate) fn is_own(event: &Event) -> bool
    ensures { result ≡ is_own event.now }
{
    event.sender.as_str() == target(event)
}

/// Whether a member event gives this membership.
pub(crate) fn gives(membership: &str, event: &Event) -> bool
    ensures { result ≡ gives membership.now event.now }
{
    is_text(membership, event.content.text_at("membership"))
}

//! The rules for every event, and for events that are neither create nor member events. Each function says whether a rule
//! refuses an event.
ghost use Rattle.std.specs.Prelude.{◌≡◌, option_map};
ghost use Rattle.std.specs.List.{list_any};
ghost use Rattle.mx_event.specs.Lawful.{has_target};
ghost use Rattle.mx_event.specs.Shown.{names};
ghost use Rattle.mx_event.specs.declared.event.Event.{Event};
ghost use Rattle.mx_event.specs.Denied.{breaks_create, breaks_level, breaks_power_change, breaks_power_form, breaks_redaction, breaks_sender, breaks_user_key, is_of_a_user, names_own};

use crate::changes::{Sender, exceeds_own_level, is_well_formed};
use crate::kinds::{CREATE, POWER_LEVELS, is_own};
use crate::levels::{level, needed_level, redact_level};
use crate::membership_rules::{is_joined, reaches};
use crate::state::AuthState;
use mx_event::Event;
use mx_ids::Text;

/// Rule 1: a create event that isn't the first event, or another event that is.
pub(crate) fn breaks_create(event: &Event, state: &AuthState) -> bool
    ensures { result ≡ breaks_create event.now state.now.events }
{
    if event.is_of(CREATE) {
        !state.is_empty()
    } else {
        state.is_empty()
    }
}

/// Rule 7: a sender who isn't joined.
pub(crate) fn breaks_sender(event: &Event, state: &AuthState) -> bool
    ensures { result ≡ breaks_sender event.now state.now.events }
{
    !is_joined(event.sender.as_str(), state)
}

/// Rule 8: a sender below the level that the event needs.
pub(crate) fn breaks_level(event: &Event, state: &AuthState) -> bool
    ensures { result ≡ breaks_level event.now state.now.events }
{
    !reaches(needed_level(event, state), event, state)
}

fn is_of_a_user(key: Option<&Text>) -> bool
    ensures { result ≡ is_of_a_user (option_map (λ t. t.now) key.entry) }
{
    match key {
        Some(key) => matches!(key.as_str().as_bytes(), [b'@', ..]),
        None => false,
    }
}

/// Rule 9: a state key that begins with `@` and isn't the sender.
pub(crate) fn breaks_user_key(event: &Event, state: &AuthState) -> bool
    ensures { result ≡ breaks_user_key event.now state.now.events }
{
    is_of_a_user(event.state_key.as_ref()) && !is_own(event)
}

/// Rule 10: power levels that aren't of their form.
pub(crate) fn breaks_power_form(event: &Event, state: &AuthState) -> bool
    ensures { result ≡ breaks_power_form event.now state.now.events }
{
    event.is_of(POWER_LEVELS) && !is_well_formed(&event.content)
}

/// Rule 11: power levels that change the standing ones beyond the sender's level.
pub(crate) fn breaks_power_change(event: &Event, state: &AuthState) -> bool
    ensures { result ≡ breaks_power_change event.now state.now.events }
{
    if !event.is_of(POWER_LEVELS) {
        return false;
    }
    match state.powers() {
        Some(standing) => {
            let sender = Sender {
                id: &event.sender,
                level: level(state, &event.sender),
            };
            exceeds_own_level(&sender, standing, &event.content)
        }
        None => false,
    }
}

/// Whether an event names one of the room that its sender sent.
fn names_own(event: &Event, state: &AuthState) -> bool
    ensures { result ≡ names_own event.now state.now.events }
{
    match event.named_id() {
        Some(named) => state.has_sent(&event.sender, named.at),
        None => false,
    }
}

/// Whether an event names one of its room, if it is a redaction (Client-Server API, Redactions). Of another event nothing is
/// asked. Takes no memory.
pub fn has_target(event: &Event, state: &AuthState) -> bool
    ensures { result ≡ has_target event.now state.now.events }
{
    !event.is_redaction() || names_event(event, state)
}

/// Whether an event names one of the room.
fn names_event(event: &Event, state: &AuthState) -> bool
    ensures { result ≡ list_any (λ (e : Event). names event.now e.id.at) state.now.events }
{
    match event.named_id() {
        Some(named) => state.has_event(named.at),
        None => false,
    }
}

/// Rule 12: a redaction of another's event, by a sender without the level. This is a rule of this server, and none of the
/// room version.
pub(crate) fn breaks_redaction(event: &Event, state: &AuthState) -> bool
    ensures { result ≡ breaks_redaction event.now state.now.events }
{
    event.is_redaction() && !names_own(event, state) && !reaches(redact_level(state), event, state)
}

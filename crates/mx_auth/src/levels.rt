//! Power levels (Client-Server API, m.room.power_levels).
ghost use Rattle.std.specs.Prelude.{◌≡◌, pos, if◌then◌else◌};
ghost use Rattle.mx_event.specs.Kinds.{is_text};
ghost use Rattle.mx_event.specs.Levels.{ban_level, default_level, entry_at, invite_level, kick_level, level_at, level_of, needed_level, powers, redact_level};
ghost use Rattle.mx_event.specs.State.{creator};

use crate::state::AuthState;
use mx_event::Event;
use mx_ids::UserId;
use mx_json::Json;

/// The power level of a user: its entry in the standing power levels, else `users_default`, else 0. Where no power levels
/// stand, the user who created the room has 100 and others have 0. Takes no memory.
pub fn level(state: &AuthState, user: &UserId) -> i64
    ensures { result ≡ level_of user.now state.now.events }
{
    level_of(state, user.as_str())
}

/// The power level of whom a text names.
pub(crate) fn level_of(state: &AuthState, user: &str) -> i64
    ensures { result ≡ level_of user.now state.now.events }
{
    match state.powers() {
        Some(powers) => match entry_at("users", user, powers) {
            Some(level) => level,
            None => powers.int_at("users_default").unwrap_or(0),
        },
        None => first_level(state, user),
    }
}

/// The level of a user before there are power levels.
fn first_level(state: &AuthState, user: &str) -> i64
    ensures { result ≡ (if is_text user.now (creator state.now.events) then pos 100 else pos 0) }
{
    match state.creator() {
        Some(creator) if creator.as_str() == user => 100,
        _ => 0,
    }
}

/// The entry of a map of levels.
pub(crate) fn entry_at(map: &str, key: &str, content: &Json) -> Option<i64>
    ensures { result ≡ entry_at map.now key.now content.now }
{
    content.field(map)?.int_at(key)
}

/// The level at a key of the standing power levels, or its default.
fn level_at(state: &AuthState, key: &str, otherwise: i64) -> i64
    ensures { result ≡ level_at key.now otherwise (powers state.now.events) }
{
    match state.powers() {
        Some(powers) => powers.int_at(key).unwrap_or(otherwise),
        None => otherwise,
    }
}

/// The level that inviting needs.
pub(crate) fn invite_level(state: &AuthState) -> i64
    ensures { result ≡ invite_level state.now.events }
{
    level_at(state, "invite", 0)
}

/// The level that kicking needs.
pub(crate) fn kick_level(state: &AuthState) -> i64
    ensures { result ≡ kick_level state.now.events }
{
    level_at(state, "kick", 50)
}

/// The level that banning needs.
pub(crate) fn ban_level(state: &AuthState) -> i64
    ensures { result ≡ ban_level state.now.events }
{
    level_at(state, "ban", 50)
}

/// The level that redacting another's event needs.
pub(crate) fn redact_level(state: &AuthState) -> i64
    ensures { result ≡ redact_level state.now.events }
{
    level_at(state, "redact", 50)
}

/// The level that an event without an entry of its type needs.
fn default_level(state: &AuthState, is_state: bool) -> i64
    ensures { result ≡ default_level is_state state.now.events }
{
    if is_state {
        level_at(state, "state_default", 50)
    } else {
        level_at(state, "events_default", 0)
    }
}

/// The level that an event needs.
pub(crate) fn needed_level(event: &Event, state: &AuthState) -> i64
    ensures { result ≡ needed_level event.now state.now.events }
{
    let entry = match state.powers() {
        Some(powers) => entry_at("events", event.kind.as_str(), powers),
        None => None,
    };
    match entry {
        Some(level) => level,
        None => default_level(state, event.state_key.is_some()),
    }
}

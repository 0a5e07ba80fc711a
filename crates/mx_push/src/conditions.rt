//! Whether conditions of push rules hold.
ghost use Rattle.std.specs.Prelude.{◌≡◌, codes, min, option_map, pos};
ghost use Rattle.std.specs.List.{list_all, list_any};
ghost use Rattle.mx_json.specs.Fields.{list_of};
ghost use Rattle.mx_json.specs.Numbers.{largest};
ghost use Rattle.mx_event.specs.Levels.{entry_at};
ghost use Rattle.mx_push.specs.Conditions.{condition_holds, fits_text, has_value, has_value_at, holds_as, is_null, is_same, is_value, is_value_at, matches, matches_at, may_notify, may_notify_at, names, needed_level};
ghost use Rattle.mx_push.specs.Properties.{json_of};
ghost use Rattle.mx_push.specs.Settings.{setting_of};

use crate::counts::is_count;
use crate::property::{Property, property_at};
use crate::setting::Context;
use crate::words::stands_in;
use mx_auth::level;
use mx_event::Event;
use mx_glob::{Same, glob, glob_in_words};
use mx_ids::Text;
use mx_json::Json;

/// Whether all conditions hold.
pub(crate) fn all_hold(conditions: &[Json], event: &Event, context: &Context<'_>) -> bool
    ensures { result ≡ list_all (condition_holds (setting_of context.now) event.now) conditions.now }
{
    'conditions: for condition in conditions {
        if !holds(condition, event, context) {
            return false;
        }
    }
    true
}

/// Whether a condition holds. One of an unknown kind, or without the fields of its kind, never does.
fn holds(condition: &Json, event: &Event, context: &Context<'_>) -> bool
    ensures { result ≡ condition_holds (setting_of context.now) event.now condition.now }
{
    match condition.text_at("kind") {
        Some(kind) => holds_as(kind.as_str(), condition, event, context),
        None => false,
    }
}

/// Whether a condition of a kind holds.
fn holds_as(kind: &str, condition: &Json, event: &Event, context: &Context<'_>) -> bool
    ensures { result ≡ holds_as kind.now condition.now (setting_of context.now) event.now }
{
    let key = condition.text_at("key");
    match kind {
        "event_match" => matches_at(key, condition.text_at("pattern"), event, context),
        "event_property_is" => is_value_at(key, condition.field("value"), event, context),
        "event_property_contains" => has_value_at(key, condition.field("value"), event, context),
        "contains_display_name" => names(context.name, event.content.text_at("body")),
        "room_member_count" => match condition.text_at("is") {
            Some(bound) => is_count(bound.as_str().as_bytes(), context.joined),
            None => false,
        },
        "sender_notification_permission" => may_notify_at(key, event, context),
        _ => false,
    }
}

fn matches_at(
    key: Option<&Text>,
    pattern: Option<&Text>,
    event: &Event,
    context: &Context<'_>,
) -> bool
    ensures { result ≡ matches_at (option_map (λ t. t.now) key.entry) (option_map (λ t. t.now) pattern.entry) (setting_of context.now) event.now }
{
    match (key, pattern) {
        (Some(key), Some(pattern)) => matches(key.as_str(), pattern.as_str(), event, context),
        _ => false,
    }
}

/// Whether a pattern fits the text at a key: the whole of it, or in `content.body` a stretch between word boundaries.
pub(crate) fn matches(key: &str, pattern: &str, event: &Event, context: &Context<'_>) -> bool
    ensures { result ≡ matches key.now pattern.now (setting_of context.now) event.now }
{
    match property_at(key, event, context) {
        Some(property) => fits_text(key, pattern, property.as_str()),
        None => false,
    }
}

fn fits_text(key: &str, pattern: &str, text: Option<&str>) -> bool
    ensures { result ≡ fits_text key.now pattern.now (option_map (λ t. t.now) text.entry) }
{
    match text {
        Some(text) if key == "content.body" => glob_in_words(Same::Folded, pattern, text),
        Some(text) => glob(Same::Folded, pattern, text),
        None => false,
    }
}

fn is_value_at(
    key: Option<&Text>,
    value: Option<&Json>,
    event: &Event,
    context: &Context<'_>,
) -> bool
    ensures { result ≡ is_value_at (option_map (λ t. t.now) key.entry) (option_map (λ v. v.now) value.entry) (setting_of context.now) event.now }
{
    match (key, value) {
        (Some(key), Some(value)) => match property_at(key.as_str(), event, context) {
            Some(property) => property.is_value(value),
            None => false,
        },
        _ => false,
    }
}

fn has_value_at(
    key: Option<&Text>,
    value: Option<&Json>,
    event: &Event,
    context: &Context<'_>,
) -> bool
    ensures { result ≡ has_value_at (option_map (λ t. t.now) key.entry) (option_map (λ v. v.now) value.entry) (setting_of context.now) event.now }
{
    match (key, value) {
        (Some(key), Some(value)) => match property_at(key.as_str(), event, context) {
            Some(property) => property.has_value(value),
            None => false,
        },
        _ => false,
    }
}

impl Property<'_> {
    /// Whether it is the same text, whole number, truth value or null.
    fn is_value(self, value: &Json) -> bool
        ensures { result ≡ is_same value.now (json_of self.entry) }
    {
        match self {
            Property::Value(found) => is_same(value, found),
            Property::Text(text) => match value.as_text() {
                Some(own) => own.as_str() == text,
                None => false,
            },
            Property::Time(time) => match value.as_int() {
                Some(own) => own == json_time(time),
                None => false,
            },
        }
    }

    /// Whether it is a list that has the value.
    fn has_value(self, value: &Json) -> bool
        ensures { result ≡ has_value value.now (list_of (json_of self.entry)) }
    {
        match self {
            Property::Value(found) => match found.as_list() {
                Some(items) => any_same(value, items.as_slice()),
                None => false,
            },
            Property::Text(_) | Property::Time(_) => false,
        }
    }
}

fn any_same(value: &Json, items: &[Json]) -> bool
    ensures { result ≡ list_any (is_same value.now) items.now }
{
    'items: for item in items {
        if is_same(value, item) {
            return true;
        }
    }
    false
}

/// Whether both are the same text, whole number, truth value or null.
fn is_same(value: &Json, found: &Json) -> bool
    ensures { result ≡ is_same value.now found.now }
{
    match value {
        Json::Null => is_null(found),
        Json::Bool(truth) => found.as_bool() == Some(*truth),
        Json::Int(number) => found.as_int() == Some(*number),
        Json::Text(text) => match found.as_text() {
            Some(own) => own == text,
            None => false,
        },
        Json::List(_) | Json::Object(_) => false,
    }
}

fn is_null(value: &Json) -> bool
    ensures { result ≡ is_null value.now }
{
    match value {
        Json::Null => true,
        _ => false,
    }
}

/// A time in JSON.
fn json_time(time: u64) -> i64
    ensures { result ≡ pos (min time largest) }
{
    const LARGEST: u64 = 9_007_199_254_740_991;
    time.min(LARGEST) as i64
}

/// Whether the user's display name, which isn't empty, stands in the body between word boundaries.
fn names(name: Option<&Text>, body: Option<&Text>) -> bool
    ensures { result ≡ names (option_map (λ t. t.now) name.entry) (option_map (λ t. t.now) body.entry) }
{
    match (name, body) {
        (Some(name), Some(body)) => name.len() != 0 && stands_in(name.as_str(), body.as_str()),
        _ => false,
    }
}

fn may_notify_at(key: Option<&Text>, event: &Event, context: &Context<'_>) -> bool
    ensures { result ≡ may_notify_at (option_map (λ t. t.now) key.entry) (setting_of context.now) event.now }
{
    match key {
        Some(key) => level(context.state, &event.sender) >= needed_level(key.as_str(), context),
        None => false,
    }
}

/// The level that notifying all of a room needs, 50 by default (Client-Server API, m.room.power_levels).
fn needed_level(key: &str, context: &Context<'_>) -> i64
    ensures { result ≡ needed_level key.now context.now.state.now.events }
{
    match context.state.powers() {
        Some(powers) => entry(powers, key).unwrap_or(50),
        None => 50,
    }
}

fn entry(powers: &Json, key: &str) -> Option<i64>
    ensures { result ≡ entry_at (codes "notifications") key.now powers.now }
{
    powers.field("notifications")?.int_at(key)
}

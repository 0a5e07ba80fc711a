//! What stands at a dotted path in an event's client form.
ghost use Rattle.std.specs.Prelude.{◌≡◌, option_and_then, option_map};
ghost use Rattle.std.specs.Str.{chars};
ghost use Rattle.mx_json.specs.Fields.{text_of};
ghost use Rattle.mx_json.specs.Lookups.{lookup, path_parts};
ghost use Rattle.mx_push.specs.Properties.{at_path, behind, json_of, leaf_at};
ghost use Rattle.mx_push.specs.Settings.{setting_of};

use crate::setting::Context;
use mx_event::Event;
use mx_ids::split_first;
use mx_json::Json;

/// What stands at a dotted path in an event's client form, which isn't made.
#[derive(Clone, Copy)]
pub(crate) enum Property<'a> {
    Value(&'a Json),
    Text(&'a str),
    Time(u64),
}

/// What stands at a dotted path in an event's client form with the room's id and without `unsigned`.
#[tactic(auto, unfolding(crate::specs::Properties::at_path))]
pub(crate) fn property_at<'a>(
    path: &str,
    event: &'a Event,
    context: &Context<'a>,
) -> Option<Property<'a>>
    ensures { option_map json_of result ≡ at_path path.now (setting_of context.now) event.now }
{
    match behind("content.", path) {
        Some(rest) => value_at(Some(&event.content), rest),
        None => match behind("redacts.", path) {
            Some(rest) => value_at(event.redacts(), rest),
            None => leaf_at(path, event, context),
        },
    }
}

/// What stands at a path of a value.
fn value_at<'a>(value: Option<&'a Json>, path: &str) -> Option<Property<'a>>
    ensures { option_map json_of result ≡ option_and_then (lookup (path_parts path.now)) (option_map (λ v. v.now) value.entry) }
{
    Some(Property::Value(value?.at_path(path)?))
}

/// What stands behind a front of a text, or `None` where it has another.
fn behind<'a>(front: &str, text: &'a str) -> Option<&'a str>
    ensures { option_map (λ t. chars t.now) result ≡ behind (chars front.now) (chars text.now) }
{
    let mut left = front;
    let mut rest = text;
    'front: while let Some((wanted, later)) = split_first(left) {
        match split_first(rest) {
            Some((found, after)) if found == wanted => rest = after,
            _ => return None,
        }
        left = later;
    }
    Some(rest)
}

/// What stands at a path that is one key.
fn leaf_at<'a>(path: &str, event: &'a Event, context: &Context<'a>) -> Option<Property<'a>>
    ensures { option_map json_of result ≡ leaf_at path.now (setting_of context.now) event.now }
{
    match path {
        "content" => Some(Property::Value(&event.content)),
        "event_id" => Some(Property::Text(context.event_id)),
        "origin_server_ts" => Some(Property::Time(event.ts)),
        "redacts" => Some(Property::Value(event.redacts()?)),
        "room_id" => Some(Property::Text(context.room)),
        "sender" => Some(Property::Text(event.sender.as_str())),
        "state_key" => Some(Property::Text(event.state_key.as_ref()?.as_str())),
        "type" => Some(Property::Text(event.kind.as_str())),
        _ => None,
    }
}

impl<'a> Property<'a> {
    /// The text that it is.
    pub(crate) fn as_str(self) -> Option<&'a str>
        ensures { option_map (λ t. t.now) result ≡ text_of (json_of self.entry) }
    {
        match self {
            Property::Value(value) => Some(value.as_text()?.as_str()),
            Property::Text(text) => Some(text),
            Property::Time(_) => None,
        }
    }
}

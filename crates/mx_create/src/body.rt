//! The body of `POST /createRoom`: its form, and what it lists.
ghost use Rattle.std.specs.Prelude.{◌≡◌, [], true, codes, option_and_then, option_map, IfNone};
ghost use Rattle.std.specs.List.{list_all};
ghost use Rattle.std.specs.Option.{option_map_or};
ghost use Rattle.mx_event.specs.Kinds.{is_text};
ghost use Rattle.mx_json.specs.Fields.{field, list_of, text_at};
ghost use Rattle.mx_create.specs.Blocks.{text_or_empty};
ghost use Rattle.mx_create.specs.Bodies.{is_create_body, is_list_of, is_none_or_list_of, is_none_or_text, is_object_at, is_state_entry, is_text_value, listed, wrong_field};
ghost use Rattle.mx_create.specs.Contents.{is_set, members_or_none};

use mx_ids::Seq;
use mx_json::{Json, Members};

/// What of a body of `POST /createRoom` doesn't have its form.
#[derive(Clone, Copy, Debug, PartialEq, Eq)]
pub enum BodyField {
    /// The body itself, which is no object.
    Body,
    /// The field `initial_state`.
    InitialState,
    /// The field `invite`.
    Invite,
}

/// Whether a value has the form of a body of `POST /createRoom` (Client-Server API): an object
/// whose `initial_state`, if it is there, is a list of objects, each with a text `type`, an object
/// `content` and, if it is there, a text `state_key`, and whose `invite`, if it is there, is a list
/// of texts. Takes no memory.
pub fn is_create_body(ask: &Json) -> bool
    ensures { result ≡ is_create_body ask.now }
{
    wrong_field(ask).is_none()
}

/// The first part of a body of `POST /createRoom` that doesn't have its form; `None` exactly where
/// `is_create_body`. Takes no memory.
#[tactic(auto, using(crate::proofs::Fields::none_wrong))]
pub fn wrong_field(ask: &Json) -> Option<BodyField>
    ensures field { result ≡ wrong_field ask.now }
    ensures form { IfNone result (is_create_body ask.now ≡ true) }
{
    if ask.as_object().is_none() {
        return Some(BodyField::Body);
    }
    if !has_state_list(ask) {
        return Some(BodyField::InitialState);
    }
    if !has_invite_list(ask) {
        return Some(BodyField::Invite);
    }
    None
}

/// Whether `initial_state` lists state entries, if it is there.
fn has_state_list(ask: &Json) -> bool
    ensures { result ≡ is_none_or_list_of is_state_entry (field (codes "initial_state") ask.now) }
{
    match ask.field("initial_state") {
        Some(entries) => is_state_list(entries),
        None => true,
    }
}

fn is_state_list(entries: &Json) -> bool
    ensures { result ≡ is_list_of is_state_entry entries.now }
{
    match entries.as_list() {
        Some(entries) => are_state_entries(entries.as_slice()),
        None => false,
    }
}

fn are_state_entries(entries: &[Json]) -> bool
    ensures { result ≡ list_all is_state_entry entries.now }
{
    entries.iter().all(|entry| is_state_entry(entry))
}

fn is_state_entry(entry: &Json) -> bool
    ensures { result ≡ is_state_entry entry.now }
{
    entry.as_object().is_some()
        && (entry.text_at("type").is_some()
            && (has_object(entry, "content") && has_text_key(entry)))
}

/// Whether an object stands at the key.
fn has_object(entry: &Json, key: &str) -> bool
    ensures { result ≡ is_object_at key.now entry.now }
{
    match entry.field(key) {
        Some(value) => value.as_object().is_some(),
        None => false,
    }
}

/// Whether the state key is a text, if it is there.
fn has_text_key(entry: &Json) -> bool
    ensures { result ≡ is_none_or_text (field (codes "state_key") entry.now) }
{
    match entry.field("state_key") {
        Some(key) => key.as_text().is_some(),
        None => true,
    }
}

/// Whether `invite` lists texts, if it is there.
fn has_invite_list(ask: &Json) -> bool
    ensures { result ≡ is_none_or_list_of is_text_value (field (codes "invite") ask.now) }
{
    match ask.field("invite") {
        Some(users) => is_text_list(users),
        None => true,
    }
}

fn is_text_list(users: &Json) -> bool
    ensures { result ≡ is_list_of is_text_value users.now }
{
    match users.as_list() {
        Some(users) => are_texts(users.as_slice()),
        None => false,
    }
}

fn are_texts(users: &[Json]) -> bool
    ensures { result ≡ list_all is_text_value users.now }
{
    users.iter().all(|user| user.as_text().is_some())
}

/// The items of the list at a key; none where there is no list.
pub(crate) fn listed<'a>(ask: &'a Json, key: &str) -> &'a [Json]
    ensures { result.now ≡ listed key.now ask.now }
{
    match list_at(ask, key) {
        Some(items) => items.as_slice(),
        None => &[],
    }
}

fn list_at<'a>(ask: &'a Json, key: &str) -> Option<&'a Seq<Json>>
    ensures { option_map (λ js. js.now) result ≡ option_and_then list_of (field key.now ask.now) }
{
    ask.field(key)?.as_list()
}

/// The members of the object at a key, if there is one.
pub(crate) fn object_at<'a>(ask: &'a Json, key: &str) -> Option<&'a Members<Json>>
    ensures { option_map_or (λ ms. ms.now) result [] ≡ members_or_none (field key.now ask.now) }
{
    ask.field(key)?.as_object()
}

/// The text at a key; empty where there is none.
pub(crate) fn text_or_empty<'a>(entry: &'a Json, key: &str) -> &'a str
    ensures { result.now ≡ text_or_empty (text_at key.now entry.now) }
{
    match entry.text_at(key) {
        Some(text) => text.as_str(),
        None => "",
    }
}

/// Whether `true` stands at a key.
pub(crate) fn is_set(ask: &Json, key: &str) -> bool
    ensures { result ≡ is_set key.now ask.now }
{
    match ask.field(key) {
        Some(value) => value.as_bool() == Some(true),
        None => false,
    }
}

/// Whether a text stands at a key.
pub(crate) fn is_text_at(value: &Json, key: &str, text: &str) -> bool
    ensures { result ≡ is_text text.now (text_at key.now value.now) }
{
    match value.text_at(key) {
        Some(found) => found.as_str() == text,
        None => false,
    }
}

//! Whether the body of a rule is of the right form.
ghost use Rattle.std.specs.Prelude.{◌≡◌, option_map};
ghost use Rattle.std.specs.List.{list_all};
ghost use Rattle.std.specs.Char.{is_ascii_digit};
ghost use Rattle.mx_json.specs.Fields.{text_of};
ghost use Rattle.mx_rules.specs.Forms.{are_actions, are_conditions, behind_sign, has_form, has_value, is_action, is_action_text, is_bound, is_condition, is_numeral, is_plain, is_test, without_equals};

use crate::rule::Kind;
use mx_ids::Text;
use mx_json::Json;

/// Whether a body has what a rule of the kind asks, in the right form.
pub(crate) fn is_test(kind: Kind, body: &Json) -> bool
    ensures { result ≡ is_test kind body.now }
{
    match kind {
        Kind::Override | Kind::Underride => are_conditions(body.field("conditions")),
        Kind::Content => body.text_at("pattern").is_some(),
        Kind::Room | Kind::Sender => true,
    }
}

fn are_conditions(value: Option<&Json>) -> bool
    ensures { result ≡ are_conditions (option_map (λ v. v.now) value.entry) }
{
    let Some(value) = value else {
        return true;
    };
    match value.as_list() {
        Some(items) => all_conditions(items.as_slice()),
        None => false,
    }
}

fn all_conditions(items: &[Json]) -> bool
    ensures { result ≡ list_all is_condition items.now }
{
    items.iter().all(is_condition)
}

/// Whether a value is a condition: an object with a text `kind`, and the fields of its kind where that is known.
fn is_condition(value: &Json) -> bool
    ensures { result ≡ is_condition value.now }
{
    match value.text_at("kind") {
        Some(kind) => has_form(kind.as_str(), value),
        None => false,
    }
}

/// Whether a condition has the fields of its kind.
fn has_form(kind: &str, value: &Json) -> bool
    ensures { result ≡ has_form kind.now value.now }
{
    if kind == "event_match" {
        return value.text_at("key").is_some() && value.text_at("pattern").is_some();
    }
    if kind == "event_property_is" || kind == "event_property_contains" {
        return value.text_at("key").is_some() && has_value(value.field("value"));
    }
    if kind == "room_member_count" {
        return is_bound(value.text_at("is"));
    }
    if kind == "sender_notification_permission" {
        return value.text_at("key").is_some();
    }
    true
}

fn has_value(value: Option<&Json>) -> bool
    ensures { result ≡ has_value (option_map (λ v. v.now) value.entry) }
{
    match value {
        Some(value) => is_plain(value),
        None => false,
    }
}

/// Whether a value is a text, a whole number, a truth value or null.
fn is_plain(value: &Json) -> bool
    ensures { result ≡ is_plain value.now }
{
    match value {
        Json::Null | Json::Bool(_) | Json::Int(_) | Json::Text(_) => true,
        Json::List(_) | Json::Object(_) => false,
    }
}

/// Whether a text is a number, or one behind `==`, `<`, `>`, `<=` or `>=`.
fn is_bound(text: Option<&Text>) -> bool
    ensures { result ≡ is_bound (option_map (λ t. t.now) text.entry) }
{
    match text {
        Some(text) => is_numeral(behind_sign(text.as_str().as_bytes())),
        None => false,
    }
}

fn behind_sign(bytes: &[u8]) -> &[u8]
    ensures { result.now ≡ behind_sign bytes.now }
{
    match bytes {
        [b'<' | b'>', rest @ ..] => without_equals(rest),
        [b'=', b'=', rest @ ..] => rest,
        _ => bytes,
    }
}

fn without_equals(bytes: &[u8]) -> &[u8]
    ensures { result.now ≡ without_equals bytes.now }
{
    match bytes {
        [b'=', rest @ ..] => rest,
        _ => bytes,
    }
}

/// Whether bytes are digits with no leading zero.
fn is_numeral(bytes: &[u8]) -> bool
    ensures { result ≡ is_numeral bytes.now }
{
    match bytes {
        [] => false,
        [first, rest @ ..] => {
            first.is_ascii_digit() && (*first != b'0' || rest.is_empty()) && all_digits(rest)
        }
    }
}

fn all_digits(bytes: &[u8]) -> bool
    ensures { result ≡ list_all is_ascii_digit bytes.now }
{
    bytes.iter().all(|byte| byte.is_ascii_digit())
}

/// Whether a value is a list of actions.
pub(crate) fn are_actions(value: Option<&Json>) -> bool
    ensures { result ≡ are_actions (option_map (λ v. v.now) value.entry) }
{
    let Some(value) = value else {
        return false;
    };
    match value.as_list() {
        Some(items) => all_actions(items.as_slice()),
        None => false,
    }
}

fn all_actions(items: &[Json]) -> bool
    ensures { result ≡ list_all is_action items.now }
{
    items.iter().all(is_action)
}

/// Whether a value is `notify`, `dont_notify` or `coalesce`, or an object with a text `set_tweak`.
fn is_action(value: &Json) -> bool
    ensures { result ≡ is_action value.now }
{
    match value.as_text() {
        Some(text) => is_action_text(text.as_str()),
        None => value.text_at("set_tweak").is_some(),
    }
}

fn is_action_text(text: &str) -> bool
    ensures { result ≡ is_action_text text.now }
{
    text == "notify" || text == "dont_notify" || text == "coalesce"
}

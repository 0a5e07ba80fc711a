//! What the first rule that matches makes of an event.
ghost use Rattle.std.specs.Prelude.{◌≡◌, option_map};
ghost use Rattle.std.specs.List.{list_any};
ghost use Rattle.mx_rules.specs.Rules.{rules_of};
ghost use Rattle.mx_push.specs.Notifies.{all_judged, by_conditions, by_id, by_pattern, first_match, is_highlight, is_notify, is_on, is_skipped, is_by_words, is_tried, judged, notifies};
ghost use Rattle.mx_push.specs.Settings.{setting_of};

use crate::conditions::{all_hold, matches};
use crate::setting::Context;
use indexmap::IndexMap;
use mx_event::Event;
use mx_ids::{Seq, Text};
use mx_json::Json;
use mx_rules::{Rule, RuleSet};

/// That an event notifies a user.
#[derive(Clone, Copy, Debug, PartialEq, Eq)]
pub struct Notify {
    /// Whether it is highlighted.
    pub highlight: bool,
}

/// What a user's push rules say of an event in a room (Client-Server API, Push rules): the actions of the first enabled rule
/// that matches decide. The rules are tried kind by kind, override, content, room, sender, underride, and in each kind in their
/// order. `None` exactly where the event is the user's own, no rule matches, or the first that does doesn't notify.
///
/// Takes no memory. Each rule is tried at most once; a pattern costs at most the product of its length and the text's.
pub fn decide(rules: &RuleSet, event: &Event, context: &Context<'_>) -> Option<Notify>
    ensures { option_map (λ n. n.highlight) result ≡ notifies (rules_of rules.now) (setting_of context.now) event.now }
{
    if event.sender == *context.user {
        return None;
    }
    let actions = first_match(rules, event, context)?.as_slice();
    if !do_notify(actions) {
        return None;
    }
    Some(Notify {
        highlight: do_highlight(actions),
    })
}

/// The actions of the first rule that matches.
fn first_match<'a>(
    rules: &'a RuleSet,
    event: &Event,
    context: &Context<'_>,
) -> Option<&'a Seq<Json>>
    ensures { option_map (λ js. js.now) result ≡ first_match (all_judged (rules_of rules.now) (setting_of context.now) event.now) }
{
    if let Some(actions) = by_conditions(&rules.override_rules, event, context) {
        return Some(actions);
    }
    if let Some(actions) = by_pattern(&rules.content, event, context) {
        return Some(actions);
    }
    if let Some(actions) = by_id(&rules.room, context.room, event) {
        return Some(actions);
    }
    if let Some(actions) = by_id(&rules.sender, event.sender.as_str(), event) {
        return Some(actions);
    }
    by_conditions(&rules.underride, event, context)
}

/// The actions of the first rule whose conditions all hold.
fn by_conditions<'a>(
    rules: &'a IndexMap<Text, Rule<Seq<Json>>>,
    event: &Event,
    context: &Context<'_>,
) -> Option<&'a Seq<Json>>
    ensures { option_map (λ js. js.now) result ≡ first_match (judged (by_conditions (setting_of context.now) event.now) rules.now.entries) }
{
    'rules: for (id, rule) in rules.iter() {
        if is_tried(id, rule, event) && all_hold(rule.test.as_slice(), event, context) {
            return Some(&rule.actions);
        }
    }
    None
}

/// The actions of the first rule whose pattern fits the body.
fn by_pattern<'a>(
    rules: &'a IndexMap<Text, Rule<Text>>,
    event: &Event,
    context: &Context<'_>,
) -> Option<&'a Seq<Json>>
    ensures { option_map (λ js. js.now) result ≡ first_match (judged (by_pattern (setting_of context.now) event.now) rules.now.entries) }
{
    'rules: for (id, rule) in rules.iter() {
        if fits_body(id, rule, event, context) {
            return Some(&rule.actions);
        }
    }
    None
}

/// Whether a rule is tried, and its pattern fits the body.
fn fits_body(id: &Text, rule: &Rule<Text>, event: &Event, context: &Context<'_>) -> bool
    ensures { result ≡ by_pattern (setting_of context.now) event.now (id.now, rule.now) }
{
    is_tried(id, rule, event) && matches("content.body", rule.test.as_str(), event, context)
}

/// The actions of the rule that has the id.
fn by_id<'a>(
    rules: &'a IndexMap<Text, Rule<()>>,
    wanted: &str,
    event: &Event,
) -> Option<&'a Seq<Json>>
    ensures { option_map (λ js. js.now) result ≡ first_match (judged (by_id wanted.now event.now) rules.now.entries) }
{
    'rules: for (id, rule) in rules.iter() {
        if is_tried(id, rule, event) && id.as_str() == wanted {
            return Some(&rule.actions);
        }
    }
    None
}

/// Whether a rule is enabled, and no default rule that the event skips.
fn is_tried<T>(id: &Text, rule: &Rule<T>, event: &Event) -> bool
    ensures { result ≡ is_tried event.now (id.now, rule.now) }
{
    rule.enabled && !is_skipped(id.as_str(), event)
}

/// Whether the rule is a default one by words in the body, and the event says whom it mentions (`m.mentions`).
fn is_skipped(id: &str, event: &Event) -> bool
    ensures { result ≡ is_skipped id.now event.now }
{
    is_by_words(id) && event.content.field("m.mentions").is_some()
}

fn is_by_words(id: &str) -> bool
    ensures { result ≡ is_by_words id.now }
{
    id == ".m.rule.contains_display_name"
        || id == ".m.rule.roomnotif"
        || id == ".m.rule.contains_user_name"
}

/// Whether one of the actions notifies.
fn do_notify(actions: &[Json]) -> bool
    ensures { result ≡ list_any is_notify actions.now }
{
    actions.iter().any(is_notify)
}

/// Whether one of the actions highlights.
fn do_highlight(actions: &[Json]) -> bool
    ensures { result ≡ list_any is_highlight actions.now }
{
    actions.iter().any(is_highlight)
}

/// Whether an action notifies.
fn is_notify(action: &Json) -> bool
    ensures { result ≡ is_notify action.now }
{
    match action.as_text() {
        Some(text) => text.as_str() == "notify",
        None => false,
    }
}

/// Whether an action highlights: it sets the tweak `highlight`, without a value or to `true`.
fn is_highlight(action: &Json) -> bool
    ensures { result ≡ is_highlight action.now }
{
    match action.text_at("set_tweak") {
        Some(tweak) => tweak.as_str() == "highlight" && is_on(action.field("value")),
        None => false,
    }
}

fn is_on(value: Option<&Json>) -> bool
    ensures { result ≡ is_on (option_map (λ v. v.now) value.entry) }
{
    match value {
        Some(value) => value.as_bool() == Some(true),
        None => true,
    }
}

//! One push rule among those of a user.

ghost use Rattle.std.specs.Prelude.{◌≡◌, IfOk, option_map};
ghost use Rattle.std.specs.Option.{option_copied};
ghost use Rattle.mx_rules.specs.Edits.{find};
ghost use Rattle.mx_rules.specs.Rules.{rules_of};
ghost use Rattle.mx_user_reads.specs.Rules.{actions_json, actions_of, enabled_json, enabled_of, json_in, rule_json};

use indexmap::IndexMap;
use mx_ids::{Copied, Memory, Seq, Text};
use mx_json::Json;
use mx_rules::{Kind, Rule, RuleSet, Test, entry_json, single};
use std::alloc::Global;

/// The object of the rule of a kind and an id, if there is one.
pub(crate) fn rule_json(
    alloc: Global,
    rules: &RuleSet,
    kind: Kind,
    id: &Text,
) -> Result<Option<Json>, Memory>
    ensures { IfOk result (λ o. o ≡ rule_json kind id.now (rules_of rules.now)) }
{
    match kind {
        Kind::Override => json_in(alloc, &rules.override_rules, id),
        Kind::Content => json_in(alloc, &rules.content, id),
        Kind::Room => json_in(alloc, &rules.room, id),
        Kind::Sender => json_in(alloc, &rules.sender, id),
        Kind::Underride => json_in(alloc, &rules.underride, id),
    }
}

fn json_in<T: Test>(
    alloc: Global,
    rules: &IndexMap<Text, Rule<T>>,
    id: &Text,
) -> Result<Option<Json>, Memory>
    ensures { IfOk result (λ o. o ≡ json_in T.asks id.now rules.now.entries) }
{
    match rules.get(id) {
        Some(rule) => Ok(Some(entry_json(alloc, id, rule)?)),
        None => Ok(None),
    }
}

/// Whether the rule of a kind and an id is enabled, if there is one.
pub(crate) fn enabled_of(rules: &RuleSet, kind: Kind, id: &Text) -> Option<bool>
    ensures { result ≡ enabled_of kind id.now (rules_of rules.now) }
{
    match kind {
        Kind::Override => enabled_in(&rules.override_rules, id),
        Kind::Content => enabled_in(&rules.content, id),
        Kind::Room => enabled_in(&rules.room, id),
        Kind::Sender => enabled_in(&rules.sender, id),
        Kind::Underride => enabled_in(&rules.underride, id),
    }
}

fn enabled_in<T>(rules: &IndexMap<Text, Rule<T>>, id: &Text) -> Option<bool>
    ensures { result ≡ option_map (λ r. r.enabled) (find id.now rules.now.entries) }
{
    Some(rules.get(id)?.enabled)
}

/// Whether a rule is enabled, in an object with the one key `enabled`.
pub(crate) fn enabled_json(alloc: Global, enabled: Option<bool>) -> Result<Option<Json>, Memory>
    ensures { IfOk result (λ o. o ≡ enabled_json enabled) }
{
    match enabled {
        Some(enabled) => Ok(Some(single(alloc, "enabled", Json::Bool(enabled))?)),
        None => Ok(None),
    }
}

/// The actions of the rule of a kind and an id, if there is one.
pub(crate) fn actions_of<'a>(rules: &'a RuleSet, kind: Kind, id: &Text) -> Option<&'a Seq<Json>>
    ensures { option_copied result ≡ actions_of kind id.now (rules_of rules.now) }
{
    match kind {
        Kind::Override => actions_in(&rules.override_rules, id),
        Kind::Content => actions_in(&rules.content, id),
        Kind::Room => actions_in(&rules.room, id),
        Kind::Sender => actions_in(&rules.sender, id),
        Kind::Underride => actions_in(&rules.underride, id),
    }
}

fn actions_in<'a, T>(rules: &'a IndexMap<Text, Rule<T>>, id: &Text) -> Option<&'a Seq<Json>>
    ensures { option_copied result ≡ option_map (λ r. r.actions) (find id.now rules.now.entries) }
{
    Some(&rules.get(id)?.actions)
}

/// A copy of the actions of a rule, in an object with the one key `actions`.
pub(crate) fn actions_json(
    alloc: Global,
    actions: Option<&Seq<Json>>,
) -> Result<Option<Json>, Memory>
    ensures { IfOk result (λ o. o ≡ actions_json (option_copied actions.entry)) }
{
    match actions {
        Some(actions) => {
            let actions = Json::List(actions.copy(alloc)?);
            Ok(Some(single(alloc, "actions", actions)?))
        }
        None => Ok(None),
    }
}

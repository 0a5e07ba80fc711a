//! A user's push rules.

ghost use Rattle.std.specs.Prelude.{◌≡◌, IfOk};
ghost use Rattle.mx_room_reads.specs.Rest.Servers.{lists_of};
ghost use Rattle.mx_rules.specs.Rules.{rules_of};
ghost use Rattle.mx_user_reads.specs.Rules.{push_rule, push_rules, rule_actions, rule_enabled, rules_json, rules_now};

use crate::one_rule::{actions_json, actions_of, enabled_json, enabled_of, rule_json};
use crate::told::told;
use mx_ask::Said;
use mx_ids::{Memory, Text, UserId};
use mx_json::Json;
use mx_room_reads::rules_at;
use mx_rules::{Kind, RuleSet, kinds_json};
use mx_snapshot::Snapshot;
use std::alloc::Global;

/// A user's push rules: those that are stored, or the default ones where none are (Client-Server API, Push rules,
/// `GET /pushrules/`). With `inner` they are the value of `global` alone (`GET /pushrules/global/`). Takes the time of a
/// look-up, and of the rules.
#[tactic(auto, unfolding(crate::specs::Rules::push_rules))]
pub fn push_rules(
    alloc: Global,
    snapshot: &Snapshot,
    user: &UserId,
    inner: bool,
) -> Result<Said, Memory>
    ensures { IfOk result (λ s. s ≡ push_rules (lists_of snapshot.now) user.now inner) }
{
    let rules = rules_now(alloc, snapshot, user)?;
    let json = rules_json(alloc, &rules, inner);
    drop(rules);
    Ok(Said::Content(json?))
}

/// The JSON of all rules, or the value of `global` alone.
fn rules_json(alloc: Global, rules: &RuleSet, inner: bool) -> Result<Json, Memory>
    ensures { IfOk result (λ j. j ≡ rules_json inner (rules_of rules.now)) }
{
    if inner {
        kinds_json(alloc, rules)
    } else {
        rules.to_json(alloc)
    }
}

/// A user's push rule of a kind and an id (Client-Server API, Push rules, `GET /pushrules/global/{kind}/{ruleId}`).
///
/// `NotFound` exactly where the kind has no rule of the id. Takes the time of a look-up, and of the rules.
#[tactic(auto, unfolding(crate::specs::Rules::push_rule))]
pub fn push_rule(
    alloc: Global,
    snapshot: &Snapshot,
    user: &UserId,
    kind: Kind,
    id: &Text,
) -> Result<Said, Memory>
    ensures { IfOk result (λ s. s ≡ push_rule (lists_of snapshot.now) user.now kind id.now) }
{
    let rules = rules_now(alloc, snapshot, user)?;
    let json = rule_json(alloc, &rules, kind, id);
    drop(rules);
    Ok(told(json?))
}

/// Whether a user's push rule of a kind and an id is enabled, in an object with the one key `enabled` (Client-Server API,
/// Push rules, `GET /pushrules/global/{kind}/{ruleId}/enabled`).
///
/// `NotFound` exactly where the kind has no rule of the id. Takes the time of a look-up, and of the rules.
#[tactic(auto, unfolding(crate::specs::Rules::rule_enabled))]
pub fn rule_enabled(
    alloc: Global,
    snapshot: &Snapshot,
    user: &UserId,
    kind: Kind,
    id: &Text,
) -> Result<Said, Memory>
    ensures { IfOk result (λ s. s ≡ rule_enabled (lists_of snapshot.now) user.now kind id.now) }
{
    let rules = rules_now(alloc, snapshot, user)?;
    let enabled = enabled_of(&rules, kind, id);
    drop(rules);
    Ok(told(enabled_json(alloc, enabled)?))
}

/// The actions of a user's push rule of a kind and an id, in an object with the one key `actions` (Client-Server API, Push
/// rules, `GET /pushrules/global/{kind}/{ruleId}/actions`).
///
/// `NotFound` exactly where the kind has no rule of the id. Takes the time of a look-up, and of the rules.
#[tactic(auto, unfolding(crate::specs::Rules::rule_actions))]
pub fn rule_actions(
    alloc: Global,
    snapshot: &Snapshot,
    user: &UserId,
    kind: Kind,
    id: &Text,
) -> Result<Said, Memory>
    ensures { IfOk result (λ s. s ≡ rule_actions (lists_of snapshot.now) user.now kind id.now) }
{
    let rules = rules_now(alloc, snapshot, user)?;
    let json = actions_json(alloc, actions_of(&rules, kind, id));
    drop(rules);
    Ok(told(json?))
}

/// The rules that are stored, or the default ones.
fn rules_now(alloc: Global, snapshot: &Snapshot, user: &UserId) -> Result<RuleSet, Memory>
    ensures { IfOk result (λ s. rules_of s ≡ rules_now (lists_of snapshot.now) user.now) }
{
    let accounts = &snapshot.accounts;
    rules_at(alloc, accounts, user, accounts.front())
}

//! The default rules of a user.
ghost use Rattle.std.specs.Prelude.{◌≡◌, IfOk, OnOk, codes};
ghost use Rattle.indexmap.specs.IndexMap.{insert_entry};
ghost use Rattle.mx_rules.specs.Builtins.{id_of};
ghost use Rattle.mx_rules.specs.Defaults.{added, default_rule, default_rules, localpart, name_rule, with_defaults};
ghost use Rattle.mx_rules.specs.Edits.{is_id};
ghost use Rattle.mx_rules.specs.Rules.{rules_of};

use crate::builtin::{Builtin, Does, OVERRIDES, UNDERRIDES};
use crate::edits::set_rule;
use crate::rule::Rule;
use crate::rule_set::RuleSet;
use indexmap::IndexMap;
use mx_ids::{Memory, Seq, Text, UserId};
use mx_json::Json;
use std::alloc::Global;

/// The default push rules of a user (Client-Server API, Push rules, Predefined Rules). Those for encrypted events and for
/// server ACLs are left out.
pub fn defaults(alloc: Global, user: &UserId) -> Result<RuleSet, Memory>
    ensures { IfOk result (λ s. rules_of s ≡ default_rules user.now) }
{
    let mut rules = RuleSet::new(alloc);
    put_defaults(alloc, user, &mut rules).and(Ok(rules))
}

/// Puts the default rules among the rules of their kinds.
fn put_defaults(alloc: Global, user: &UserId, rules: &mut RuleSet) -> Result<(), Memory>
    ensures { OnOk result (rules_of rules.new ≡ with_defaults user.now (rules_of rules.old)) }
{
    put_builtins(alloc, user, OVERRIDES.as_slice(), &mut rules.override_rules)?;
    put_name_rule(alloc, user, &mut rules.content)?;
    put_builtins(alloc, user, UNDERRIDES.as_slice(), &mut rules.underride)
}

/// Puts the default rules of a list.
fn put_builtins(
    alloc: Global,
    user: &UserId,
    builtins: &[Builtin],
    rules: &mut IndexMap<Text, Rule<Seq<Json>>>,
) -> Result<(), Memory>
    ensures { OnOk result (rules.new.entries ≡ added user.now builtins.now rules.old.entries) }
{
    'builtins: for builtin in builtins {
        put_builtin(alloc, user, *builtin, rules)?;
    }
    Ok(())
}

/// Puts a default rule.
fn put_builtin(
    alloc: Global,
    user: &UserId,
    builtin: Builtin,
    rules: &mut IndexMap<Text, Rule<Seq<Json>>>,
) -> Result<(), Memory>
    ensures { OnOk result (rules.new.entries ≡ insert_entry is_id rules.old.entries (id_of builtin) (default_rule user.now builtin)) }
{
    let id = Text::from_string(String::from_str(alloc, builtin.id())?);
    set_rule(rules, id, default_rule(alloc, user, builtin)?)
}

fn default_rule(alloc: Global, user: &UserId, builtin: Builtin) -> Result<Rule<Seq<Json>>, Memory>
    ensures { IfOk result (λ r. r ≡ default_rule user.now builtin) }
{
    Ok(Rule {
        default: true,
        enabled: builtin.is_on(),
        actions: builtin.does().actions(alloc)?,
        test: builtin.conditions(alloc, user)?,
    })
}

/// Puts the one default rule with a pattern.
fn put_name_rule(
    alloc: Global,
    user: &UserId,
    rules: &mut IndexMap<Text, Rule<Text>>,
) -> Result<(), Memory>
    ensures { OnOk result (rules.new.entries ≡ insert_entry is_id rules.old.entries (codes ".m.rule.contains_user_name") (name_rule user.now)) }
{
    let id = Text::from_string(String::from_str(alloc, ".m.rule.contains_user_name")?);
    set_rule(rules, id, name_rule(alloc, user)?)
}

fn name_rule(alloc: Global, user: &UserId) -> Result<Rule<Text>, Memory>
    ensures { IfOk result (λ r. r ≡ name_rule user.now) }
{
    Ok(Rule {
        default: true,
        enabled: true,
        actions: Does::SoundAndHighlight.actions(alloc)?,
        test: Text::from_string(String::from_str(alloc, localpart(user))?),
    })
}

/// The part of a user id between `@` and the first `:`.
fn localpart(user: &UserId) -> &str
    ensures { result.now ≡ localpart user.now }
{
    let front = match user.as_str().split_once(':') {
        Some((front, _)) => front,
        None => user.as_str(),
    };
    match front.split_once('@') {
        Some((_, name)) => name,
        None => "",
    }
}

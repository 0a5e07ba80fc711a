//! The JSON of push rules.
ghost use Rattle.std.specs.Prelude.{◌≡◌, IfOk, OnOk, List, ◌++◌, map, codes};
ghost use Rattle.mx_json.specs.Keys.{with_member};
ghost use Rattle.mx_rules.specs.Rules.{rules_of};
ghost use Rattle.mx_rules.specs.Writing.{content_of, entry_json, kinds_json, list_json, single, with_kinds, with_plain};

use crate::rule::{Rule, Test};
use crate::rule_set::RuleSet;
use indexmap::IndexMap;
use mx_ids::{Copied, Memory, Seq, Text};
use mx_json::{Json, Members};
use std::alloc::Global;

impl RuleSet {
    /// The content of `m.push_rules`: an object with the one key `global`, whose value has the list of the rules of each
    /// kind in order.
    pub fn to_json(&self, alloc: Global) -> Result<Json, Memory>
        ensures { IfOk result (λ j. j ≡ content_of (rules_of self.now)) }
    {
        let kinds = kinds_json(alloc, self)?;
        single(alloc, "global", kinds)
    }
}

/// An object with the list of the rules of each kind in order: the value of `global` (Client-Server API, Push rules,
/// `GET /pushrules/global/`).
pub fn kinds_json(alloc: Global, rules: &RuleSet) -> Result<Json, Memory>
    ensures { IfOk result (λ j. j ≡ kinds_json (rules_of rules.now)) }
{
    let mut kinds = Members::new(alloc);
    put_kinds(alloc, &mut kinds, rules)?;
    Ok(Json::Object(kinds))
}

/// Sets the list of the rules of each kind.
fn put_kinds(alloc: Global, kinds: &mut Members<Json>, rules: &RuleSet) -> Result<(), Memory>
    ensures { OnOk result (kinds.new ≡ with_kinds (rules_of rules.now) kinds.old) }
{
    put_list(alloc, kinds, "content", &rules.content)?;
    put_list(alloc, kinds, "override", &rules.override_rules)?;
    put_list(alloc, kinds, "room", &rules.room)?;
    put_list(alloc, kinds, "sender", &rules.sender)?;
    put_list(alloc, kinds, "underride", &rules.underride)
}

/// Sets the list of the rules of a kind at a key.
fn put_list<T: Test>(
    alloc: Global,
    kinds: &mut Members<Json>,
    key: &str,
    rules: &IndexMap<Text, Rule<T>>,
) -> Result<(), Memory>
    ensures { OnOk result (kinds.new ≡ with_member key.now (list_json T.asks rules.now.entries) kinds.old) }
{
    put(alloc, kinds, key, list_json(alloc, rules)?)
}

fn list_json<T: Test>(alloc: Global, rules: &IndexMap<Text, Rule<T>>) -> Result<Json, Memory>
    ensures { IfOk result (λ j. j ≡ list_json T.asks rules.now.entries) }
{
    Ok(Json::List(entries_json(alloc, rules)?))
}

fn entries_json<T: Test>(
    alloc: Global,
    rules: &IndexMap<Text, Rule<T>>,
) -> Result<Seq<Json>, Memory>
    ensures { IfOk result (λ js. js ≡ map (entry_json T.asks) rules.now.entries) }
{
    let mut all = Vec::with_capacity(alloc, rules.len())?;
    push_entries(alloc, rules, &mut all)?;
    Ok(Seq::from_vec(all))
}

/// Puts the objects of the rules at the end of a list.
fn push_entries<T: Test>(
    alloc: Global,
    rules: &IndexMap<Text, Rule<T>>,
    all: &mut Vec<Json>,
) -> Result<(), Memory>
    ensures { OnOk result (all.new.items ≡ all.old.items ++ map (entry_json T.asks) rules.now.entries) }
{
    'rules: for (id, rule) in rules.iter() {
        all.push(entry_json(alloc, id, rule)?)?;
    }
    Ok(())
}

/// The object of a rule of an id (Client-Server API, Push rules, `GET /pushrules/global/{kind}/{ruleId}`).
pub fn entry_json<T: Test>(alloc: Global, id: &Text, rule: &Rule<T>) -> Result<Json, Memory>
    ensures { IfOk result (λ j. j ≡ entry_json T.asks (id.now, rule.now)) }
{
    let mut members = Members::new(alloc);
    put_plain(alloc, &mut members, id, rule)?;
    rule.test.write(alloc, &mut members)?;
    Ok(Json::Object(members))
}

/// Sets what every rule's object has.
fn put_plain<T>(
    alloc: Global,
    members: &mut Members<Json>,
    id: &Text,
    rule: &Rule<T>,
) -> Result<(), Memory>
    ensures { OnOk result (members.new ≡ with_plain id.now rule.now members.old) }
{
    put(
        alloc,
        members,
        "actions",
        Json::List(rule.actions.copy(alloc)?),
    )?;
    put(alloc, members, "default", Json::Bool(rule.default))?;
    put(alloc, members, "enabled", Json::Bool(rule.enabled))?;
    put(alloc, members, "rule_id", Json::Text(id.copy(alloc)?))
}

/// An object with one key.
pub fn single(alloc: Global, key: &str, value: Json) -> Result<Json, Memory>
    ensures { IfOk result (λ j. j ≡ single key.now value) }
{
    let mut members = Members::new(alloc);
    put(alloc, &mut members, key, value)?;
    Ok(Json::Object(members))
}

/// Sets a value at a key.
pub(crate) fn put(
    alloc: Global,
    members: &mut Members<Json>,
    key: &str,
    value: Json,
) -> Result<(), Memory>
    ensures { OnOk result (members.new ≡ with_member key.now value members.old) }
{
    members.set(Text::from_string(String::from_str(alloc, key)?), value)
}

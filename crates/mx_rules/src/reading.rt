//! The push rules that their JSON says.
ghost use Rattle.std.specs.Prelude.{◌≡◌, IfOk, OnOk, None, Some, if◌then◌else◌, option_map};
ghost use Rattle.indexmap.specs.IndexMap.{insert_entry};
ghost use Rattle.mx_rules.specs.Edits.{is_id};
ghost use Rattle.mx_rules.specs.Reading.{add_all, add_lists, entry_in, lists_by, lists_in, named, object_of, rule_from, rules_in};
ghost use Rattle.mx_rules.specs.Rules.{rules_of};

use crate::edits::set_rule;
use crate::rule::{CommonFields, Rule, Test, list_named, named};
use crate::rule_set::RuleSet;
use indexmap::IndexMap;
use mx_ids::{Copied, Memory, Seq, Text};
use mx_json::{Json, Member};
use std::alloc::Global;

/// The lists of the rules of each kind.
#[derive(Clone, Copy)]
struct Lists<'a> {
    content: &'a Seq<Json>,
    override_rules: &'a Seq<Json>,
    room: &'a Seq<Json>,
    sender: &'a Seq<Json>,
    underride: &'a Seq<Json>,
}

impl RuleSet {
    /// The rules that a content of `m.push_rules` says (Client-Server API, Push rules). `None` exactly where `to_json`
    /// makes the content of no rules: it isn't an object with the one key `global`, whose value has the list of the rules of
    /// each kind and nothing else, or a list has an item that isn't of the form of its rules, or an id twice. What
    /// conditions and actions say isn't judged.
    pub fn from_json(alloc: Global, json: &Json) -> Result<Option<RuleSet>, Memory>
        ensures { IfOk result (λ o. option_map rules_of o ≡ rules_in json.now) }
    {
        let Some(lists) = lists_in(json) else {
            return Ok(None);
        };
        let mut rules = RuleSet::new(alloc);
        let read = add_lists(alloc, lists, &mut rules)?;
        Ok(read.then_some(rules))
    }
}

/// The lists of the kinds in a content.
fn lists_in(json: &Json) -> Option<Lists<'_>>
    ensures { option_map (λ l. record { content = l.content.now; override_rules = l.override_rules.now; room = l.room.now; sender = l.sender.now; underride = l.underride.now }) result ≡ lists_in json.now }
{
    let [global] = json.as_object()?.as_slice() else {
        return None;
    };
    lists_by(named(global, "global")?.as_object()?.as_slice())
}

fn lists_by(kinds: &[Member<Json>]) -> Option<Lists<'_>>
    ensures { option_map (λ l. record { content = l.content.now; override_rules = l.override_rules.now; room = l.room.now; sender = l.sender.now; underride = l.underride.now }) result ≡ lists_by kinds.now }
{
    let [content, overrides, room, sender, underride] = kinds else {
        return None;
    };
    let ((((content, override_rules), room), sender), underride) = list_named(content, "content")
        .zip(list_named(overrides, "override"))
        .zip(list_named(room, "room"))
        .zip(list_named(sender, "sender"))
        .zip(list_named(underride, "underride"))?;
    Some(Lists {
        content,
        override_rules,
        room,
        sender,
        underride,
    })
}

/// Puts the rules of the lists behind those of their kinds, and says whether each list could be read.
fn add_lists(alloc: Global, lists: Lists<'_>, rules: &mut RuleSet) -> Result<bool, Memory>
    ensures { IfOk result (λ read. (if read then Some (rules_of rules.new) else None) ≡ add_lists (record { content = lists.entry.content.now; override_rules = lists.entry.override_rules.now; room = lists.entry.room.now; sender = lists.entry.sender.now; underride = lists.entry.underride.now }) (rules_of rules.old)) }
{
    Ok(
        add_all(alloc, lists.override_rules, &mut rules.override_rules)?
            && add_all(alloc, lists.content, &mut rules.content)?
            && add_all(alloc, lists.room, &mut rules.room)?
            && add_all(alloc, lists.sender, &mut rules.sender)?
            && add_all(alloc, lists.underride, &mut rules.underride)?,
    )
}

/// Puts the rules of a list behind those that are there, and says whether the list could be read: each item is of the form,
/// and has another id than all before it.
fn add_all<T: Test + Copied>(
    alloc: Global,
    items: &Seq<Json>,
    rules: &mut IndexMap<Text, Rule<T>>,
) -> Result<bool, Memory>
    ensures { IfOk result (λ read. (if read then Some rules.new.entries else None) ≡ add_all T.shown items.now rules.old.entries) }
{
    'items: for item in items.as_slice() {
        let Some((fields, test)) = entry_in::<T>(item) else {
            return Ok(false);
        };
        if rules.contains_key(fields.id) {
            return Ok(false);
        }
        add(alloc, rules, fields, test)?;
    }
    Ok(true)
}

/// What the object of a rule says.
fn entry_in<T: Test>(item: &Json) -> Option<(CommonFields<'_>, &T)>
    ensures { option_map (λ p. rule_from p.0.actions.now p.0.default p.0.enabled p.0.id.now p.1.now) result ≡ entry_in T.shown item.now }
{
    T::find(item.as_object()?.as_slice())
}

/// Puts a copy of the rule last.
fn add<T: Test + Copied>(
    alloc: Global,
    rules: &mut IndexMap<Text, Rule<T>>,
    fields: CommonFields<'_>,
    test: &T,
) -> Result<(), Memory>
    ensures { OnOk result (rules.new.entries ≡ insert_entry is_id rules.old.entries fields.entry.id.now (record { default = fields.entry.default; enabled = fields.entry.enabled; actions = fields.entry.actions.now; test = test.now })) }
{
    let rule = Rule {
        default: fields.default,
        enabled: fields.enabled,
        actions: fields.actions.copy(alloc)?,
        test: test.copy(alloc)?,
    };
    set_rule(rules, fields.id.copy(alloc)?, rule)
}

//! Changes of the rules of one kind.
ghost use Rattle.std.specs.Prelude.{◌≡◌, ◌≤◌, ◌<◌, None, Some, nat_eq, length, OnOk, OnErr, IfOk, option_map};
ghost use Rattle.std.specs.List.{insert};
ghost use Rattle.std.specs.Cmp.Lexicographic.{pointwise};
ghost use Rattle.std.specs.Map.{lookup};
ghost use Rattle.indexmap.specs.IndexMap.{get, insert_entry, spare};
ghost use Rattle.mx_rules.specs.Edits.{action_fault, before_id, behind_id, behind_master, has_neighbour, is_enabled, is_id, neighbour_fault, new_rule, no_rule, place_beside, put_beside, put_in, put_unplaced, with_actions, with_enabled, without};
ghost use Rattle.mx_rules.specs.Bodies.{items_of};
ghost use Rattle.mx_rules.specs.Judging.{Judges};

use crate::body::items_of;
use crate::fault::{RuleFault, Side};
use crate::judging::are_actions;
use crate::rule::{Rule, Test};
use indexmap::IndexMap;
use mx_ids::{Copied, Memory, Seq, Text};
use mx_json::Json;
use std::alloc::Global;

/// Puts the rule of a body among the rules of its kind, in place of the one that has its id, and enabled as that one was.
pub(crate) fn put_rule<T: Test>(
    alloc: Global,
    rules: &mut IndexMap<Text, Rule<T>>,
    id: &Text,
    body: &Json,
    before: Option<&Text>,
    after: Option<&Text>,
) -> Result<(), RuleFault>
    ensures judged { Judges result (neighbour_fault (option_map (λ t. t.now) before.entry) (option_map (λ t. t.now) after.entry) rules.old.entries) }
    ensures ok { OnOk result (rules.new.entries ≡ put_in id.now (new_rule (T.asked body.now) id.now body.now rules.old.entries) (option_map (λ t. t.now) before.entry) (option_map (λ t. t.now) after.entry) rules.old.entries) }
    ensures same { OnErr result (rules.new.entries ≡ rules.old.entries) }
{
    if !has_neighbour(rules, before) {
        return Err(RuleFault::NoNeighbour(Side::Before));
    }
    if !has_neighbour(rules, after) {
        return Err(RuleFault::NoNeighbour(Side::After));
    }
    let rule = new_rule(alloc, rules, id, body)?;
    Ok(put_in(rules, id.copy(alloc)?, rule, before, after)?)
}

/// The rule of a body.
fn new_rule<T: Test>(
    alloc: Global,
    rules: &IndexMap<Text, Rule<T>>,
    id: &Text,
    body: &Json,
) -> Result<Rule<T>, Memory>
    ensures { IfOk result (λ r. r ≡ new_rule (T.asked body.now) id.now body.now rules.now.entries) }
{
    Ok(Rule {
        default: false,
        enabled: is_enabled(rules, id),
        actions: items_of(alloc, body.field("actions"))?,
        test: T::read(alloc, body)?,
    })
}

/// Whether a rule is enabled; one that isn't there counts as enabled.
fn is_enabled<T>(rules: &IndexMap<Text, Rule<T>>, id: &Text) -> bool
    ensures { result ≡ is_enabled (lookup (is_id id.now) rules.now.entries) }
{
    match rules.get(id) {
        Some(rule) => rule.enabled,
        None => true,
    }
}

/// Whether a neighbour that is named is a user's rule.
fn has_neighbour<T>(rules: &IndexMap<Text, Rule<T>>, neighbour: Option<&Text>) -> bool
    ensures { result ≡ has_neighbour (option_map (λ t. t.now) neighbour.entry) rules.now.entries }
{
    let Some(neighbour) = neighbour else {
        return true;
    };
    match rules.get(neighbour) {
        Some(rule) => !rule.default,
        None => false,
    }
}

fn put_in<T: Drop>(
    rules: &mut IndexMap<Text, Rule<T>>,
    id: Text,
    rule: Rule<T>,
    before: Option<&Text>,
    after: Option<&Text>,
) -> Result<(), Memory>
    ensures ok { OnOk result (rules.new.entries ≡ put_in id rule (option_map (λ t. t.now) before.entry) (option_map (λ t. t.now) after.entry) rules.old.entries) }
    ensures same { OnErr result (rules.new.entries ≡ rules.old.entries) }
{
    match before {
        Some(neighbour) => put_beside(rules, id, rule, neighbour, Side::Before),
        None => match after {
            Some(neighbour) => put_beside(rules, id, rule, neighbour, Side::After),
            None => put_unplaced(rules, id, rule),
        },
    }
}

/// Puts a rule right before a neighbour or behind it; beside itself it keeps its place.
fn put_beside<T: Drop>(
    rules: &mut IndexMap<Text, Rule<T>>,
    id: Text,
    rule: Rule<T>,
    neighbour: &Text,
    side: Side,
) -> Result<(), Memory>
    ensures ok { OnOk result (rules.new.entries ≡ put_beside side id rule neighbour.now rules.old.entries) }
    ensures same { OnErr result (rules.new.entries ≡ rules.old.entries) }
{
    if *neighbour == id {
        return set_rule(rules, id, rule);
    }
    rules.reserve(1)?;
    rules.shift_remove(&id);
    let at = place_beside(rules, neighbour, side);
    insert_new(rules, at, id, rule);
    Ok(())
}

fn put_unplaced<T: Drop>(
    rules: &mut IndexMap<Text, Rule<T>>,
    id: Text,
    rule: Rule<T>,
) -> Result<(), Memory>
    ensures ok { OnOk result (rules.new.entries ≡ put_unplaced id rule rules.old.entries) }
    ensures same { OnErr result (rules.new.entries ≡ rules.old.entries) }
{
    if rules.contains_key(&id) {
        return set_rule(rules, id, rule);
    }
    rules.reserve(1)?;
    let at = behind_master(rules);
    insert_new(rules, at, id, rule);
    Ok(())
}

/// Puts a rule in the place of the one that has its id, or last.
pub(crate) fn set_rule<T: Drop>(
    rules: &mut IndexMap<Text, Rule<T>>,
    id: Text,
    rule: Rule<T>,
) -> Result<(), Memory>
    ensures ok { OnOk result (rules.new.entries ≡ insert_entry is_id rules.old.entries id rule) }
    ensures same { OnErr result (rules.new.entries ≡ rules.old.entries) }
{
    rules.insert(id, rule)?;
    Ok(())
}

/// Inserts a rule whose id isn't there, where there is room for it.
fn insert_new<T: Drop>(rules: &mut IndexMap<Text, Rule<T>>, at: usize, id: Text, rule: Rule<T>)
    requires new { get (pointwise nat_eq) rules.old id ≡ None }
    requires within { at ≤ length rules.old.entries }
    requires room { 0 < spare rules.old }
    ensures { rules.new.entries ≡ insert rules.old.entries at (id, rule) }
{
    rules.shift_insert(at, id, rule).unwrap();
}

/// Where a rule goes that is to stand beside a rule.
fn place_beside<T>(rules: &IndexMap<Text, Rule<T>>, neighbour: &Text, side: Side) -> usize
    ensures place { result ≡ place_beside side neighbour.now rules.now.entries }
    ensures within { result ≤ length rules.now.entries }
{
    match side {
        Side::Before => before_id(rules, neighbour),
        Side::After => behind_id(rules, neighbour),
    }
}

/// Where a rule stands, or the end.
fn before_id<T>(rules: &IndexMap<Text, Rule<T>>, id: &Text) -> usize
    ensures place { result ≡ before_id id.now rules.now.entries }
    ensures within { result ≤ length rules.now.entries }
{
    match rules.get_index_of(id) {
        Some(at) => at,
        None => rules.len(),
    }
}

/// Where the rule behind a rule stands, or the end.
fn behind_id<T>(rules: &IndexMap<Text, Rule<T>>, id: &Text) -> usize
    ensures place { result ≡ behind_id id.now rules.now.entries }
    ensures within { result ≤ length rules.now.entries }
{
    let len = rules.len();
    match rules.get_index_of(id) {
        Some(at) => at + 1,
        None => len,
    }
}

/// Where a new rule of a user goes first: behind `.m.rule.master` where that stands first.
fn behind_master<T>(rules: &IndexMap<Text, Rule<T>>) -> usize
    ensures place { result ≡ behind_master rules.now.entries }
    ensures within { result ≤ length rules.now.entries }
{
    match rules.get_index(0) {
        Some((id, _)) if id.as_str() == ".m.rule.master" => 1,
        _ => 0,
    }
}

/// Takes a rule away. `NoRule` exactly where it isn't there.
pub(crate) fn take_away<T: Drop>(
    rules: &mut IndexMap<Text, Rule<T>>,
    id: &Text,
) -> Result<(), RuleFault>
    ensures judged { Judges result (no_rule id.now rules.old.entries) }
    ensures ok { OnOk result (rules.new.entries ≡ without id.now rules.old.entries) }
    ensures same { OnErr result (rules.new.entries ≡ rules.old.entries) }
{
    match rules.shift_remove(id) {
        Some(_) => Ok(()),
        None => Err(RuleFault::NoRule),
    }
}

/// Enables a rule or disables it. `NoRule` exactly where it isn't there.
pub(crate) fn enable<T>(
    rules: &mut IndexMap<Text, Rule<T>>,
    id: &Text,
    on: bool,
) -> Result<(), RuleFault>
    ensures judged { Judges result (no_rule id.now rules.old.entries) }
    ensures ok { OnOk result (rules.new.entries ≡ with_enabled on id.now rules.old.entries) }
    ensures same { OnErr result (rules.new.entries ≡ rules.old.entries) }
{
    match rules.get_mut(id) {
        Some(rule) => {
            rule.enabled = on;
            Ok(())
        }
        None => Err(RuleFault::NoRule),
    }
}

/// Sets the actions of a rule. `NoRule` exactly where it isn't there, else `BadAction` exactly where the value is no list
/// of actions.
pub(crate) fn act<T>(
    alloc: Global,
    rules: &mut IndexMap<Text, Rule<T>>,
    id: &Text,
    actions: &Json,
) -> Result<(), RuleFault>
    ensures judged { Judges result (action_fault id.now actions.now rules.old.entries) }
    ensures ok { OnOk result (rules.new.entries ≡ with_actions (items_of (Some actions.now)) id.now rules.old.entries) }
    ensures same { OnErr result (rules.new.entries ≡ rules.old.entries) }
{
    if !rules.contains_key(id) {
        return Err(RuleFault::NoRule);
    }
    if !are_actions(Some(actions)) {
        return Err(RuleFault::BadAction);
    }
    let actions = items_of(alloc, Some(actions))?;
    set_actions(rules, id, actions);
    Ok(())
}

fn set_actions<T>(rules: &mut IndexMap<Text, Rule<T>>, id: &Text, actions: Seq<Json>)
    ensures { rules.new.entries ≡ with_actions actions id.now rules.old.entries }
{
    if let Some(rule) = rules.get_mut(id) {
        rule.actions = actions;
    }
}

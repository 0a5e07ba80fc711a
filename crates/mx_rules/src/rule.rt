//! One push rule, and what it asks beside its kind.
ghost use Rattle.std.specs.Prelude.{◌≡◌, ℕ, IfOk, OnOk, List, Option, option_map};
ghost use Rattle.mx_json.specs.declared.members.Member.{Member as MemberOf};
ghost use Rattle.mx_json.specs.declared.value.Json.{Json as JsonValue};
ghost use Rattle.mx_rules.specs.Reading.{asks_conditions, asks_nothing, asks_pattern, bare_by, bare_from, bool_named, list_named, named, rule_from, text_named};
ghost use Rattle.mx_rules.specs.declared.rule.Rule.{Rule as RuleOf};
ghost use Rattle.mx_rules.specs.Rules.{conditions_of, pattern_of};
ghost use Rattle.mx_rules.specs.Writing.{with_conditions, with_nothing, with_pattern};

use crate::body::{items_of, text_or_none};
use crate::writing::put;
use mx_ids::{Copied, Memory, Seq, Text};
use mx_json::{Json, Member, Members};
use std::alloc::Global;

/// The kinds of push rules, in the order in which they are tried.
#[derive(Clone, Copy, Debug, PartialEq, Eq)]
pub enum Kind {
    Override,
    Content,
    Room,
    Sender,
    Underride,
}

/// A push rule (Client-Server API, Push rules), without its id.
#[derive(Debug, Drop)]
pub struct Rule<T> {
    /// Whether it is one of the default rules.
    pub default: bool,
    pub enabled: bool,
    pub actions: Seq<Json>,
    /// What it asks beside its kind.
    pub test: T,
}

/// What a rule asks beside its kind: conditions (override and underride), a pattern (content), or nothing.
pub trait Test: Sized + Drop {
    // The members of a rule's object, with what the rule asks among them.
    ghost asks: { Self → List (MemberOf JsonValue) → List (MemberOf JsonValue) };

    // What the rule of an object asks.
    ghost asked: { JsonValue → Self };

    // The rule that the members of an object say, where they are those of such a rule.
    ghost shown: { List (MemberOf JsonValue) → Option (List ℕ × RuleOf Self) };

    /// Sets what the rule asks among the members of its object.
    fn write(&self, alloc: Global, members: &mut Members<Json>) -> Result<(), Memory>
        ensures { OnOk result (members.new ≡ asks self.now members.old) };

    /// What the rule of an object asks.
    fn read(alloc: Global, body: &Json) -> Result<Self, Memory>
        ensures { IfOk result (λ t. t ≡ asked body.now) };

    /// What the members of an object say of a rule, and what it asks, where they are those of such a rule.
    fn find(members: &[Member<Json>]) -> Option<(CommonFields<'_>, &Self)>
        ensures { option_map (λ p. rule_from p.0.actions.now p.0.default p.0.enabled p.0.id.now p.1.now) result ≡ shown members.now };
}

/// What the object of a rule says beside what the rule asks.
#[derive(Clone, Copy)]
pub struct CommonFields<'a> {
    pub(crate) actions: &'a Seq<Json>,
    pub(crate) default: bool,
    pub(crate) enabled: bool,
    pub(crate) id: &'a Text,
}

/// What these members say of a rule.
fn common_fields<'a>(
    actions: &'a Member<Json>,
    default: &'a Member<Json>,
    enabled: &'a Member<Json>,
    id: &'a Member<Json>,
) -> Option<CommonFields<'a>>
    ensures { option_map (λ p. bare_from p.actions.now p.default p.enabled p.id.now) result ≡ bare_by actions.now default.now enabled.now id.now }
{
    let (((actions, default), enabled), id) = list_named(actions, "actions")
        .zip(bool_named(default, "default"))
        .zip(bool_named(enabled, "enabled"))
        .zip(text_named(id, "rule_id"))?;
    Some(CommonFields {
        actions,
        default,
        enabled,
        id,
    })
}

/// The list of a member that has the key.
pub(crate) fn list_named<'a>(member: &'a Member<Json>, key: &str) -> Option<&'a Seq<Json>>
    ensures { option_map (λ js. js.now) result ≡ list_named key.now member.now }
{
    named(member, key)?.as_list()
}

/// The truth value of a member that has the key.
fn bool_named(member: &Member<Json>, key: &str) -> Option<bool>
    ensures { result ≡ bool_named key.now member.now }
{
    named(member, key)?.as_bool()
}

/// The text of a member that has the key.
fn text_named<'a>(member: &'a Member<Json>, key: &str) -> Option<&'a Text>
    ensures { option_map (λ t. t.now) result ≡ text_named key.now member.now }
{
    named(member, key)?.as_text()
}

/// The value of a member that has the key.
pub(crate) fn named<'a>(member: &'a Member<Json>, key: &str) -> Option<&'a Json>
    ensures { option_map (λ v. v.now) result ≡ named key.now member.now }
{
    if member.key.as_str() == key {
        Some(&member.value)
    } else {
        None
    }
}

/// Conditions that all hold.
impl Test for Seq<Json> {
    ghost asks = { with_conditions };

    ghost asked = { conditions_of };

    ghost shown = { asks_conditions };

    fn write(&self, alloc: Global, members: &mut Members<Json>) -> Result<(), Memory> {
        put(alloc, members, "conditions", Json::List(self.copy(alloc)?))
    }

    fn read(alloc: Global, body: &Json) -> Result<Seq<Json>, Memory> {
        items_of(alloc, body.field("conditions"))
    }

    fn find(members: &[Member<Json>]) -> Option<(CommonFields<'_>, &Seq<Json>)> {
        let [actions, conditions, default, enabled, id] = members else {
            return None;
        };
        common_fields(actions, default, enabled, id).zip(list_named(conditions, "conditions"))
    }
}

/// A pattern that the body of the event fits.
impl Test for Text {
    ghost asks = { with_pattern };

    ghost asked = { pattern_of };

    ghost shown = { asks_pattern };

    fn write(&self, alloc: Global, members: &mut Members<Json>) -> Result<(), Memory> {
        put(alloc, members, "pattern", Json::Text(self.copy(alloc)?))
    }

    fn read(alloc: Global, body: &Json) -> Result<Text, Memory> {
        text_or_none(alloc, body, "pattern")
    }

    fn find(members: &[Member<Json>]) -> Option<(CommonFields<'_>, &Text)> {
        let [actions, default, enabled, pattern, id] = members else {
            return None;
        };
        common_fields(actions, default, enabled, id).zip(text_named(pattern, "pattern"))
    }
}

/// Nothing: the rule's id says it all.
impl Test for () {
    ghost asks = { with_nothing };

    ghost asked = { λ _. tt };

    ghost shown = { asks_nothing };

    fn write(&self, _alloc: Global, _members: &mut Members<Json>) -> Result<(), Memory> {
        Ok(())
    }

    fn read(_alloc: Global, _body: &Json) -> Result<(), Memory> {
        Ok(())
    }

    fn find(members: &[Member<Json>]) -> Option<(CommonFields<'_>, &())> {
        let [actions, default, enabled, id] = members else {
            return None;
        };
        Some((common_fields(actions, default, enabled, id)?, &()))
    }
}

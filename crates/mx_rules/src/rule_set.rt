//! The push rules of a user, and their changes.
ghost use Rattle.std.specs.Prelude.{◌≡◌, OnOk, OnErr, option_map};
ghost use Rattle.mx_rules.specs.Judging.{Judges};
ghost use Rattle.mx_rules.specs.Rules.{acted, actions_fault, enabled, is_default_id, no_rules, no_rule_in, put, put_fault, removed, remove_fault, rules_of};

use crate::edits::{act, enable, put_rule, take_away};
use crate::fault::RuleFault;
use crate::judging::{are_actions, is_test};
use crate::rule::{Kind, Rule};
use indexmap::IndexMap;
use mx_ids::{Seq, Text};
use mx_json::Json;
use std::alloc::Global;

/// The push rules of a user (Client-Server API, Push rules), kind by kind, each with its id and in the order in which they
/// are tried. A change that is refused leaves them as they were.
#[derive(Drop)]
pub struct RuleSet {
    pub override_rules: IndexMap<Text, Rule<Seq<Json>>>,
    pub content: IndexMap<Text, Rule<Text>>,
    pub room: IndexMap<Text, Rule<()>>,
    pub sender: IndexMap<Text, Rule<()>>,
    pub underride: IndexMap<Text, Rule<Seq<Json>>>,
}

impl RuleSet {
    /// No rules. Takes no memory.
    pub(crate) fn new(alloc: Global) -> RuleSet
        ensures { rules_of result ≡ no_rules }
    {
        RuleSet {
            override_rules: IndexMap::new(alloc),
            content: IndexMap::new(alloc),
            room: IndexMap::new(alloc),
            sender: IndexMap::new(alloc),
            underride: IndexMap::new(alloc),
        }
    }

    /// Puts a user's rule (`PUT /pushrules/global/{kind}/{ruleId}`). A new one goes first in its kind, behind
    /// `.m.rule.master` where that stands first, or right before or behind a neighbour; with both, `before` decides. One that
    /// is there is replaced, enabled as it was; without neighbours, and beside itself, it keeps its place.
    ///
    /// `DefaultRule` exactly where the id begins with `.`, else `BadCondition` and `BadAction` exactly where what the rule
    /// asks or its actions are of the wrong form, else `NoNeighbour` exactly where a neighbour isn't a user's rule of the
    /// kind.
    pub fn put(
        &mut self,
        alloc: Global,
        kind: Kind,
        id: &Text,
        body: &Json,
        before: Option<&Text>,
        after: Option<&Text>,
    ) -> Result<(), RuleFault>
        ensures judged { Judges result (put_fault kind id.now body.now (option_map (λ t. t.now) before.entry) (option_map (λ t. t.now) after.entry) (rules_of self.old)) }
        ensures ok { OnOk result (rules_of self.new ≡ put kind id.now body.now (option_map (λ t. t.now) before.entry) (option_map (λ t. t.now) after.entry) (rules_of self.old)) }
        ensures same { OnErr result (rules_of self.new ≡ rules_of self.old) }
    {
        if is_default_id(id) {
            return Err(RuleFault::DefaultRule);
        }
        if !is_test(kind, body) {
            return Err(RuleFault::BadCondition);
        }
        if !are_actions(body.field("actions")) {
            return Err(RuleFault::BadAction);
        }
        match kind {
            Kind::Override => put_rule(alloc, &mut self.override_rules, id, body, before, after),
            Kind::Content => put_rule(alloc, &mut self.content, id, body, before, after),
            Kind::Room => put_rule(alloc, &mut self.room, id, body, before, after),
            Kind::Sender => put_rule(alloc, &mut self.sender, id, body, before, after),
            Kind::Underride => put_rule(alloc, &mut self.underride, id, body, before, after),
        }
    }

    /// Takes a user's rule away (`DELETE /pushrules/global/{kind}/{ruleId}`). `DefaultRule` exactly where the id begins
    /// with `.`, else `NoRule` exactly where the rule isn't there. Takes no memory.
    pub fn remove(&mut self, kind: Kind, id: &Text) -> Result<(), RuleFault>
        ensures judged { Judges result (remove_fault kind id.now (rules_of self.old)) }
        ensures ok { OnOk result (rules_of self.new ≡ removed kind id.now (rules_of self.old)) }
        ensures same { OnErr result (rules_of self.new ≡ rules_of self.old) }
    {
        if is_default_id(id) {
            return Err(RuleFault::DefaultRule);
        }
        match kind {
            Kind::Override => take_away(&mut self.override_rules, id),
            Kind::Content => take_away(&mut self.content, id),
            Kind::Room => take_away(&mut self.room, id),
            Kind::Sender => take_away(&mut self.sender, id),
            Kind::Underride => take_away(&mut self.underride, id),
        }
    }

    /// Enables a rule or disables it. `NoRule` exactly where it isn't there. Takes no memory.
    pub fn set_enabled(&mut self, kind: Kind, id: &Text, on: bool) -> Result<(), RuleFault>
        ensures judged { Judges result (no_rule_in kind id.now (rules_of self.old)) }
        ensures ok { OnOk result (rules_of self.new ≡ enabled on kind id.now (rules_of self.old)) }
        ensures same { OnErr result (rules_of self.new ≡ rules_of self.old) }
    {
        match kind {
            Kind::Override => enable(&mut self.override_rules, id, on),
            Kind::Content => enable(&mut self.content, id, on),
            Kind::Room => enable(&mut self.room, id, on),
            Kind::Sender => enable(&mut self.sender, id, on),
            Kind::Underride => enable(&mut self.underride, id, on),
        }
    }

    /// Sets the actions of a rule. `NoRule` exactly where it isn't there, else `BadAction` exactly where the value is no
    /// list of actions.
    pub fn set_actions(
        &mut self,
        alloc: Global,
        kind: Kind,
        id: &Text,
        actions: &Json,
    ) -> Result<(), RuleFault>
        ensures judged { Judges result (actions_fault kind id.now actions.now (rules_of self.old)) }
        ensures ok { OnOk result (rules_of self.new ≡ acted actions.now kind id.now (rules_of self.old)) }
        ensures same { OnErr result (rules_of self.new ≡ rules_of self.old) }
    {
        match kind {
            Kind::Override => act(alloc, &mut self.override_rules, id, actions),
            Kind::Content => act(alloc, &mut self.content, id, actions),
            Kind::Room => act(alloc, &mut self.room, id, actions),
            Kind::Sender => act(alloc, &mut self.sender, id, actions),
            Kind::Underride => act(alloc, &mut self.underride, id, actions),
        }
    }
}

/// Whether an id begins with a dot, as those of the default rules do.
fn is_default_id(id: &Text) -> bool
    ensures { result ≡ is_default_id id.now }
{
    match id.as_str().as_bytes() {
        [first, ..] => *first == b'.',
        [] => false,
    }
}

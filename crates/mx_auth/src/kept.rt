//! What is kept of the events of a room: what the rules ask of them.
ghost use Rattle.std.specs.Prelude.{◌≡◌, ◌<◌, ◌≤◌, ◌+◌, ℕ, List, [], ◌∷◌, ◌++◌, Some, None, true, IfOk, OnOk, IsSome, if◌then◌else◌};
ghost use Rattle.std.specs.BTreeMap.{get_by_text};
ghost use Rattle.std.specs.Str.{bytes_eq};
ghost use Rattle.mx_json.specs.Fields.{text_at};
ghost use Rattle.mx_event.specs.Denied.{target};
ghost use Rattle.mx_event.specs.declared.event.Event.{Event};
ghost use Rattle.mx_auth.specs.Kept.{change_of, membership_at, next_count, HasPlace, IsKept, IsSet, KeysStay};
ghost use Rattle.mx_auth.specs.Placing.{is_in, Longer};

use crate::kinds::{CREATE, JOIN_RULES, MEMBER, POWER_LEVELS, target};
use crate::places::Places;
use mx_event::Event;
use mx_ids::{Copied, Memory, Text, UserId};
use mx_json::Json;
use std::alloc::Global;
use std::collections::BTreeMap;

/// How many events a room has, as far as the rules ask.
#[derive(Clone, Copy, Debug, PartialEq, Eq)]
pub(crate) enum Count {
    Zero,
    One,
    More,
}

impl Count {
    /// The count with one event more.
    fn next(self) -> Count
        ensures { result ≡ next_count self }
    {
        match self {
            Count::Zero => Count::One,
            Count::One => Count::More,
            Count::More => Count::More,
        }
    }
}

/// What the rules ask of the events of a room.
#[derive(Drop)]
pub(crate) struct Kept {
    pub(crate) count: Count,
    /// The sender of the standing create event.
    pub(crate) creator: Option<UserId>,
    /// The standing join rule.
    pub(crate) join_rule: Option<Text>,
    /// The content of the standing power levels.
    pub(crate) powers: Option<Json>,
    /// The standing membership under each state key. A key that has none is as one that isn't here.
    pub(crate) memberships: BTreeMap<String, Option<Text>>,
    /// At which positions the events stand, and who sent them.
    pub(crate) places: Places,
}

/// What an event sets, copied before the event is taken in.
#[derive(Drop)]
pub(crate) enum Change {
    Nothing,
    Creator(UserId),
    JoinRule(Option<Text>),
    Powers(Json),
    Membership(Option<Text>),
}

/// A copy of what an event sets.
fn change_of(alloc: Global, event: &Event) -> Result<Change, Memory>
    ensures { IfOk result (λ c. c ≡ change_of event.now) }
{
    if event.has_key(CREATE, "") {
        Ok(Change::Creator(event.sender.copy(alloc)?))
    } else if event.has_key(JOIN_RULES, "") {
        Ok(Change::JoinRule(text_of(alloc, &event.content, "join_rule")?))
    } else if event.has_key(POWER_LEVELS, "") {
        Ok(Change::Powers(event.content.copy(alloc)?))
    } else if event.is_of(MEMBER) && event.state_key.is_some() {
        Ok(Change::Membership(text_of(alloc, &event.content, "membership")?))
    } else {
        Ok(Change::Nothing)
    }
}

/// A copy of the text at a key, if a text stands there.
fn text_of(alloc: Global, content: &Json, key: &str) -> Result<Option<Text>, Memory>
    ensures { IfOk result (λ t. t ≡ text_at key.now content.now) }
{
    match content.text_at(key) {
        Some(text) => Ok(Some(text.copy(alloc)?)),
        None => Ok(None),
    }
}

/// Makes a place for the membership that a change sets under a key, so that setting it takes no memory.
fn make_place(
    alloc: Global,
    memberships: &mut BTreeMap<String, Option<Text>>,
    key: &str,
    change: &Change,
) -> Result<(), Memory>
    ensures place { OnOk result (HasPlace change.now key.now memberships.new) }
    ensures same { (user : List ℕ) → membership_at memberships.new user ≡ membership_at memberships.old user }
    ensures keys { KeysStay memberships.old memberships.new }
{
    match change {
        Change::Membership(_) => make_place_at(alloc, memberships, key),
        _ => Ok(()),
    }
}

fn make_place_at(
    alloc: Global,
    memberships: &mut BTreeMap<String, Option<Text>>,
    key: &str,
) -> Result<(), Memory>
    ensures place { OnOk result (IsSome (get_by_text memberships.new key.now)) }
    ensures same { (user : List ℕ) → membership_at memberships.new user ≡ membership_at memberships.old user }
    ensures keys { KeysStay memberships.old memberships.new }
{
    if !memberships.contains_key(key) {
        memberships.insert(String::from_str(alloc, key)?, None)?;
    }
    Ok(())
}

/// Sets a membership under a key that has a place. Takes no memory.
fn set_membership(
    memberships: &mut BTreeMap<String, Option<Text>>,
    key: &str,
    membership: Option<Text>,
)
    requires { IsSome (get_by_text memberships.old key.now) }
    ensures set { (user : List ℕ) → membership_at memberships.new user ≡ (if bytes_eq key.now user then membership else membership_at memberships.old user) }
    ensures keys { KeysStay memberships.old memberships.new }
{
    if let Some(place) = memberships.get_mut(key) {
        *place = membership;
    }
}

impl Kept {
    /// Nothing kept, of no event. Takes no memory.
    pub(crate) fn new(alloc: Global) -> Kept
        ensures { IsKept result [] }
    {
        Kept {
            count: Count::Zero,
            creator: None,
            join_rule: None,
            powers: None,
            memberships: BTreeMap::new(alloc),
            places: Places::new(alloc),
        }
    }

    /// Sets what an event with this state key sets. Takes no memory.
    fn set(&mut self, key: &str, change: Change)
        requires { HasPlace change key.now self.old.memberships }
        ensures { IsSet change key.now self.old self.new }
    {
        match change {
            Change::Nothing => {}
            Change::Creator(user) => self.creator = Some(user),
            Change::JoinRule(rule) => self.join_rule = rule,
            Change::Powers(content) => self.powers = Some(content),
            Change::Membership(membership) => {
                set_membership(&mut self.memberships, key, membership);
            }
        }
    }

    /// Makes a place for what an event sets, and `count` spare places of events, so that the event can be settled without memory.
    /// What is kept is of the same events, also where the answer is `Memory`.
    pub(crate) fn prepare(
        &mut self,
        alloc: Global,
        event: &Event,
        count: usize,
    ) -> Result<Change, Memory>
        ensures ready { IfOk result (λ c. c ≡ change_of event.now) }
        ensures place { OnOk result (HasPlace (change_of event.now) (target event.now) self.new.memberships) }
        ensures places { OnOk result (count ≤ self.new.places.spare) }
        ensures kept { (es : List Event) → IsKept self.old es → IsKept self.new es }
        ensures keys { KeysStay self.old.memberships self.new.memberships }
        ensures spare { self.old.places.spare ≤ self.new.places.spare }
        ensures known { OnOk result (is_in self.new.places.names event.now.sender ≡ true) }
        ensures names { Longer self.old.places.names self.new.places.names }
    {
        self.places.reserve(alloc, count, &event.sender)?;
        let change = change_of(alloc, event)?;
        make_place(alloc, &mut self.memberships, target(event), &change)?;
        Ok(change)
    }

    /// Takes in, at a position, an event with this state key and sender that was prepared. Takes no memory.
    pub(crate) fn settle(&mut self, key: &str, sender: &str, change: Change, at: u64)
        requires place { HasPlace change key.now self.old.memberships }
        requires places { 0 < self.old.places.spare }
        requires known { is_in self.old.places.names sender.now ≡ true }
        ensures kept { (e : Event) (es : List Event) → change ≡ change_of e → key.now ≡ target e → sender.now ≡ e.sender → at ≡ e.id.at → IsKept self.old es → IsKept self.new (es ++ e ∷ []) }
        ensures keys { KeysStay self.old.memberships self.new.memberships }
        ensures spare { self.new.places.spare + 1 ≡ self.old.places.spare }
        ensures names { self.new.places.names ≡ self.old.places.names }
    {
        self.places.put(at, sender);
        self.count = self.count.next();
        self.set(key, change);
    }
}

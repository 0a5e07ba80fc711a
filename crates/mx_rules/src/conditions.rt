//! The conditions and actions of the default rules.
ghost use Rattle.std.specs.Prelude.{◌≡◌, IfOk, OnOk, [], ◌∷◌, ◌++◌};
ghost use Rattle.mx_json.specs.Keys.{with_member};
ghost use Rattle.mx_json.specs.declared.value.Json.TheVariants as json;
ghost use Rattle.mx_rules.specs.declared.builtin.Builtin.TheVariants as builtins;
ghost use Rattle.mx_rules.specs.Builtins.{actions_of, conditions_of, display_name, event_match, highlight, is_edit, may_notify_room, mentions, mentions_room, notify, sound, two_members};

use crate::builtin::{Builtin, Does};
use crate::writing::put;
use mx_ids::{Memory, Seq, Text, UserId};
use mx_json::{Json, Members};
use std::alloc::Global;

impl Builtin {
    /// The conditions of the rule for a user.
    pub(crate) fn conditions(self, alloc: Global, user: &UserId) -> Result<Seq<Json>, Memory>
        ensures { IfOk result (λ js. js ≡ conditions_of user.now self) }
    {
        let mut all = Seq::new(alloc);
        self.push_conditions(alloc, user.as_str(), &mut all)?;
        Ok(all)
    }

    /// Puts the conditions of the rule for a user at the end of a list.
    fn push_conditions(self, alloc: Global, user: &str, all: &mut Seq<Json>) -> Result<(), Memory>
        ensures { OnOk result (all.new ≡ all.old ++ conditions_of user.now self) }
    {
        let of_type = "type";
        match self {
            Builtin::Master => Ok(()),
            Builtin::SuppressNotices => push_match(alloc, all, "content.msgtype", "m.notice"),
            Builtin::InviteForMe => push_invitation(alloc, all, user),
            Builtin::MemberEvent => push_match(alloc, all, of_type, "m.room.member"),
            Builtin::IsUserMention => all.push(mentions(alloc, user)?),
            Builtin::ContainsDisplayName => all.push(display_name(alloc)?),
            Builtin::IsRoomMention => {
                all.push(mentions_room(alloc)?)?;
                push_permission(alloc, all)
            }
            Builtin::RoomNotif => {
                push_match(alloc, all, "content.body", "@room")?;
                push_permission(alloc, all)
            }
            Builtin::Tombstone => {
                push_match(alloc, all, of_type, "m.room.tombstone")?;
                push_match(alloc, all, "state_key", "")
            }
            Builtin::Reaction => push_match(alloc, all, of_type, "m.reaction"),
            Builtin::SuppressEdits => all.push(is_edit(alloc)?),
            Builtin::Call => push_match(alloc, all, of_type, "m.call.invite"),
            Builtin::RoomOneToOne => {
                all.push(two_members(alloc)?)?;
                push_match(alloc, all, of_type, "m.room.message")
            }
            Builtin::Message => push_match(alloc, all, of_type, "m.room.message"),
        }
    }
}

impl Does {
    /// The actions.
    pub(crate) fn actions(self, alloc: Global) -> Result<Seq<Json>, Memory>
        ensures { IfOk result (λ js. js ≡ actions_of self) }
    {
        let mut all = Seq::new(alloc);
        self.push_actions(alloc, &mut all)?;
        Ok(all)
    }

    /// Puts the actions at the end of a list.
    fn push_actions(self, alloc: Global, all: &mut Seq<Json>) -> Result<(), Memory>
        ensures { OnOk result (all.new ≡ all.old ++ actions_of self) }
    {
        match self {
            Does::Nothing => Ok(()),
            Does::Notify => all.push(notify(alloc)?),
            Does::Sound => push_sound(alloc, all, "default"),
            Does::Ring => push_sound(alloc, all, "ring"),
            Does::Highlight => push_highlight(alloc, all),
            Does::SoundAndHighlight => {
                push_sound(alloc, all, "default")?;
                all.push(highlight(alloc)?)
            }
        }
    }
}

/// Puts at the end of a list that a user is notified with a sound.
fn push_sound(alloc: Global, all: &mut Seq<Json>, name: &str) -> Result<(), Memory>
    ensures { OnOk result (all.new ≡ all.old ++ notify ∷ sound name.now ∷ []) }
{
    all.push(notify(alloc)?)?;
    all.push(sound(alloc, name)?)
}

/// Puts at the end of a list that a user is notified and the event highlighted.
fn push_highlight(alloc: Global, all: &mut Seq<Json>) -> Result<(), Memory>
    ensures { OnOk result (all.new ≡ all.old ++ notify ∷ highlight ∷ []) }
{
    all.push(notify(alloc)?)?;
    all.push(highlight(alloc)?)
}

fn text_value(alloc: Global, value: &str) -> Result<Json, Memory>
    ensures { IfOk result (λ j. j ≡ json.Text value.now) }
{
    let text = String::from_str(alloc, value)?;
    Ok(Json::Text(Text::from_string(text)))
}

/// Sets a text at a key.
fn put_text(
    alloc: Global,
    members: &mut Members<Json>,
    key: &str,
    value: &str,
) -> Result<(), Memory>
    ensures { OnOk result (members.new ≡ with_member key.now (json.Text value.now) members.old) }
{
    put(alloc, members, key, text_value(alloc, value)?)
}

#[tactic(auto, unfolding(crate::specs::Builtins::event_match))]
fn event_match(alloc: Global, key: &str, pattern: &str) -> Result<Json, Memory>
    ensures { IfOk result (λ j. j ≡ event_match key.now pattern.now) }
{
    let mut members = Members::new(alloc);
    put_text(alloc, &mut members, "key", key)?;
    put_text(alloc, &mut members, "kind", "event_match")?;
    put_text(alloc, &mut members, "pattern", pattern)?;
    Ok(Json::Object(members))
}

/// Puts a condition on the text at a dotted path at the end of a list.
fn push_match(alloc: Global, all: &mut Seq<Json>, key: &str, pattern: &str) -> Result<(), Memory>
    ensures { OnOk result (all.new ≡ all.old ++ event_match key.now pattern.now ∷ []) }
{
    all.push(event_match(alloc, key, pattern)?)
}

/// Puts the condition that the sender may notify the room at the end of a list.
fn push_permission(alloc: Global, all: &mut Seq<Json>) -> Result<(), Memory>
    ensures { OnOk result (all.new ≡ all.old ++ may_notify_room ∷ []) }
{
    all.push(may_notify_room(alloc)?)
}

/// Puts the conditions on an invitation of a user at the end of a list.
fn push_invitation(alloc: Global, all: &mut Seq<Json>, user: &str) -> Result<(), Memory>
    ensures { OnOk result (all.new ≡ all.old ++ conditions_of user.now builtins.InviteForMe) }
{
    push_match(alloc, all, "type", "m.room.member")?;
    push_match(alloc, all, "content.membership", "invite")?;
    push_match(alloc, all, "state_key", user)
}

#[tactic(auto, unfolding(crate::specs::Builtins::mentions))]
fn mentions(alloc: Global, user: &str) -> Result<Json, Memory>
    ensures { IfOk result (λ j. j ≡ mentions user.now) }
{
    let mut members = Members::new(alloc);
    put_text(alloc, &mut members, "key", "content.m\\.mentions.user_ids")?;
    put_text(alloc, &mut members, "kind", "event_property_contains")?;
    put_text(alloc, &mut members, "value", user)?;
    Ok(Json::Object(members))
}

#[tactic(auto, unfolding(crate::specs::Builtins::mentions_room))]
fn mentions_room(alloc: Global) -> Result<Json, Memory>
    ensures { IfOk result (λ j. j ≡ mentions_room) }
{
    let mut members = Members::new(alloc);
    put_text(alloc, &mut members, "key", "content.m\\.mentions.room")?;
    put_text(alloc, &mut members, "kind", "event_property_is")?;
    put(alloc, &mut members, "value", Json::Bool(true))?;
    Ok(Json::Object(members))
}

#[tactic(auto, unfolding(crate::specs::Builtins::is_edit))]
fn is_edit(alloc: Global) -> Result<Json, Memory>
    ensures { IfOk result (λ j. j ≡ is_edit) }
{
    let key = "content.m\\.relates_to.rel_type";
    let mut members = Members::new(alloc);
    put_text(alloc, &mut members, "key", key)?;
    put_text(alloc, &mut members, "kind", "event_property_is")?;
    put_text(alloc, &mut members, "value", "m.replace")?;
    Ok(Json::Object(members))
}

#[tactic(auto, unfolding(crate::specs::Builtins::display_name))]
fn display_name(alloc: Global) -> Result<Json, Memory>
    ensures { IfOk result (λ j. j ≡ display_name) }
{
    let mut members = Members::new(alloc);
    put_text(alloc, &mut members, "kind", "contains_display_name")?;
    Ok(Json::Object(members))
}

#[tactic(auto, unfolding(crate::specs::Builtins::two_members))]
fn two_members(alloc: Global) -> Result<Json, Memory>
    ensures { IfOk result (λ j. j ≡ two_members) }
{
    let mut members = Members::new(alloc);
    put_text(alloc, &mut members, "is", "2")?;
    put_text(alloc, &mut members, "kind", "room_member_count")?;
    Ok(Json::Object(members))
}

#[tactic(auto, unfolding(crate::specs::Builtins::may_notify_room))]
fn may_notify_room(alloc: Global) -> Result<Json, Memory>
    ensures { IfOk result (λ j. j ≡ may_notify_room) }
{
    let kind = "sender_notification_permission";
    let mut members = Members::new(alloc);
    put_text(alloc, &mut members, "key", "room")?;
    put_text(alloc, &mut members, "kind", kind)?;
    Ok(Json::Object(members))
}

#[tactic(auto, unfolding(crate::specs::Builtins::notify))]
fn notify(alloc: Global) -> Result<Json, Memory>
    ensures { IfOk result (λ j. j ≡ notify) }
{
    text_value(alloc, "notify")
}

#[tactic(auto, unfolding(crate::specs::Builtins::sound))]
fn sound(alloc: Global, name: &str) -> Result<Json, Memory>
    ensures { IfOk result (λ j. j ≡ sound name.now) }
{
    let mut members = Members::new(alloc);
    put_text(alloc, &mut members, "set_tweak", "sound")?;
    put_text(alloc, &mut members, "value", name)?;
    Ok(Json::Object(members))
}

#[tactic(auto, unfolding(crate::specs::Builtins::highlight))]
fn highlight(alloc: Global) -> Result<Json, Memory>
    ensures { IfOk result (λ j. j ≡ highlight) }
{
    let mut members = Members::new(alloc);
    put_text(alloc, &mut members, "set_tweak", "highlight")?;
    Ok(Json::Object(members))
}

//! What redaction leaves of an event.
ghost use Rattle.std.specs.Prelude.{◌≡◌, ◌∷◌, ◌++◌, [], true, IfOk, OnOk, option_map, codes};
ghost use Rattle.std.specs.List.{filter_map};
ghost use Rattle.std.specs.Option.{option_to_list};
ghost use Rattle.mx_json.specs.Fields.{field};
ghost use Rattle.mx_json.specs.Keys.{are_ordered, keys_of};
ghost use Rattle.mx_json.specs.declared.value.Json.TheVariants as json;
ghost use Rattle.mx_event.specs.Forms.{member as keyed};
ghost use Rattle.mx_event.specs.Kinds.{member_type, join_rules_type, power_type};
ghost use Rattle.mx_event.specs.Redaction.{redacted, redacted_content, kept_member, is_kept, is_invite_of_third_party};

use crate::event::Event;
use crate::event_types::{CREATE, HISTORY_VISIBILITY, JOIN_RULES, MEMBER, POWER_LEVELS, REDACTION};
use mx_ids::{Copied, Memory, Text};
use mx_json::{Json, Member, Members};
use std::alloc::Global;

/// What redaction leaves of an event (Room Version 11, Redactions): of its content the keys that
/// its type keeps, and all else as it is. `Memory` where an allocation is refused.
pub fn redact(alloc: Global, event: &Event) -> Result<Event, Memory>
    ensures { IfOk result (λ e. e ≡ redacted event.now) }
{
    Ok(Event {
        id: event.id,
        room: event.room,
        kind: event.kind.copy(alloc)?,
        state_key: event.state_key.copy(alloc)?,
        sender: event.sender.copy(alloc)?,
        content: redacted_content(alloc, event.kind.as_str(), &event.content)?,
        ts: event.ts,
        txn: event.txn.copy(alloc)?,
        has_url: event.has_url,
    })
}

/// What is kept of the content of an event of the type.
fn redacted_content(alloc: Global, kind: &str, content: &Json) -> Result<Json, Memory>
    ensures { IfOk result (λ c. c ≡ redacted_content kind.now content.now) }
{
    if kind == CREATE {
        return content.copy(alloc);
    }
    match content.as_object() {
        Some(members) => Ok(Json::Object(kept_members(alloc, kind, members)?)),
        None => Ok(Json::Object(Members::new(alloc))),
    }
}

fn kept_members(alloc: Global, kind: &str, members: &Members<Json>) -> Result<Members<Json>, Memory>
    ensures { IfOk result (λ kept. kept ≡ filter_map (kept_member kind.now) members.now) }
{
    let mut kept = Members::new(alloc);
    for member in members.as_slice() {
        keep(alloc, kind, member, &mut kept)?;
    }
    Ok(kept)
}

/// Puts at the end what is kept of a member.
fn keep(
    alloc: Global,
    kind: &str,
    member: &Member<Json>,
    kept: &mut Members<Json>,
) -> Result<(), Memory>
    requires { are_ordered (keys_of kept.old ++ member.now.key ∷ []) ≡ true }
    ensures { OnOk result (kept.new ≡ kept.old ++ option_to_list (kept_member kind.now member.now)) }
{
    match kept_value(alloc, kind, member)? {
        Some(value) => kept.push(member.key.copy(alloc)?, value),
        None => Ok(()),
    }
}

/// What is kept of the value of a member, if the member is kept.
fn kept_value(alloc: Global, kind: &str, member: &Member<Json>) -> Result<Option<Json>, Memory>
    ensures { IfOk result (λ value. option_map (keyed member.now.key) value ≡ kept_member kind.now member.now) }
{
    let key = member.key.as_str();
    if is_invite_of_third_party(kind, key) {
        only_signed(alloc, &member.value)
    } else if is_kept(kind, key) {
        Ok(Some(member.value.copy(alloc)?))
    } else {
        Ok(None)
    }
}

fn is_invite_of_third_party(kind: &str, key: &str) -> bool
    ensures { result ≡ is_invite_of_third_party kind.now key.now }
{
    kind == MEMBER && key == "third_party_invite"
}

/// Whether a member of the content is kept whole.
fn is_kept(kind: &str, key: &str) -> bool
    ensures { result ≡ is_kept kind.now key.now }
{
    match kind {
        MEMBER => is_kept_of_member(key),
        JOIN_RULES => is_kept_of_join_rules(key),
        POWER_LEVELS => is_kept_of_power_levels(key),
        HISTORY_VISIBILITY => key == "history_visibility",
        REDACTION => key == "redacts",
        _ => false,
    }
}

fn is_kept_of_member(key: &str) -> bool
    ensures { result ≡ is_kept member_type key.now }
{
    matches!(key, "membership" | "join_authorised_via_users_server")
}

fn is_kept_of_join_rules(key: &str) -> bool
    ensures { result ≡ is_kept join_rules_type key.now }
{
    matches!(key, "join_rule" | "allow")
}

fn is_kept_of_power_levels(key: &str) -> bool
    ensures { result ≡ is_kept power_type key.now }
{
    matches!(
        key,
        "ban"
            | "events"
            | "events_default"
            | "invite"
            | "kick"
            | "redact"
            | "state_default"
            | "users"
            | "users_default"
    )
}

/// What redaction leaves of the invitation by a third party: its `signed`, if it has one.
fn only_signed(alloc: Global, invite: &Json) -> Result<Option<Json>, Memory>
    ensures { IfOk result (λ left. left ≡ option_map (λ signed. json.Object (keyed (codes "signed") signed ∷ [])) (field (codes "signed") invite.now)) }
{
    match invite.field("signed") {
        Some(signed) => {
            let mut left = Members::new(alloc);
            let key = Text::from_string(String::from_str(alloc, "signed")?);
            left.push(key, signed.copy(alloc)?)?;
            Ok(Some(Json::Object(left)))
        }
        None => Ok(None),
    }
}

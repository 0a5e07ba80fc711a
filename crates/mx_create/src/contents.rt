//! The contents of the events by which a room is created.
ghost use Rattle.std.specs.Prelude.{◌≡◌, [], ◌∷◌, IfOk, OnOk, codes, fold};
ghost use Rattle.std.specs.List.{filter_map};
ghost use Rattle.std.specs.Option.{option_to_list};
ghost use Rattle.mx_json.specs.Fields.{field, text_of};
ghost use Rattle.mx_json.specs.Keys.{with_member};
ghost use Rattle.mx_json.specs.declared.value.Json.TheVariants as json;
ghost use Rattle.mx_create.specs.Bodies.{invited};
ghost use Rattle.mx_create.specs.Contents.{create_content, default_powers, first_levels, invite_content, membership_content, power_content, single, with_all, with_user};

use crate::body::{is_set, listed, object_at};
use crate::preset::Preset;
use mx_ids::{Copied, Memory, Text, UserId};
use mx_json::{Json, Members};
use std::alloc::Global;

/// The room version (Rooms, Room Version 11).
pub(crate) const ROOM_VERSION: &str = "11";

/// `creation_content`, if it is an object, with the room's version.
#[tactic(auto, unfolding(crate::specs::Contents::create_content))]
pub(crate) fn create_content(alloc: Global, ask: &Json) -> Result<Json, Memory>
    ensures { IfOk result (λ j. j ≡ create_content ask.now) }
{
    let mut members = match object_at(ask, "creation_content") {
        Some(members) => members.copy(alloc)?,
        None => Members::new(alloc),
    };
    put(
        alloc,
        &mut members,
        "room_version",
        text_value(alloc, ROOM_VERSION)?,
    )?;
    Ok(Json::Object(members))
}

pub(crate) fn membership_content(alloc: Global, membership: &str) -> Result<Json, Memory>
    ensures { IfOk result (λ j. j ≡ membership_content membership.now) }
{
    text_content(alloc, "membership", membership)
}

/// An invitation, direct where the body says so.
#[tactic(auto, unfolding(crate::specs::Contents::invite_content))]
pub(crate) fn invite_content(alloc: Global, ask: &Json) -> Result<Json, Memory>
    ensures { IfOk result (λ j. j ≡ invite_content ask.now) }
{
    if !is_set(ask, "is_direct") {
        return membership_content(alloc, "invite");
    }
    let mut members = Members::new(alloc);
    put(alloc, &mut members, "is_direct", Json::Bool(true))?;
    put(
        alloc,
        &mut members,
        "membership",
        text_value(alloc, "invite")?,
    )?;
    Ok(Json::Object(members))
}

/// The power levels, with each key of `power_level_content_override` in place of its default.
#[tactic(auto, unfolding(crate::specs::Contents::power_content))]
pub(crate) fn power_content(
    alloc: Global,
    preset: Preset,
    creator: &UserId,
    ask: &Json,
) -> Result<Json, Memory>
    ensures { IfOk result (λ j. j ≡ power_content preset creator.now ask.now) }
{
    let mut levels = default_powers(alloc, preset, creator, ask)?;
    if let Some(others) = object_at(ask, "power_level_content_override") {
        set_all(alloc, &mut levels, others)?;
    }
    Ok(Json::Object(levels))
}

/// Sets the values of other members at their keys.
fn set_all(alloc: Global, members: &mut Members<Json>, others: &Members<Json>) -> Result<(), Memory>
    ensures { OnOk result (members.new ≡ with_all members.old others.now) }
{
    'others: for other in others.as_slice() {
        members.set(other.key.copy(alloc)?, other.value.copy(alloc)?)?;
    }
    Ok(())
}

/// The power levels of a new room (Client-Server API, `m.room.power_levels`).
fn default_powers(
    alloc: Global,
    preset: Preset,
    creator: &UserId,
    ask: &Json,
) -> Result<Members<Json>, Memory>
    ensures { IfOk result (λ ms. ms ≡ default_powers preset creator.now ask.now) }
{
    let mut levels = Members::new(alloc);
    put_defaults(alloc, &mut levels, preset, creator, ask)?;
    Ok(levels)
}

/// Sets the power levels of a new room at their keys.
fn put_defaults(
    alloc: Global,
    levels: &mut Members<Json>,
    preset: Preset,
    creator: &UserId,
    ask: &Json,
) -> Result<(), Memory>
    ensures { OnOk result (levels.old ≡ [] → levels.new ≡ default_powers preset creator.now ask.now) }
{
    put(alloc, levels, "ban", Json::Int(50))?;
    let events = Json::Object(Members::new(alloc));
    put(alloc, levels, "events", events)?;
    put(alloc, levels, "events_default", Json::Int(0))?;
    put(alloc, levels, "invite", Json::Int(0))?;
    put(alloc, levels, "kick", Json::Int(50))?;
    let notifications = single(alloc, "room", Json::Int(50))?;
    put(alloc, levels, "notifications", notifications)?;
    put(alloc, levels, "redact", Json::Int(50))?;
    put(alloc, levels, "state_default", Json::Int(50))?;
    let users = Json::Object(first_levels(alloc, preset, creator, ask)?);
    put(alloc, levels, "users", users)?;
    put(alloc, levels, "users_default", Json::Int(0))
}

/// The users with a level of their own: the creator, and in a trusted room those who are invited.
fn first_levels(
    alloc: Global,
    preset: Preset,
    creator: &UserId,
    ask: &Json,
) -> Result<Members<Json>, Memory>
    ensures { IfOk result (λ ms. ms ≡ first_levels preset creator.now ask.now) }
{
    let mut levels = Members::new(alloc);
    put(alloc, &mut levels, creator.as_str(), Json::Int(100))?;
    if preset.trusts_invited() {
        trust_invited(alloc, &mut levels, ask)?;
    }
    Ok(levels)
}

/// Gives those who are invited the creator's level.
fn trust_invited(alloc: Global, levels: &mut Members<Json>, ask: &Json) -> Result<(), Memory>
    ensures { OnOk result (levels.new ≡ fold with_user levels.old (invited ask.now)) }
{
    'users: for user in listed(ask, "invite") {
        trust(alloc, levels, user)?;
    }
    Ok(())
}

fn trust(alloc: Global, levels: &mut Members<Json>, user: &Json) -> Result<(), Memory>
    ensures { OnOk result (levels.new ≡ fold with_user levels.old (option_to_list (text_of user.now))) }
{
    match user.as_text() {
        Some(user) => put(alloc, levels, user.as_str(), Json::Int(100)),
        None => Ok(()),
    }
}

/// An object with one key.
fn single(alloc: Global, key: &str, value: Json) -> Result<Json, Memory>
    ensures { IfOk result (λ j. j ≡ single key.now value) }
{
    let mut members = Members::new(alloc);
    put(alloc, &mut members, key, value)?;
    Ok(Json::Object(members))
}

fn put(alloc: Global, members: &mut Members<Json>, key: &str, value: Json) -> Result<(), Memory>
    ensures { OnOk result (members.new ≡ with_member key.now value members.old) }
{
    members.set(text(alloc, key)?, value)
}

/// An object with a text at its one key.
pub(crate) fn text_content(alloc: Global, key: &str, value: &str) -> Result<Json, Memory>
    ensures { IfOk result (λ j. j ≡ single key.now (json.Text value.now)) }
{
    single(alloc, key, text_value(alloc, value)?)
}

fn text_value(alloc: Global, value: &str) -> Result<Json, Memory>
    ensures { IfOk result (λ j. j ≡ json.Text value.now) }
{
    Ok(Json::Text(text(alloc, value)?))
}

pub(crate) fn text(alloc: Global, value: &str) -> Result<Text, Memory>
    ensures { IfOk result (λ t. t ≡ value.now) }
{
    Ok(Text::from_string(String::from_str(alloc, value)?))
}

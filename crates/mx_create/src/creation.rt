//! The block of events that creates a room.
ghost use Rattle.std.specs.Prelude.{◌≡◌, ◌⊎◌, ◌++◌, true, ◌≤◌, IfOk, IfErr, OnOk, Ok, Err, [], ◌∷◌, map, length, codes, count_by};
ghost use Rattle.std.specs.Option.{option_to_list};
ghost use Rattle.mx_json.specs.Fields.{field, text_at, text_of};
ghost use Rattle.mx_create.specs.Admitted.{IsBlock, is_block};
ghost use Rattle.mx_create.specs.Blocks.{Creating, block_of, creating, draft, drafts_of, first_drafts, initial, invitation, is_eleven, named, rules};
ghost use Rattle.mx_create.specs.Bodies.{invited, is_create_body, is_text_value, listed};
ghost use Rattle.mx_create.specs.Contents.{single};
ghost use Rattle.mx_json.specs.declared.value.Json.TheVariants as json;
ghost use Rattle.mx_ids.specs.Memory.{refused_memory};
ghost use Rattle.mx_create.specs.declared.fault.CreateFault.TheVariants as faults;
ghost use Rattle.mx_create.specs.declared.preset.Preset.{Preset};

use crate::body::{listed, text_or_empty};
use crate::contents::{
    ROOM_VERSION, create_content, invite_content, membership_content, power_content, text,
    text_content,
};
use crate::fault::CreateFault;
use crate::invited::are_known;
use crate::preset::Preset;
use mx_event::Draft;
use mx_event::event_types::{
    CREATE, GUEST_ACCESS, HISTORY_VISIBILITY, JOIN_RULES, MEMBER, NAME, POWER_LEVELS, TOPIC,
};
use mx_ids::{Copied, Memory, RoomId, Seq, UserId, Users};
use mx_json::Json;
use std::alloc::Global;

/// The most events that a block has.
const MOST_EVENTS: usize = 512;

/// Who creates a room, and when, in milliseconds since 1970.
#[derive(Clone, Copy)]
struct Creator<'a> {
    id: &'a UserId,
    ts: u64,
}

/// The events by which a room is created (Client-Server API, `POST /createRoom`), in the order in
/// which they stand in the room: create, the creator's join, power levels, join rules, history
/// visibility, guest access, `initial_state`, name, topic, and an invitation for each entry of
/// `invite`. `ts` is the time of each, in milliseconds since 1970.
///
/// The first fault that holds is given: `Version` where `room_version` is there and isn't `"11"`;
/// `Preset` where `preset` is there and names none; `NoUser` where `invite` or a member event of
/// `initial_state` invites one who isn't among the users; `TooMany` where there are more than 512
/// events. `Memory` is want of memory, and may come in place of any answer.
///
/// The events are 1 to 512 state events of a room without a writer and a position yet, as `admit_block` wants them.
pub fn block(
    alloc: Global,
    ask: &Json,
    creator: &UserId,
    ts: u64,
    users: &Users,
) -> Result<Seq<Draft>, CreateFault>
    requires body { is_create_body ask.now ≡ true }
    ensures found { IfOk result (λ drafts. block_of (record { creator = creator.now; ts = ts }) users.now ask.now ≡ Ok drafts) }
    ensures block { IfOk result IsBlock }
    ensures test { IfOk result (λ drafts. is_block drafts ≡ true) }
    ensures refused { IfErr result (λ f. (f ≡ faults.Memory refused_memory) ⊎ (block_of (record { creator = creator.now; ts = ts }) users.now ask.now ≡ Err f)) }
{
    if !is_eleven(ask) {
        return Err(CreateFault::Version);
    }
    let Some(preset) = Preset::asked(ask) else {
        return Err(CreateFault::Preset);
    };
    if !are_known(alloc, users, ask)? {
        return Err(CreateFault::NoUser);
    }
    if event_count(ask) > MOST_EVENTS {
        return Err(CreateFault::TooMany);
    }
    let by = Creator { id: creator, ts };
    Ok(drafts(alloc, preset, ask, &by)?)
}

/// Whether the room version is 11, if it is there.
fn is_eleven(ask: &Json) -> bool
    ensures { result ≡ is_eleven (field (codes "room_version") ask.now) }
{
    match ask.field("room_version") {
        Some(version) => version
            .as_text()
            .is_some_and(|version| version.as_str() == ROOM_VERSION),
        None => true,
    }
}

/// How many events the block has.
fn event_count(ask: &Json) -> usize
    ensures { (by : Creating) (preset : Preset) → result ≡ length (drafts_of by preset ask.now) }
{
    let named = text_count(ask, "name") + text_count(ask, "topic");
    6 + listed(ask, "initial_state").len() + named + invited_count(listed(ask, "invite"))
}

/// 1 where a text stands at the key, else 0.
fn text_count(ask: &Json, key: &str) -> usize
    ensures { result ≡ length (option_to_list (text_at key.now ask.now)) }
{
    match ask.text_at(key) {
        Some(_) => 1,
        None => 0,
    }
}

/// How many of the values are texts.
fn invited_count(users: &[Json]) -> usize
    ensures count { result ≡ count_by is_text_value users.now }
    ensures most { result ≤ length users.now }
{
    users.iter().filter(|user| user.as_text().is_some()).count()
}

/// The events in their order.
fn drafts(alloc: Global, preset: Preset, ask: &Json, by: &Creator) -> Result<Seq<Draft>, Memory>
    ensures { IfOk result (λ all. all ≡ drafts_of (creating by.now) preset ask.now) }
{
    let mut all = first_drafts(alloc, preset, ask, by)?;
    push_initial(alloc, &mut all, ask, by)?;
    push_named(alloc, &mut all, NAME, "name", ask, by)?;
    push_named(alloc, &mut all, TOPIC, "topic", ask, by)?;
    push_invitations(alloc, &mut all, ask, by)?;
    Ok(Seq::from_vec(all))
}

/// The events with which each room begins, in a list that holds all that are asked for without growing.
fn first_drafts(
    alloc: Global,
    preset: Preset,
    ask: &Json,
    by: &Creator,
) -> Result<Vec<Draft>, Memory>
    ensures { IfOk result (λ all. all.items ≡ first_drafts (creating by.now) preset ask.now) }
{
    let mut all = Vec::with_capacity(alloc, event_count(ask))?;
    let created = create_content(alloc, ask)?;
    push(alloc, &mut all, by, CREATE, "", created)?;
    let joined = membership_content(alloc, "join")?;
    push(alloc, &mut all, by, MEMBER, by.id.as_str(), joined)?;
    let powers = power_content(alloc, preset, by.id, ask)?;
    push(alloc, &mut all, by, POWER_LEVELS, "", powers)?;
    push_rules(alloc, &mut all, preset, by)?;
    Ok(all)
}

/// Puts the events at the end that the preset alone gives.
fn push_rules(
    alloc: Global,
    all: &mut Vec<Draft>,
    preset: Preset,
    by: &Creator,
) -> Result<(), Memory>
    ensures { OnOk result (all.new.items ≡ all.old.items ++ rules (creating by.now) preset) }
{
    let rule = preset.join_rule();
    push_text(alloc, all, by, JOIN_RULES, "join_rule", rule)?;
    let shown = preset.history_visibility();
    push_text(
        alloc,
        all,
        by,
        HISTORY_VISIBILITY,
        "history_visibility",
        shown,
    )?;
    let access = preset.guest_access();
    push_text(alloc, all, by, GUEST_ACCESS, "guest_access", access)?;
    Ok(())
}

/// Puts the entries of `initial_state` at the end.
fn push_initial(alloc: Global, all: &mut Vec<Draft>, ask: &Json, by: &Creator) -> Result<(), Memory>
    ensures { OnOk result (all.new.items ≡ all.old.items ++ map (initial (creating by.now)) (listed (codes "initial_state") ask.now)) }
{
    'entries: for entry in listed(ask, "initial_state") {
        all.push(initial(alloc, entry, by)?)?;
    }
    Ok(())
}

/// The event that an entry of `initial_state` asks for.
fn initial(alloc: Global, entry: &Json, by: &Creator) -> Result<Draft, Memory>
    ensures { IfOk result (λ d. d ≡ initial (creating by.now) entry.now) }
{
    let content = match entry.field("content") {
        Some(content) => content.copy(alloc)?,
        None => Json::Null,
    };
    let kind = text_or_empty(entry, "type");
    let key = text_or_empty(entry, "state_key");
    draft(alloc, by, kind, key, content)
}

/// Puts the event of a type at the end that a text at a key of the body asks for.
fn push_named(
    alloc: Global,
    all: &mut Vec<Draft>,
    kind: &str,
    key: &str,
    ask: &Json,
    by: &Creator,
) -> Result<(), Memory>
    ensures { OnOk result (all.new.items ≡ all.old.items ++ named (creating by.now) kind.now key.now ask.now) }
{
    match ask.text_at(key) {
        Some(text) => push_text(alloc, all, by, kind, key, text.as_str()),
        None => Ok(()),
    }
}

/// Puts the invitations at the end.
fn push_invitations(
    alloc: Global,
    all: &mut Vec<Draft>,
    ask: &Json,
    by: &Creator,
) -> Result<(), Memory>
    ensures { OnOk result (all.new.items ≡ all.old.items ++ map (invitation (creating by.now) ask.now) (invited ask.now)) }
{
    'users: for user in listed(ask, "invite") {
        push_invitation(alloc, all, user, ask, by)?;
    }
    Ok(())
}

/// Puts the invitation of a user at the end, if a text names it.
fn push_invitation(
    alloc: Global,
    all: &mut Vec<Draft>,
    user: &Json,
    ask: &Json,
    by: &Creator,
) -> Result<(), Memory>
    ensures { OnOk result (all.new.items ≡ all.old.items ++ map (invitation (creating by.now) ask.now) (option_to_list (text_of user.now))) }
{
    if let Some(user) = user.as_text() {
        let content = invite_content(alloc, ask)?;
        push(alloc, all, by, MEMBER, user.as_str(), content)?;
    }
    Ok(())
}

/// Puts a state event with an empty state key at the end whose content has a text at its one key.
fn push_text(
    alloc: Global,
    all: &mut Vec<Draft>,
    by: &Creator,
    kind: &str,
    key: &str,
    value: &str,
) -> Result<(), Memory>
    ensures { OnOk result (all.new.items ≡ all.old.items ++ draft (creating by.now) kind.now [] (single key.now (json.Text value.now)) ∷ []) }
{
    let content = text_content(alloc, key, value)?;
    push(alloc, all, by, kind, "", content)
}

/// Puts a state event at the end.
fn push(
    alloc: Global,
    all: &mut Vec<Draft>,
    by: &Creator,
    kind: &str,
    key: &str,
    content: Json,
) -> Result<(), Memory>
    ensures { OnOk result (all.new.items ≡ all.old.items ++ draft (creating by.now) kind.now key.now content ∷ []) }
{
    all.push(draft(alloc, by, kind, key, content)?)?;
    Ok(())
}

/// A state event of the creator, whose room has no position yet.
fn draft(alloc: Global, by: &Creator, kind: &str, key: &str, content: Json) -> Result<Draft, Memory>
    ensures { IfOk result (λ d. d ≡ draft (creating by.now) kind.now key.now content) }
{
    Ok(Draft {
        room: RoomId { writer: 0, at: 0 },
        kind: text(alloc, kind)?,
        state_key: Some(text(alloc, key)?),
        sender: by.id.copy(alloc)?,
        content,
        ts: by.ts,
        txn: None,
    })
}

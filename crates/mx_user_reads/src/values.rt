//! A user's account data, and the tags of a room.

ghost use Rattle.std.specs.Prelude.{◌≡◌, IfOk, None, Some, codes};
ghost use Rattle.std.specs.Option.{option_copied};
ghost use Rattle.mx_account.specs.Entries.{content_of};
ghost use Rattle.mx_room_reads.specs.Rest.Servers.{lists_of};
ghost use Rattle.mx_rules.specs.Defaults.{default_rules};
ghost use Rattle.mx_rules.specs.Writing as rules;
ghost use Rattle.mx_user_reads.specs.Values.{account_value, default_value, has_default, is_there, room_tags, stored_value, tags_json};
ghost use Rattle.mx_user_reads.specs.Told.{told};

use mx_account::{Entry, tags_of};
use mx_ask::{Refusal, Said};
use mx_ids::{Copied, Memory, RoomId, Text, UserId};
use mx_json::{Json, Members};
use mx_room_reads::has_room;
use mx_rules::{defaults, single};
use mx_snapshot::Snapshot;
use std::alloc::Global;

/// The type of account data under which a user's push rules are stored (Client-Server API, Push rules).
pub(crate) const PUSH_RULES: &str = "m.push_rules";

/// The type of account data under which the tags of a room are stored (Client-Server API, Room Tagging).
const TAGS: &str = "m.tag";

/// The content that a user last stored under a type, of a room or global (Client-Server API, Client Config,
/// `GET /user/{userId}/account_data/{type}` and `GET /user/{userId}/rooms/{roomId}/account_data/{type}`). The global data of
/// type `m.push_rules` are the default push rules where none are stored.
///
/// `NotFound` exactly where the room isn't there, or nothing is stored. Takes the time of some look-ups.
#[tactic(auto, unfolding(crate::specs::Values::account_value))]
pub fn account_value(
    alloc: Global,
    snapshot: &Snapshot,
    user: &UserId,
    room: Option<RoomId>,
    kind: &Text,
) -> Result<Said, Memory>
    ensures { IfOk result (λ s. s ≡ account_value (lists_of snapshot.now) user.now room kind.now) }
{
    if !is_there(snapshot, room) {
        return Ok(Said::Refused(Refusal::NotFound));
    }
    match stored_value(snapshot, user, room, kind.as_str()) {
        Some(content) => Ok(Said::Content(content.copy(alloc)?)),
        None => told_default(alloc, user, room, kind.as_str()),
    }
}

/// The tags of a room, in an object with the one key `tags` (Client-Server API, Room Tagging,
/// `GET /user/{userId}/rooms/{roomId}/tags`), which is empty where the user set none.
///
/// `NotFound` exactly where the room isn't there. Takes the time of some look-ups.
#[tactic(auto, unfolding(crate::specs::Values::room_tags))]
pub fn room_tags(
    alloc: Global,
    snapshot: &Snapshot,
    user: &UserId,
    room: &RoomId,
) -> Result<Said, Memory>
    ensures { IfOk result (λ s. s ≡ room_tags (lists_of snapshot.now) user.now room.now) }
{
    if !has_room(snapshot, room) {
        return Ok(Said::Refused(Refusal::NotFound));
    }
    let content = stored_value(snapshot, user, Some(*room), TAGS);
    Ok(Said::Content(tags_json(alloc, content)?))
}

/// Whether the room is there, where one is named.
fn is_there(snapshot: &Snapshot, room: Option<RoomId>) -> bool
    ensures { result ≡ is_there (lists_of snapshot.now) room }
{
    match room {
        Some(room) => has_room(snapshot, &room),
        None => true,
    }
}

/// The content that a user last stored under a type.
pub(crate) fn stored_value<'a>(
    snapshot: &'a Snapshot,
    user: &UserId,
    room: Option<RoomId>,
    kind: &str,
) -> Option<&'a Json>
    ensures { option_copied result ≡ stored_value (lists_of snapshot.now) user.now room kind.now }
{
    let accounts = &snapshot.accounts;
    let front = accounts.front();
    Some(content(accounts.last_of(user.as_str(), room.as_ref(), kind, front)?))
}

fn content(entry: &Entry) -> &Json
    ensures { result.now ≡ content_of entry.now }
{
    match entry {
        Entry::Data { content, .. } => content,
        Entry::Filter { filter, .. } => filter,
    }
}

/// What a user has where nothing is stored.
fn told_default(
    alloc: Global,
    user: &UserId,
    room: Option<RoomId>,
    kind: &str,
) -> Result<Said, Memory>
    ensures { IfOk result (λ s. s ≡ told (default_value user.now room kind.now)) }
{
    if has_default(room, kind) {
        Ok(Said::Content(default_content(alloc, user)?))
    } else {
        Ok(Said::Refused(Refusal::NotFound))
    }
}

/// Whether data are there where nothing is stored: the push rules.
fn has_default(room: Option<RoomId>, kind: &str) -> bool
    ensures { result ≡ has_default room kind.now }
{
    match room {
        Some(_) => false,
        None => kind == PUSH_RULES,
    }
}

fn default_content(alloc: Global, user: &UserId) -> Result<Json, Memory>
    ensures { IfOk result (λ j. j ≡ rules.content_of (default_rules user.now)) }
{
    let rules = defaults(alloc, user)?;
    let content = rules.to_json(alloc);
    drop(rules);
    content
}

/// The tags of a content of `m.tag` in an object of their own.
fn tags_json(alloc: Global, content: Option<&Json>) -> Result<Json, Memory>
    ensures { IfOk result (λ j. j ≡ tags_json (option_copied content.entry)) }
{
    let tags = match tags_of(content) {
        Some(tags) => tags.copy(alloc)?,
        None => Members::new(alloc),
    };
    single(alloc, "tags", Json::Object(tags))
}

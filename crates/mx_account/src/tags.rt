//! The tags of a room, in the content of the room's account data of type `m.tag`.

ghost use Rattle.std.specs.Prelude.{◌≡◌, [], true, IfOk, option_and_then, unwrap_or};
ghost use Rattle.std.specs.Option.{option_copied};
ghost use Rattle.mx_json.specs.Keys.{are_ordered, keys_of, with_member};
ghost use Rattle.mx_account.specs.Tags.{object_of, tags_at, with_tag, with_tags, without_member, without_tag};

use mx_ids::{Copied, Memory, Text};
use mx_json::{Json, Members};
use std::alloc::Global;

/// The tags of a content of `m.tag` (Client-Server API, Room Tagging): the object at its key `tags`. `None` exactly where
/// there is no content, or no object stands there: there are no tags then. Takes no memory.
pub fn tags_of(content: Option<&Json>) -> Option<&Members<Json>>
    ensures { option_copied result ≡ tags_at (option_copied content.entry) }
{
    content?.field("tags")?.as_object()
}

/// The content of `m.tag` with a tag set to `body` among its tags (Client-Server API, Room Tagging). What else the content
/// has stays; where there is no content, or it is no object, it counts as `{}`. Each value that stays is copied once.
pub fn with_tag(alloc: Global, old: Option<&Json>, tag: &Text, body: Json) -> Result<Json, Memory>
    ensures { IfOk result (λ j. j ≡ with_tag tag.now body (option_copied old.entry)) }
{
    let tags = with_member(alloc, tags_of(old), tag.copy(alloc)?, body)?;
    with_tags(alloc, old, tags)
}

/// The content of `m.tag` with a tag taken out of its tags (Client-Server API, Room Tagging), which are there, if empty,
/// also where the content had none. What else the content has stays; where there is no content, or it is no object, it
/// counts as `{}`. Each value that stays is copied once.
pub fn without_tag(alloc: Global, old: Option<&Json>, tag: &Text) -> Result<Json, Memory>
    ensures { IfOk result (λ j. j ≡ without_tag tag.now (option_copied old.entry)) }
{
    let tags = others(alloc, tags_of(old), tag.as_str())?;
    with_tags(alloc, old, tags)
}

/// A content with these tags in place of its own.
fn with_tags(alloc: Global, old: Option<&Json>, tags: Members<Json>) -> Result<Json, Memory>
    ensures { IfOk result (λ j. j ≡ with_tags tags (option_copied old.entry)) }
{
    let key = Text::from_string(String::from_str(alloc, "tags")?);
    let content = with_member(alloc, object(old), key, Json::Object(tags))?;
    Ok(Json::Object(content))
}

/// Copies of the members, with a value set at a key; none but it where there are no members.
fn with_member(
    alloc: Global,
    members: Option<&Members<Json>>,
    key: Text,
    value: Json,
) -> Result<Members<Json>, Memory>
    ensures { IfOk result (λ made. made ≡ with_member key value (unwrap_or (option_copied members.entry) [])) }
{
    let mut made = others(alloc, members, key.as_str())?;
    made.set(key, value)?;
    Ok(made)
}

/// Copies of the members whose keys are others than this; none where there are no members.
fn others(
    alloc: Global,
    members: Option<&Members<Json>>,
    key: &str,
) -> Result<Members<Json>, Memory>
    ensures made { IfOk result (λ made. made ≡ without_member key.now (unwrap_or (option_copied members.entry) [])) }
    ensures ordered { IfOk result (λ made. are_ordered (keys_of (unwrap_or (option_copied members.entry) [])) ≡ true) }
{
    let mut made = Members::new(alloc);
    let Some(members) = members else {
        return Ok(made);
    };
    'members: for member in members.as_slice() {
        if member.key.as_str() != key {
            made.push(member.key.copy(alloc)?, member.value.copy(alloc)?)?;
        }
    }
    Ok(made)
}

/// The members of a value that is an object.
fn object(value: Option<&Json>) -> Option<&Members<Json>>
    ensures { option_copied result ≡ option_and_then object_of (option_copied value.entry) }
{
    value?.as_object()
}

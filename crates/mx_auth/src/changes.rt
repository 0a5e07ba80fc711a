//! Power levels that an event sets (Client-Server API, m.room.power_levels): their form, and what a sender may change.
ghost use Rattle.std.specs.Prelude.{◌≡◌, option_map, true};
ghost use Rattle.std.specs.List.{list_all, list_any};
ghost use Rattle.mx_ids.specs.User.{is_user_id_text};
ghost use Rattle.mx_json.specs.Fields.{field, int_at};
ghost use Rattle.mx_json.specs.Keys.{are_ordered, keys_of};
ghost use Rattle.mx_event.specs.Changes.{any_entry, differ, is_above, is_at_least, is_int, is_none_or, is_well_formed, maps_to_ints, maps_users_to_ints, exceeds_level, exceeds_own_level, exceeds_user_level};
ghost use Rattle.mx_auth.specs.Entries.{any_new, any_old, exceeds, int_in, map_key, members_in};

use mx_ids::{UserId, is_user_id};
use mx_json::{Json, Member};

/// The keys of power levels at which one level stands.
const SCALARS: [&str; 7] = [
    "users_default",
    "events_default",
    "state_default",
    "ban",
    "kick",
    "redact",
    "invite",
];

/// Whether power levels are of their form: each level that is there is a whole number, and each map of levels that is there
/// maps to whole numbers, `users` from user ids.
pub(crate) fn is_well_formed(content: &Json) -> bool
    ensures { result ≡ is_well_formed content.now }
{
    are_absent_or_ints(SCALARS.as_slice(), content)
        && is_absent_or_int_map(content.field("events"))
        && is_absent_or_int_map(content.field("notifications"))
        && is_absent_or_user_map(content.field("users"))
}

/// Whether what stands at these keys, where something does, is a whole number.
fn are_absent_or_ints(keys: &[&str], content: &Json) -> bool
    ensures { result ≡ list_all (λ key. is_none_or is_int (field key.now content.now)) keys.now }
{
    keys.iter().all(|key| is_absent_or_int(content.field(*key)))
}

fn is_absent_or_int(value: Option<&Json>) -> bool
    ensures { result ≡ is_none_or is_int (option_map (λ j. j.now) value.entry) }
{
    match value {
        Some(value) => value.as_int().is_some(),
        None => true,
    }
}

fn is_absent_or_int_map(value: Option<&Json>) -> bool
    ensures { result ≡ is_none_or maps_to_ints (option_map (λ j. j.now) value.entry) }
{
    match value {
        Some(value) => maps_to_ints(value),
        None => true,
    }
}

#[tactic(auto, using(crate::proofs::Entries::user_keys))]
fn is_absent_or_user_map(value: Option<&Json>) -> bool
    ensures { result ≡ is_none_or maps_users_to_ints (option_map (λ j. j.now) value.entry) }
{
    match value {
        Some(value) => maps_to_ints(value) && all_user_ids(members_in(Some(value))),
        None => true,
    }
}

/// Whether a value is an object of whole numbers.
fn maps_to_ints(value: &Json) -> bool
    ensures { result ≡ maps_to_ints value.now }
{
    match value.as_object() {
        Some(members) => all_ints(members.as_slice()),
        None => false,
    }
}

fn all_ints(members: &[Member<Json>]) -> bool
    ensures { result ≡ list_all (λ m. is_int m.value) members.now }
{
    members.iter().all(|member| member.value.as_int().is_some())
}

fn all_user_ids(members: &[Member<Json>]) -> bool
    ensures { result ≡ list_all (λ m. is_user_id_text m.key) members.now }
{
    members.iter().all(|member| is_user_id(member.key.as_str()))
}

/// The members of a map of levels, in the byte order of their keys. A map that isn't there, or is no object, has none.
fn members_in(map: Option<&Json>) -> &[Member<Json>]
    ensures value { result.now ≡ members_in (option_map (λ j. j.now) map.entry) }
    ensures ordered { are_ordered (keys_of result.now) ≡ true }
{
    let Some(map) = map else {
        return &[];
    };
    match map.as_object() {
        Some(members) => members.as_slice(),
        None => &[],
    }
}

/// The entry of a map of levels.
fn int_in(map: Option<&Json>, key: &str) -> Option<i64>
    ensures { result ≡ int_in key.now (option_map (λ j. j.now) map.entry) }
{
    map?.int_at(key)
}

fn differ(old: Option<i64>, new: Option<i64>) -> bool
    ensures { result ≡ differ old new }
{
    old != new
}

fn is_above(level: i64, value: Option<i64>) -> bool
    ensures { result ≡ is_above level value }
{
    match value {
        Some(value) => value > level,
        None => false,
    }
}

fn is_at_least(level: i64, value: Option<i64>) -> bool
    ensures { result ≡ is_at_least level value }
{
    match value {
        Some(value) => value >= level,
        None => false,
    }
}

/// Whether a change of a level is one from or to a level above the sender's.
fn exceeds_level(level: i64, old: Option<i64>, new: Option<i64>) -> bool
    ensures { result ≡ exceeds_level level old new }
{
    differ(old, new) && (is_above(level, old) || is_above(level, new))
}

/// Whether a change of a user's level is one to a level above the sender's, or of another user from one that isn't below it.
fn exceeds_user_level(level: i64, is_own: bool, old: Option<i64>, new: Option<i64>) -> bool
    ensures { result ≡ exceeds_user_level level is_own old new }
{
    differ(old, new) && ((!is_own && is_at_least(level, old)) || is_above(level, new))
}

/// A map of levels.
#[derive(Clone, Copy)]
enum LevelMap {
    Events,
    Notifications,
    Users,
}

impl LevelMap {
    /// The key of power levels at which the map stands.
    fn key(self) -> &'static str
        ensures { result.now ≡ map_key self }
    {
        match self {
            LevelMap::Events => "events",
            LevelMap::Notifications => "notifications",
            LevelMap::Users => "users",
        }
    }
}

/// Who sends power levels.
#[derive(Clone, Copy)]
pub(crate) struct Sender<'a> {
    pub(crate) id: &'a UserId,
    pub(crate) level: i64,
}

/// Whether a change of an entry of a map of levels exceeds the sender's level.
fn exceeds(map: LevelMap, sender: &Sender, key: &str, old: Option<i64>, new: Option<i64>) -> bool
    ensures { result ≡ exceeds map sender.now.level sender.now.id.now key.now old new }
{
    match map {
        LevelMap::Events | LevelMap::Notifications => exceeds_level(sender.level, old, new),
        LevelMap::Users => exceeds_user_level(sender.level, key == sender.id.as_str(), old, new),
    }
}

/// Whether a level at one of these keys is changed beyond the sender's level.
fn any_level(keys: &[&str], sender: &Sender, old: &Json, new: &Json) -> bool
    ensures { result ≡ list_any (λ key. exceeds_level sender.now.level (int_at key.now old.now) (int_at key.now new.now)) keys.now }
{
    keys.iter().any(|key| exceeds_level(sender.level, old.int_at(*key), new.int_at(*key)))
}

/// Whether an entry of the standing map is changed or removed beyond the sender's level.
fn any_old_entry(
    map: LevelMap,
    sender: &Sender,
    entries: &[Member<Json>],
    new: Option<&Json>,
) -> bool
    ensures { result ≡ any_old (exceeds map sender.now.level sender.now.id.now) (option_map (λ j. j.now) new.entry) entries.now }
{
    entries.iter().any(|entry| {
        let key = entry.key.as_str();
        exceeds(map, sender, key, entry.value.as_int(), int_in(new, key))
    })
}

/// Whether an entry of the new map is changed or added beyond the sender's level.
fn any_new_entry(
    map: LevelMap,
    sender: &Sender,
    old: Option<&Json>,
    entries: &[Member<Json>],
) -> bool
    ensures { result ≡ any_new (exceeds map sender.now.level sender.now.id.now) (option_map (λ j. j.now) old.entry) entries.now }
{
    entries.iter().any(|entry| {
        let key = entry.key.as_str();
        exceeds(map, sender, key, int_in(old, key), entry.value.as_int())
    })
}

/// Whether some entry of a map of levels is changed beyond the sender's level.
fn any_entry(map: LevelMap, sender: &Sender, old: &Json, new: &Json) -> bool
    ensures { result ≡ any_entry (map_key map) (exceeds map sender.now.level sender.now.id.now) old.now new.now }
{
    let old = old.field(map.key());
    let new = new.field(map.key());
    any_old_entry(map, sender, members_in(old), new)
        || any_new_entry(map, sender, old, members_in(new))
}

/// Whether power levels change the standing ones beyond the sender's level: a level from or to one above the sender's, or
/// the level of another user that isn't below the sender's.
pub(crate) fn exceeds_own_level(sender: &Sender, old: &Json, new: &Json) -> bool
    ensures { result ≡ exceeds_own_level sender.now.id.now sender.now.level old.now new.now }
{
    any_level(SCALARS.as_slice(), sender, old, new)
        || any_entry(LevelMap::Events, sender, old, new)
        || any_entry(LevelMap::Notifications, sender, old, new)
        || any_entry(LevelMap::Users, sender, old, new)
}

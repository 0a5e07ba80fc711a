//! What stands in a value at keys, one below the other.
ghost use Rattle.std.specs.Prelude.{◌≡◌, option_map};
ghost use Rattle.std.specs.Str.{chars, encode_utf8_all};
ghost use Rattle.mx_json.specs.Fields.{field};
ghost use Rattle.mx_json.specs.Keys.{value_at};
ghost use Rattle.mx_json.specs.Lookups.{first_part, lookup, marks, path_parts};

use crate::members::Member;
use crate::paths::{behind_dot, names};
use crate::value::Json;
use mx_ids::{Seq, Text};

impl Json {
    /// What stands at keys, one below the other; `None` exactly where one isn't a key of an object. Takes no memory.
    pub fn lookup(&self, path: &Seq<Text>) -> Option<&Json>
        ensures { option_map (λ v. v.now) result ≡ lookup path.now self.now }
    {
        let mut value = self;
        'keys: for key in path.as_slice() {
            match value.field(key.as_str()) {
                Some(found) => value = found,
                None => return None,
            }
        }
        Some(value)
    }

    /// What stands at the parts of a dotted path (see `read_path`), which isn't read apart: takes no memory. The time is
    /// linear in the members that are passed, with a look at each one's key.
    #[tactic(auto, unfolding(crate::specs::Lookups::path_parts))]
    pub fn at_path(&self, path: &str) -> Option<&Json>
        ensures { option_map (λ v. v.now) result ≡ lookup (path_parts path.now) self.now }
    {
        let mut value = self;
        let mut rest = path;
        'parts: loop {
            match member_named(value, rest) {
                Some(found) => value = found,
                None => return None,
            }
            match behind_dot(rest) {
                Some(behind) => rest = behind,
                None => return Some(value),
            }
        }
    }
}

/// The value of the member whose key is the first part of a path.
fn member_named<'a>(value: &'a Json, path: &str) -> Option<&'a Json>
    ensures { option_map (λ v. v.now) result ≡ field (encode_utf8_all (first_part (marks (chars path.now)))) value.now }
{
    match value {
        Json::Object(members) => find_named(members.as_slice(), path),
        _ => None,
    }
}

fn find_named<'a>(members: &'a [Member<Json>], path: &str) -> Option<&'a Json>
    ensures { option_map (λ v. v.now) result ≡ value_at (encode_utf8_all (first_part (marks (chars path.now)))) members.now }
{
    'members: for member in members {
        if names(path, member.key.as_str()) {
            return Some(&member.value);
        }
    }
    None
}

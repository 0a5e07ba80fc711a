//! Dotted paths of keys, as conditions of push rules have them.
ghost use Rattle.std.specs.Prelude.{◌≡◌, ◌++◌, ◌∷◌, ◌<◌, [], length, ◌≤◌, IfOk, OnOk, IfSome, MatchOption, option_map};
ghost use Rattle.std.specs.Str.{bytes_eq, chars, encode_utf8_all};
ghost use Rattle.std.specs.Prelude.{encode_utf8};
ghost use Rattle.mx_json.specs.Lookups.{Takes, behind_dot, behind_slash, first_part, is_named, marks, path_parts};

use mx_ids::{Memory, Seq, Text, split_first};
use std::alloc::Global;
use std::mem;

/// What stands next in a dotted path.
#[derive(Clone, Copy, Debug, PartialEq, Eq)]
pub(crate) enum Mark {
    /// The end of a part.
    Dot,
    /// A character of a part.
    Of(char),
}

/// The parts of a dotted path (Client-Server API, Push rules): what stands between dots. `\.` is a dot and `\\` a backslash
/// within a part; another backslash stands for itself. `Memory` where an allocation is refused.
#[tactic(auto, unfolding(crate::specs::Lookups::path_parts))]
pub fn read_path(alloc: Global, path: &str) -> Result<Seq<Text>, Memory>
    ensures { IfOk result (λ parts. parts ≡ path_parts path.now) }
{
    let mut parts = Seq::new(alloc);
    let mut part = Text::new(alloc);
    let mut rest = path;
    'marks: while let Some((mark, behind)) = next_mark(rest) {
        take_mark(alloc, mark, &mut part, &mut parts)?;
        rest = behind;
    }
    parts.push(part)?;
    Ok(parts)
}

/// Puts a character at the end of the part, or ends the part.
fn take_mark(
    alloc: Global,
    mark: Mark,
    part: &mut Text,
    parts: &mut Seq<Text>,
) -> Result<(), Memory>
    ensures { OnOk result (Takes mark part.old parts.old part.new parts.new) }
{
    match mark {
        Mark::Dot => parts.push(mem::replace(part, Text::new(alloc))),
        Mark::Of(character) => push_char(alloc, part, character),
    }
}

fn push_char(alloc: Global, part: &mut Text, character: char) -> Result<(), Memory>
    ensures { OnOk result (part.new ≡ part.old ++ encode_utf8 character) }
{
    let mut text = String::new(alloc);
    text.push(character)?;
    part.push_str(text.as_str())
}

/// What stands next in a path, and the path behind it; `None` at its end.
fn next_mark(path: &str) -> Option<(Mark, &str)>
    ensures { MatchOption result (marks (chars path.now) ≡ []) (λ p. (marks (chars path.now) ≡ p.0 ∷ marks (chars p.1.now)) × (length p.1.now < length path.now)) }
{
    let (first, rest) = split_first(path)?;
    match first {
        '.' => Some((Mark::Dot, rest)),
        '\\' => Some(behind_slash(rest)),
        _ => Some((Mark::Of(first), rest)),
    }
}

/// The character for which a backslash and what stands behind it stand.
fn behind_slash(path: &str) -> (Mark, &str)
    ensures marks { behind_slash (chars path.now) ≡ result.0 ∷ marks (chars result.1.now) }
    ensures length { length result.1.now ≤ length path.now }
{
    match split_first(path) {
        Some((escaped, rest)) if escaped == '.' || escaped == '\\' => (Mark::Of(escaped), rest),
        _ => (Mark::Of('\\'), path),
    }
}

/// The path behind its first dot, or `None` where it is one part.
pub(crate) fn behind_dot(path: &str) -> Option<&str>
    ensures rest { option_map (λ r. marks (chars r.now)) result ≡ behind_dot (marks (chars path.now)) }
    ensures shorter { IfSome result (λ r. length r.now < length path.now) }
{
    let mut rest = path;
    'marks: while let Some((mark, behind)) = next_mark(rest) {
        if mark == Mark::Dot {
            return Some(behind);
        }
        rest = behind;
    }
    None
}

/// Whether the first part of a path is this key.
pub(crate) fn names(path: &str, key: &str) -> bool
    ensures { result ≡ bytes_eq key.now (encode_utf8_all (first_part (marks (chars path.now)))) }
{
    is_named(path, key)
}

fn is_named(path: &str, key: &str) -> bool
    ensures { result ≡ is_named (marks (chars path.now)) (chars key.now) }
{
    let mut rest = path;
    let mut left = key;
    'marks: while let Some((mark, behind)) = next_mark(rest) {
        let Mark::Of(character) = mark else {
            return split_first(left).is_none();
        };
        match split_first(left) {
            Some((own, after)) if own == character => left = after,
            _ => return false,
        }
        rest = behind;
    }
    split_first(left).is_none()
}

//! The parts of a path.
ghost use Rattle.std.specs.Prelude.{◌≡◌, ◌==◌, IfOk, map};
ghost use Rattle.std.specs.List.{slice_split};
ghost use Rattle.mx_http.specs.Paths.{decoded_parts};
ghost use Rattle.mx_api.specs.Calls.{raw_parts};
ghost use Rattle.mx_api.specs.Parts.{four_parts, one_part, room_of, three_parts, two_parts};

use mx_http::path_parts;
use mx_ids::{Memory, Seq, Text};
use std::alloc::Global;

/// The parts behind the fifth slash, each decoded; `None` exactly where one then isn't UTF-8.
pub(crate) fn parts_behind(alloc: Global, path: &str) -> Result<Option<Seq<Text>>, Memory>
    ensures { IfOk result (λ parts. parts ≡ decoded_parts (raw_parts path.now)) }
{
    let pieces = pieces(alloc, path)?;
    match pieces.as_slice() {
        [_, _matrix, _client, _version, _first, parts @ ..] => path_parts(alloc, parts),
        _ => Ok(Some(Seq::new(alloc))),
    }
}

/// What stands between the slashes.
fn pieces(alloc: Global, path: &str) -> Result<Vec<&str>, Memory>
    ensures { IfOk result (λ v. map (λ x. x.now) v.items ≡ slice_split (λ b. b == 47) path.now) }
{
    Ok(path.split('/').collect(alloc)?)
}

/// The part, where there is one. Takes no memory.
pub fn one_part(parts: Seq<Text>) -> Option<Text>
    ensures { result ≡ one_part parts }
{
    let mut parts = parts.into_vec().into_iter();
    match (parts.next(), parts.next()) {
        (Some(first), None) => Some(first),
        _ => None,
    }
}

/// The parts, where there are two. Takes no memory.
pub fn two_parts(parts: Seq<Text>) -> Option<(Text, Text)>
    ensures { result ≡ two_parts parts }
{
    let mut parts = parts.into_vec().into_iter();
    match (parts.next(), parts.next(), parts.next()) {
        (Some(first), Some(second), None) => Some((first, second)),
        _ => None,
    }
}

/// The room that a path of two parts names, `{roomId}` and a word. Takes no memory.
pub fn room_of(parts: Seq<Text>) -> Option<Text>
    ensures { result ≡ room_of parts }
{
    let (room, _) = two_parts(parts)?;
    Some(room)
}

/// The parts, where there are three. Takes no memory.
pub fn three_parts(parts: Seq<Text>) -> Option<(Text, Text, Text)>
    ensures { result ≡ three_parts parts }
{
    let mut parts = parts.into_vec().into_iter();
    match (parts.next(), parts.next(), parts.next(), parts.next()) {
        (Some(first), Some(second), Some(third), None) => Some((first, second, third)),
        _ => None,
    }
}

/// The parts, where there are four. Takes no memory.
pub fn four_parts(parts: Seq<Text>) -> Option<(Text, Text, Text, Text)>
    ensures { result ≡ four_parts parts }
{
    let mut parts = parts.into_vec().into_iter();
    match (
        parts.next(),
        parts.next(),
        parts.next(),
        parts.next(),
        parts.next(),
    ) {
        (Some(first), Some(second), Some(third), Some(fourth), None) => {
            Some((first, second, third, fourth))
        }
        _ => None,
    }
}

//! The query of a target, and the parts of its path.
ghost use Rattle.std.specs.Prelude.{◌≡◌, IfOk, map, option_map};
ghost use Rattle.mx_http.specs.Queries.{access_token, parameter, parameters, path_of, query_of};
ghost use Rattle.mx_http.specs.Paths.{decoded_part, decoded_parts};

use crate::call::Call;
use mx_ids::{Memory, Seq, Text};
use percent_encoding::percent_decode;
use std::alloc::Global;

/// The names and values of a target's query, in order: what follows the first `?`, in the syntax of
/// `application/x-www-form-urlencoded` (URL Standard, section 5). A `+` is a space, an escape that is
/// malformed stands for itself, and bytes that aren't UTF-8 become U+FFFD.
pub fn query(alloc: Global, target: &Text) -> Result<Seq<(Text, Text)>, Memory>
    ensures { IfOk result (λ pairs. pairs ≡ parameters (query_of target.now)) }
{
    let mut pairs = Seq::new(alloc);
    let input = query_bytes(target.as_str().as_bytes());
    for pair in form_urlencoded::parse(alloc, input).into_owned() {
        let (name, value) = pair?;
        pairs.push((Text::from_string(name), Text::from_string(value)))?;
    }
    Ok(pairs)
}

/// What follows the first `?`.
fn query_bytes(target: &[u8]) -> &[u8]
    ensures { result.now ≡ query_of target.now }
{
    for (at, byte) in target.iter().enumerate() {
        if *byte == b'?' {
            return &target[at + 1..];
        }
    }
    &[]
}

/// The value of the first parameter of a name. Takes no memory.
pub fn parameter<'a>(pairs: &'a [(Text, Text)], name: &str) -> Option<&'a Text>
    ensures { option_map (λ t. t.now) result ≡ parameter name.now pairs.now }
{
    'pairs: for (own, value) in pairs {
        if own.as_str() == name {
            return Some(value);
        }
    }
    None
}

/// The access token of a request (Client-Server API, Using access tokens): what follows `Bearer ` in its first
/// `Authorization` field, or else the first parameter `access_token` among those of its query. Takes no memory.
pub fn access_token<'a>(call: &'a Call, pairs: &'a [(Text, Text)]) -> Option<&'a Text>
    ensures { option_map (λ t. t.now) result ≡ access_token call.now.bearer pairs.now }
{
    match &call.bearer {
        Some(token) => Some(token),
        None => parameter(pairs, "access_token"),
    }
}

/// The path of a target: what stands before the first `?`. Takes no memory.
pub fn path(target: &Text) -> &str
    ensures { result.now ≡ path_of target.now }
{
    match target.as_str().split_once('?') {
        Some((path, _)) => path,
        None => target.as_str(),
    }
}

/// The parts of a path, each decoded (RFC 3986, section 2.1): `None` exactly where a decoded part isn't UTF-8. A `+` stays,
/// and an escape that is malformed stands for itself.
pub fn path_parts(alloc: Global, parts: &[&str]) -> Result<Option<Seq<Text>>, Memory>
    ensures { IfOk result (λ decoded. decoded ≡ decoded_parts (map (λ part. part.now) parts.now)) }
{
    let mut decoded = Seq::new(alloc);
    'parts: for part in parts {
        let Some(text) = decoded_part(alloc, part)? else {
            return Ok(None);
        };
        decoded.push(text)?;
    }
    Ok(Some(decoded))
}

/// A part of a path, decoded: `None` exactly where it then isn't UTF-8.
#[tactic(auto, using(crate::proofs::Paths::fails))]
fn decoded_part(alloc: Global, part: &str) -> Result<Option<Text>, Memory>
    ensures { IfOk result (λ decoded. decoded ≡ decoded_part part.now) }
{
    let mut bytes = Vec::new(alloc);
    percent_decode(part.as_bytes()).append_to(&mut bytes)?;
    match String::from_utf8(bytes) {
        Ok(text) => Ok(Some(Text::from_string(text))),
        Err(_) => Ok(None),
    }
}

//! What the field lines of a head say.
ghost use Rattle.std.specs.Prelude.{◌≡◌, ◌<◌, ◌≤◌, [], length, reverse, codes, IfOk, IfSome};
ghost use Rattle.std.specs.List.{list_any};
ghost use Rattle.std.specs.Option.{option_map};
ghost use Rattle.std.specs.Str.{str_to_ascii_lowercase};
ghost use Rattle.std.specs.Str.Lossy.{utf8_lossy};
ghost use Rattle.httparse.specs.Grammar.{skip_ows, trim_ows};
ghost use Rattle.mx_http.specs.Fields.{all_say, asks_close, bearer_of, body_size, has_element, is_word, length_in, length_said, number_in, values_of};
ghost use Rattle.mx_http.specs.Spans.{pairs_at, AreWithin, FindsFirst};

use crate::fault::HttpFault;
use httparse::spans::HeaderSpan;

/// A body has at most so many bytes.
pub const BODY_LIMIT: usize = 1_048_576;

/// The number of bytes of the body, or why the field lines say none.
pub fn body_size(bytes: &[u8], fields: &[HeaderSpan]) -> Result<usize, HttpFault>
    requires { AreWithin bytes.now fields.now }
    ensures value { result ≡ body_size (pairs_at bytes.now fields.now) }
    ensures most { IfOk result (λ size. size ≤ BODY_LIMIT) }
{
    if find_value(b"transfer-encoding", bytes, fields).is_some() {
        return Err(HttpFault::Coding);
    }
    match said_length(bytes, fields) {
        None => Err(HttpFault::BadLength),
        Some(length) if length > BODY_LIMIT => Err(HttpFault::BodyTooLong),
        Some(length) => Ok(length),
    }
}

/// The length that each `Content-Length` says, 0 where there is none; none where one of them is no
/// length, or two differ.
fn said_length(bytes: &[u8], fields: &[HeaderSpan]) -> Option<usize>
    requires { AreWithin bytes.now fields.now }
    ensures { result ≡ length_said (values_of (codes "content-length") (pairs_at bytes.now fields.now)) }
{
    let Some((value, after)) = find_value(b"content-length", bytes, fields) else {
        return Some(0);
    };
    let length = read_length(value)?;
    if all_say(length, bytes, after) {
        Some(length)
    } else {
        None
    }
}

/// Whether each `Content-Length` says this length.
fn all_say(length: usize, bytes: &[u8], fields: &[HeaderSpan]) -> bool
    requires { AreWithin bytes.now fields.now }
    ensures { result ≡ all_say length (values_of (codes "content-length") (pairs_at bytes.now fields.now)) }
{
    let mut rest = fields;
    while let Some((value, after)) = find_value(b"content-length", bytes, rest) {
        if read_length(value) != Some(length) {
            return false;
        }
        rest = after;
    }
    true
}

/// The token behind `Bearer ` in the first `Authorization` field.
pub fn bearer<'a>(bytes: &'a [u8], fields: &[HeaderSpan]) -> Option<&'a [u8]>
    requires { AreWithin bytes.now fields.now }
    ensures { option_map (λ token. utf8_lossy token.now) result ≡ bearer_of (pairs_at bytes.now fields.now) }
{
    let (value, _) = find_value(b"authorization", bytes, fields)?;
    if value.starts_with(b"Bearer ") {
        Some(&value[7..])
    } else {
        None
    }
}

/// Whether the connection is to end after the answer.
pub fn asks_close(minor: u8, bytes: &[u8], fields: &[HeaderSpan]) -> bool
    requires { AreWithin bytes.now fields.now }
    ensures { result ≡ asks_close minor (pairs_at bytes.now fields.now) }
{
    minor == 0 || names_close(bytes, fields)
}

/// Whether a `Connection` field has the element `close`.
fn names_close(bytes: &[u8], fields: &[HeaderSpan]) -> bool
    requires { AreWithin bytes.now fields.now }
    ensures { result ≡ list_any (has_element (codes "close")) (values_of (codes "connection") (pairs_at bytes.now fields.now)) }
{
    let mut rest = fields;
    while let Some((value, after)) = find_value(b"connection", bytes, rest) {
        if has_close(value) {
            return true;
        }
        rest = after;
    }
    false
}

/// The value of the first field of a name, and the fields behind it.
fn find_value<'a, 'f>(
    name: &[u8],
    bytes: &'a [u8],
    fields: &'f [HeaderSpan],
) -> Option<(&'a [u8], &'f [HeaderSpan])>
    requires word { str_to_ascii_lowercase name.now ≡ name.now }
    requires within { AreWithin bytes.now fields.now }
    ensures first { FindsFirst name.now bytes.now fields.now (option_map (λ f. (f.0.now, f.1.now)) result) }
    ensures fewer { IfSome result (λ f. length f.1.now < length fields.now) }
{
    for (at, field) in fields.iter().enumerate() {
        if is_word(field.name.of(bytes), name) {
            return Some((field.value.of(bytes), &fields[at + 1..]));
        }
    }
    None
}

/// Whether the bytes are a word of small letters, without regard to ASCII case.
#[tactic(auto, using(crate::proofs::Words::word_test))]
fn is_word(bytes: &[u8], word: &[u8]) -> bool
    requires { str_to_ascii_lowercase word.now ≡ word.now }
    ensures { result ≡ is_word word.now bytes.now }
{
    bytes.eq_ignore_ascii_case(word)
}

/// The length that 1 to 19 digits say.
fn read_length(value: &[u8]) -> Option<usize>
    ensures { result ≡ length_in value.now }
{
    if value.is_empty() || value.len() > 19 {
        return None;
    }
    read_number(value)
}

/// The number that at most 19 digits say.
fn read_number(digits: &[u8]) -> Option<usize>
    requires { length digits.now ≤ 19 }
    ensures { result ≡ number_in digits.now }
{
    let mut number = 0;
    let mut rest = digits;
    while let [digit @ b'0'..=b'9', after @ ..] = rest {
        number = 10 * number + usize::from(*digit - b'0');
        rest = after;
    }
    if rest.is_empty() { Some(number) } else { None }
}

/// Whether one of the elements between the commas is `close`.
fn has_close(value: &[u8]) -> bool
    ensures { result ≡ has_element (codes "close") value.now }
{
    value
        .split(|byte| *byte == b',')
        .any(|element| is_close(element))
}

fn is_close(element: &[u8]) -> bool
    ensures { result ≡ is_word (codes "close") (trim_ows element.now) }
{
    is_word(trim(element), b"close")
}

/// The bytes without the spaces and tabs at both ends.
#[tactic(auto, unfolding(httparse::specs::Grammar::trim_ows))]
fn trim(bytes: &[u8]) -> &[u8]
    ensures { result.now ≡ trim_ows bytes.now }
{
    trim_end(trim_start(bytes))
}

fn trim_start(bytes: &[u8]) -> &[u8]
    ensures { result.now ≡ skip_ows bytes.now }
{
    let mut rest = bytes;
    while let [b' ' | b'\t', after @ ..] = rest {
        rest = after;
    }
    rest
}

fn trim_end(bytes: &[u8]) -> &[u8]
    ensures { result.now ≡ reverse (skip_ows (reverse bytes.now)) }
{
    let mut rest = bytes;
    while let [before @ .., b' ' | b'\t'] = rest {
        rest = before;
    }
    rest
}

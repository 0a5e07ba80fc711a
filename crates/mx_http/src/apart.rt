//! The head of a request, taken apart.
ghost use Rattle.std.specs.Prelude.{◌≡◌, ◌+◌, ◌≤◌, length, take, IfOk, IsUtf8};
ghost use Rattle.std.specs.Str.Lossy.{utf8_lossy};
ghost use Rattle.std.specs.Option.{option_map};
ghost use Rattle.httparse.specs.Spans.{IsRequestWithin, IsRequestOf};
ghost use Rattle.mx_http.specs.Parts.{TakesApart, FindsHead, with_body};

use crate::call::Call;
use crate::fault::HttpFault;
use crate::fields::{asks_close, bearer, body_size};
use crate::grammar::{FIELD_ROOM, HEAD_LIMIT, Judged, judge};
use crate::head::Head;
use httparse::spans::{HeaderSpan, RequestSpans};
use mx_ids::{Memory, Seq, Text};
use std::alloc::Global;

impl Head {
    /// The request of this head and a body.
    pub fn with_body(self, body: Seq<u8>) -> Call
        ensures { result ≡ with_body self body }
    {
        let Head {
            method,
            target,
            bearer,
            close,
            len: _,
            size: _,
        } = self;
        Call {
            method,
            target,
            bearer,
            body,
            close,
        }
    }
}

/// The head at the front of `bytes`, or none where it isn't whole yet.
pub fn read_head(
    alloc: Global,
    bytes: &[u8],
    fields: &mut [HeaderSpan],
) -> Result<Option<Head>, HttpFault>
    requires { length fields.old ≡ FIELD_ROOM }
    ensures { FindsHead bytes.now result }
{
    let front = first_bytes(bytes);
    match judge(front, fields) {
        Judged::Whole(spans) => take_apart(alloc, front, spans, fields),
        Judged::Open => {
            if bytes.len() < HEAD_LIMIT {
                Ok(None)
            } else {
                Err(HttpFault::HeadTooLong)
            }
        }
        Judged::Bad => Err(HttpFault::Head),
    }
}

/// As many of the bytes as a head may have.
fn first_bytes(bytes: &[u8]) -> &[u8]
    ensures front { result.now ≡ take HEAD_LIMIT bytes.now }
    ensures short { length result.now ≤ HEAD_LIMIT }
{
    if bytes.len() <= HEAD_LIMIT {
        bytes
    } else {
        &bytes[..HEAD_LIMIT]
    }
}

/// The parts of a whole head.
fn take_apart(
    alloc: Global,
    bytes: &[u8],
    spans: RequestSpans,
    fields: &[HeaderSpan],
) -> Result<Option<Head>, HttpFault>
    requires short { length bytes.now ≤ HEAD_LIMIT }
    requires within { IsRequestWithin bytes.now fields.now spans }
    requires whole { IsRequestOf bytes.now fields.now spans }
    ensures { TakesApart bytes.now result }
{
    let lines = &fields[..spans.headers];
    let size = body_size(bytes, lines)?;
    let method = copy_text(alloc, spans.method.of(bytes))?;
    let target = copy_text(alloc, spans.path.of(bytes))?;
    let bearer = copy_token(alloc, bearer(bytes, lines))?;
    let close = asks_close(spans.version, bytes, lines);
    Ok(Some(Head {
        method,
        target,
        bearer,
        close,
        len: spans.len,
        size,
    }))
}

/// A copy of bytes that are UTF-8.
fn copy_text(alloc: Global, bytes: &[u8]) -> Result<Text, Memory>
    requires { IsUtf8 bytes.now }
    ensures { IfOk result (λ text. text ≡ bytes.now) }
{
    match str::from_utf8(bytes) {
        Ok(text) => Ok(Text::from_string(String::from_str(alloc, text)?)),
        Err(_) => unreachable!(),
    }
}

/// A copy of a token, in which what isn't UTF-8 is U+FFFD.
fn copy_token(alloc: Global, token: Option<&[u8]>) -> Result<Option<Text>, Memory>
    ensures { IfOk result (λ text. text ≡ option_map (λ t. utf8_lossy t.now) token.entry) }
{
    match token {
        None => Ok(None),
        Some(token) => Ok(Some(Text::from_string(String::from_utf8_lossy(alloc, token)?))),
    }
}

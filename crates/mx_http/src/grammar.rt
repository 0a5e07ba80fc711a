//! What the grammar of request heads says of the first bytes.
ghost use Rattle.std.specs.Prelude.{◌≡◌, ◌≤◌, length};
ghost use Rattle.httparse.specs.Grammar.{NeverHasRequest};
ghost use Rattle.mx_http.specs.Parts.{Judges, JudgesNone};

use crate::target::{are_line_ends, ends_in_target};
use httparse::Status;
use httparse::spans::{HeaderSpan, RequestSpans, parse_request};

/// A head has at most so many bytes.
pub const HEAD_LIMIT: usize = 16_384;

/// No head within the limit has so many field lines: each has at least three bytes.
pub const FIELD_ROOM: usize = 5600;

/// What bytes are by the grammar of heads.
#[derive(Clone, Copy)]
pub enum Judged {
    /// A whole head stands at their front.
    Whole(RequestSpans),
    /// No head stands there yet: one may come, or they end inside a target, or they are line ends.
    Open,
    /// No head stands there, whatever follows.
    Bad,
}

/// Judges bytes, at most as many as a head has.
pub fn judge(bytes: &[u8], fields: &mut [HeaderSpan]) -> Judged
    requires short { length bytes.now ≤ HEAD_LIMIT }
    requires room { length fields.old ≡ FIELD_ROOM }
    ensures { Judges bytes.now fields.new result }
{
    match parse_request(bytes, fields) {
        Ok(Status::Complete(spans)) => Judged::Whole(spans),
        Ok(Status::Partial) => Judged::Open,
        Err(_) => judge_none(bytes),
    }
}

/// Judges bytes at whose front no head comes by its grammar.
fn judge_none(bytes: &[u8]) -> Judged
    requires { NeverHasRequest bytes.now }
    ensures { JudgesNone bytes.now result }
{
    if ends_in_target(bytes) || are_line_ends(bytes) {
        Judged::Open
    } else {
        Judged::Bad
    }
}

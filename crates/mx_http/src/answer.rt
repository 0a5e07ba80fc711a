//! Answers, and how they are written.
ghost use Rattle.std.specs.Prelude.{◌≡◌, ℕ, ◌≤◌, ◌-◌, ◌^◌, min, [], length, take, unwrap_or, OnOk, OnErr, codes, if◌then◌else◌};
ghost use Rattle.std.specs.Io.KnownBytes.{Appends};
ghost use Rattle.http.specs.StatusCode.{reason_phrase};
ghost use Rattle.mx_outside.specs.Causes.{Rose};
ghost use Rattle.mx_http.specs.Answers.{body_text, size_of, head_bytes, response_bytes, line};
ghost use Rattle.mx_http.specs.Stages.{state_of, Sends};

use crate::print::put_json;
use crate::stage::{Stage, flush, put, put_all};
use http::StatusCode;
use itoa::Buffer;
use mx_json::Json;
use mx_outside::Sink;

/// An answer: a status and a body.
#[derive(Drop)]
pub struct Answer {
    pub status: u16,
    pub body: Body,
}

/// The body of an answer.
#[derive(Drop)]
pub enum Body {
    /// The compact text of a value.
    Json(Json),
    /// These bytes.
    Fixed(&'static [u8]),
}

/// The sink failed, and its count of faults rose.
#[derive(Clone, Copy, Debug, PartialEq, Eq)]
pub struct WriteFault;

impl Body {
    /// The length, in bytes; 2^64 - 1 where it is longer. Takes no memory.
    fn size(&self) -> u64
        ensures { result ≡ size_of (body_text self.now) }
    {
        match self {
            Body::Json(json) => json.size(),
            Body::Fixed(bytes) => bytes.len() as u64,
        }
    }
}

/// Writes an answer (RFC 9112): the status line, the headers of a JSON body and of web clients
/// (Client-Server API, API Standards), and the body unless `head_only`, as for `HEAD`. `close` says
/// that the connection ends after it. Takes no memory. `WriteFault` comes only where the sink's count
/// of faults rose in this call, or stands at its last value; then a front of the answer was written.
pub fn write_answer<K: Sink>(
    sink: &mut K,
    answer: &Answer,
    head_only: bool,
    close: bool,
) -> Result<(), WriteFault>
    ensures done { OnOk result (Appends (K.written sink.old) (K.written sink.new)
        (response_bytes answer.now.status (body_text answer.now.body) head_only close)) }
    ensures part { OnErr result ((n : ℕ) × Appends (K.written sink.old) (K.written sink.new)
        (take n (response_bytes answer.now.status (body_text answer.now.body) head_only close))) }
    ensures count { K.faults sink.old ≤ K.faults sink.new }
    ensures cause { OnErr result (Rose (K.faults sink.old) (K.faults sink.new)) }
{
    let mut stage = Stage::new();
    put_answer(sink, &mut stage, answer, head_only, close)
}

/// The whole answer, after which no byte waits.
fn put_answer<K: Sink>(
    sink: &mut K,
    stage: &mut Stage,
    answer: &Answer,
    head_only: bool,
    close: bool,
) -> Result<(), WriteFault>
    ensures bytes { Sends (state_of K.written K.faults sink.old stage.old) result (state_of K.written K.faults sink.new stage.new)
        (response_bytes answer.now.status (body_text answer.now.body) head_only close) }
    ensures empty { OnOk result (stage.new ≡ []) }
{
    put_head(sink, stage, answer.status, answer.body.size(), close)?;
    put_body(sink, stage, &answer.body, head_only)?;
    flush(sink, stage)
}

/// The status line, the headers and the empty line.
fn put_head<K: Sink>(
    sink: &mut K,
    stage: &mut Stage,
    status: u16,
    size: u64,
    close: bool,
) -> Result<(), WriteFault>
    ensures { Sends (state_of K.written K.faults sink.old stage.old) result (state_of K.written K.faults sink.new stage.new) (head_bytes status size close) }
{
    let mut status_digits = Buffer::new();
    let mut size_digits = Buffer::new();
    let pieces = [
        b"HTTP/1.1 ".as_slice(),
        status_digits.format(status).as_bytes(),
        b" ",
        phrase(status).as_bytes(),
        b"\r\nContent-Type: application/json\r\nContent-Length: ",
        size_digits.format(size).as_bytes(),
        b"\r\nAccess-Control-Allow-Origin: *\r\nAccess-Control-Allow-Methods: GET, POST, PUT, DELETE, OPTIONS\r\nAccess-Control-Allow-Headers: X-Requested-With, Content-Type, Authorization\r\n",
        connection(close),
        b"\r\n",
    ];
    put_all(sink, stage, pieces.as_slice())
}

/// The reason phrase of a status; empty where the standard has none.
fn phrase(status: u16) -> &'static str
    ensures { result.now ≡ unwrap_or (reason_phrase status) [] }
{
    match StatusCode::from_u16(status) {
        Ok(code) => code.canonical_reason().unwrap_or(""),
        Err(_) => "",
    }
}

/// The line that says that the connection ends.
fn connection(close: bool) -> &'static [u8]
    ensures { result.now ≡ (if close then line (codes "Connection: close") else []) }
{
    if close { b"Connection: close\r\n" } else { b"" }
}

/// The body, where it is asked for.
fn put_body<K: Sink>(
    sink: &mut K,
    stage: &mut Stage,
    body: &Body,
    head_only: bool,
) -> Result<(), WriteFault>
    ensures { Sends (state_of K.written K.faults sink.old stage.old) result (state_of K.written K.faults sink.new stage.new)
        (if head_only then [] else body_text body.now) }
{
    if head_only {
        return Ok(());
    }
    match body {
        Body::Json(json) => put_json(sink, stage, json),
        Body::Fixed(bytes) => put(sink, stage, bytes),
    }
}

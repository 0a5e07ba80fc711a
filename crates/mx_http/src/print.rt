//! The compact text of a JSON value, put piece by piece.
ghost use Rattle.std.specs.Prelude.{◌≡◌, ◌<◌, ◌≤◌, [], ◌∷◌, ◌++◌, false, length, take, IfOk, MatchResult};
ghost use Rattle.std.specs.Char.{digit_char};
ghost use Rattle.json.specs.Print as print;
ghost use Rattle.json.specs.Print.{escape, escape_byte, quoted};
ghost use Rattle.json.specs.Token.{boolean};
ghost use Rattle.serde_json.specs.Written.{comma_if};
ghost use Rattle.mx_json.specs.Texts.{json_text, list_text, object_text};
ghost use Rattle.mx_http.specs.Stages.{state_of, Sends, Puts, Stops};

use crate::answer::WriteFault;
use crate::stage::{Stage, put};
use itoa::Buffer;
use mx_ids::Seq;
use mx_json::{Json, Members};
use mx_outside::Sink;

/// Puts the compact text of a value.
#[cycle(put_json)]
pub(crate) fn put_json<K: Sink>(
    sink: &mut K,
    stage: &mut Stage,
    json: &Json,
) -> Result<(), WriteFault>
    ensures { Sends (state_of K.written K.faults sink.old stage.old) result (state_of K.written K.faults sink.new stage.new) (json_text json.now) }
{
    match json {
        Json::Null => put(sink, stage, b"null"),
        Json::Bool(b) => put(sink, stage, bool_text(*b)),
        Json::Int(n) => put(sink, stage, Buffer::new().format(*n).as_bytes()),
        Json::Text(text) => put_quoted(sink, stage, text.as_str()),
        Json::List(items) => put_list(sink, stage, items),
        Json::Object(members) => put_object(sink, stage, members),
    }
}

/// Puts a list: each item but the first after a comma.
#[cycle(put_json)]
fn put_list<K: Sink>(sink: &mut K, stage: &mut Stage, items: &Seq<Json>) -> Result<(), WriteFault>
    ensures { Sends (state_of K.written K.faults sink.old stage.old) result (state_of K.written K.faults sink.new stage.new) (91 ∷ list_text false items.now) }
{
    put(sink, stage, b"[")?;
    let mut later = false;
    'items: for item in items.as_slice() {
        put(sink, stage, comma(later))?;
        put_json(sink, stage, item)?;
        later = true;
    }
    put(sink, stage, b"]")
}

/// Puts an object: each member but the first after a comma.
#[cycle(put_json)]
fn put_object<K: Sink>(
    sink: &mut K,
    stage: &mut Stage,
    members: &Members<Json>,
) -> Result<(), WriteFault>
    ensures { Sends (state_of K.written K.faults sink.old stage.old) result (state_of K.written K.faults sink.new stage.new) (123 ∷ object_text false members.now) }
{
    put(sink, stage, b"{")?;
    let mut later = false;
    'members: for member in members.as_slice() {
        put_key(sink, stage, later, member.key.as_str())?;
        put_json(sink, stage, &member.value)?;
        later = true;
    }
    put(sink, stage, b"}")
}

/// Puts a key with its colon, after a comma where an earlier member stands.
fn put_key<K: Sink>(
    sink: &mut K,
    stage: &mut Stage,
    later: bool,
    key: &str,
) -> Result<(), WriteFault>
    ensures { Sends (state_of K.written K.faults sink.old stage.old) result (state_of K.written K.faults sink.new stage.new)
        (comma_if later ++ (quoted key.now ++ 58 ∷ [])) }
{
    put(sink, stage, comma(later))?;
    put_quoted(sink, stage, key)?;
    put(sink, stage, b":")
}

fn comma(later: bool) -> &'static [u8]
    ensures { result.now ≡ comma_if later }
{
    if later { b"," } else { b"" }
}

fn bool_text(b: bool) -> &'static [u8]
    ensures { result.now ≡ print.token_text (boolean b) }
{
    if b { b"true" } else { b"false" }
}

/// Puts a text between quotes, with its escapes.
fn put_quoted<K: Sink>(sink: &mut K, stage: &mut Stage, text: &str) -> Result<(), WriteFault>
    ensures { Sends (state_of K.written K.faults sink.old stage.old) result (state_of K.written K.faults sink.new stage.new) (quoted text.now) }
{
    put(sink, stage, b"\"")?;
    put_runs(sink, stage, text.as_bytes())?;
    put(sink, stage, b"\"")
}

/// Puts bytes with their escapes.
fn put_runs<K: Sink>(sink: &mut K, stage: &mut Stage, bytes: &[u8]) -> Result<(), WriteFault>
    ensures { Sends (state_of K.written K.faults sink.old stage.old) result (state_of K.written K.faults sink.new stage.new) (escape bytes.now) }
{
    let mut done = 0;
    'runs: while done < bytes.len() {
        done += put_run(sink, stage, &bytes[done..])?;
    }
    Ok(())
}

/// Puts the bytes before the first that is escaped, or that one where it is the first. Says how many.
fn put_run<K: Sink>(sink: &mut K, stage: &mut Stage, bytes: &[u8]) -> Result<usize, WriteFault>
    requires { 0 < length bytes.now }
    ensures some { IfOk result (λ n. (0 < n) × (n ≤ length bytes.now)) }
    ensures bytes { MatchResult result
        (λ n. Puts (state_of K.written K.faults sink.old stage.old) (state_of K.written K.faults sink.new stage.new) (escape (take n bytes.now)))
        (λ _. Stops (state_of K.written K.faults sink.old stage.old) (state_of K.written K.faults sink.new stage.new) (escape bytes.now)) }
{
    let plain = plain_len(bytes);
    if plain == 0 {
        put_escaped(sink, stage, bytes[0])?;
        return Ok(1);
    }
    put(sink, stage, &bytes[..plain])?;
    Ok(plain)
}

/// How many bytes stand before the first that is escaped.
fn plain_len(bytes: &[u8]) -> usize
    ensures within { result ≤ length bytes.now }
    ensures plain { escape (take result bytes.now) ≡ take result bytes.now }
{
    for (i, byte) in bytes.iter().enumerate() {
        if is_escaped(*byte) {
            return i;
        }
    }
    bytes.len()
}

#[tactic(auto, unfolding(json::specs::Print::escape_byte))]
fn is_escaped(byte: u8) -> bool
    ensures { result ≡ false → escape_byte byte ≡ byte ∷ [] }
{
    escape_letter(byte) != 0 || byte < 32
}

/// Puts what stands for a byte between quotes.
fn put_escaped<K: Sink>(sink: &mut K, stage: &mut Stage, byte: u8) -> Result<(), WriteFault>
    ensures { Sends (state_of K.written K.faults sink.old stage.old) result (state_of K.written K.faults sink.new stage.new) (escape_byte byte) }
{
    match escape_letter(byte) {
        0 if byte < 32 => put(
            sink,
            stage,
            &[
                b'\\',
                b'u',
                b'0',
                b'0',
                hex_digit(byte / 16),
                hex_digit(byte % 16),
            ],
        ),
        0 => put(sink, stage, &[byte]),
        letter => put(sink, stage, &[b'\\', letter]),
    }
}

/// The letter of a byte's short escape; 0 where it has none.
fn escape_letter(byte: u8) -> u8
    ensures { result ≡ print.escape_letter byte }
{
    match byte {
        b'"' | b'\\' => byte,
        8 => b'b',
        12 => b'f',
        b'\n' => b'n',
        b'\r' => b'r',
        b'\t' => b't',
        _ => 0,
    }
}

fn hex_digit(value: u8) -> u8
    requires { value < 16 }
    ensures { result ≡ digit_char value }
{
    if value < 10 {
        b'0' + value
    } else {
        b'a' - 10 + value
    }
}

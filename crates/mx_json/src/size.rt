//! The length of the compact text.
ghost use Rattle.std.specs.Prelude.{◌≡◌, ◌≤◌, ◌∷◌, ◌-◌, ◌^◌, min, length, decimal, false};
ghost use Rattle.std.specs.Fmt.{signed_decimal};
ghost use Rattle.json.specs.Print.{quoted, escape_byte};
ghost use Rattle.mx_json.specs.Texts.{json_text, list_text, object_text};

use crate::members::Members;
use crate::value::Json;
use mx_ids::Seq;

impl Json {
    /// The length of the compact text, in bytes; 2^64 - 1 where it is longer. Takes no memory.
    #[cycle(size)]
    pub fn size(&self) -> u64
        ensures { result ≡ min (length (json_text self.now)) (2 ^ 64 - 1) }
    {
        match self {
            Json::Null => 4,
            Json::Bool(b) => { if *b { 4 } else { 5 } }
            Json::Int(n) => integer_size(*n),
            Json::Text(text) => text_size(text.as_str()),
            Json::List(items) => list_size(items),
            Json::Object(members) => members_size(members),
        }
    }
}

/// Each item stands before a comma or the closing bracket.
#[cycle(size)]
#[tactic(auto, using(crate::proofs::Sizes::none_listed))]
fn list_size(items: &Seq<Json>) -> u64
    ensures { result ≡ min (length (91 ∷ list_text false items.now)) (2 ^ 64 - 1) }
{
    if items.is_empty() {
        return 2;
    }
    let mut size: u64 = 1;
    for item in items.as_slice() {
        size = size.saturating_add(item.size()).saturating_add(1);
    }
    size
}

/// Each member has a colon, and stands before a comma or the closing brace.
#[cycle(size)]
#[tactic(auto, using(crate::proofs::Sizes::no_members))]
fn members_size(members: &Members<Json>) -> u64
    ensures { result ≡ min (length (123 ∷ object_text false members.now)) (2 ^ 64 - 1) }
{
    if members.is_empty() {
        return 2;
    }
    let mut size: u64 = 1;
    for member in members.as_slice() {
        let key = text_size(member.key.as_str());
        size = size
            .saturating_add(key)
            .saturating_add(member.value.size())
            .saturating_add(2);
    }
    size
}

/// The length of a text as JSON, between quotes, in bytes; 2^64 - 1 where it is longer. Takes no memory.
#[tactic(auto, using(crate::proofs::Sizes::quoted_len, crate::proofs::Sizes::escape_more))]
pub fn text_size(text: &str) -> u64
    ensures { result ≡ min (length (quoted text.now)) (2 ^ 64 - 1) }
{
    let mut size: u64 = 2;
    for byte in text.as_bytes() {
        size = size.saturating_add(escaped_size(*byte));
    }
    size
}

/// The length of what stands for a byte between quotes.
#[tactic(auto, unfolding(json::specs::Print::escape_byte))]
fn escaped_size(byte: u8) -> u64
    ensures { result ≡ length (escape_byte byte) }
{
    match byte {
        b'"' | b'\\' | 8 | b'\t' | b'\n' | 12 | b'\r' => 2,
        0..32 => 6,
        _ => 1,
    }
}

fn integer_size(n: i64) -> u64
    ensures { result ≡ length (signed_decimal n) }
{
    if n < 0 {
        1 + number_size(n.unsigned_abs())
    } else {
        number_size(n as u64)
    }
}

/// How many decimal digits a number has.
#[tactic(auto, using(crate::proofs::Sizes::digits_step, crate::proofs::Sizes::one_digit, crate::proofs::Sizes::few_digits))]
pub fn number_size(n: u64) -> u64
    ensures value { result ≡ length (decimal n) }
    ensures few { result ≤ 20 }
{
    let mut rest = n;
    let mut size: u64 = 1;
    while rest >= 10 {
        rest /= 10;
        size += 1;
    }
    size
}

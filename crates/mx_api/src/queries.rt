//! The parameters of a query: numbers, and which of them isn't of its form.
ghost use Rattle.std.specs.Prelude.{◌≡◌, ◌≤◌, IfOk, IfSome, min};
ghost use Rattle.std.specs.List.{list_all};
ghost use Rattle.mx_http.specs.Queries.{parameter};
ghost use Rattle.mx_ids.specs.Decimal.{is_digit};
ghost use Rattle.mx_api.specs.Queries.{begins_object, first_wrong, is_number, number_within, spelled, wrong_named};

use crate::refused::Parameter;
use mx_http::parameter;
use mx_ids::{Copied, Memory, Text};
use std::alloc::Global;

/// A copy of the value of the first parameter of a name.
pub fn value_at(alloc: Global, query: &[(Text, Text)], name: &str) -> Result<Option<Text>, Memory>
    ensures { IfOk result (λ value. value ≡ parameter name.now query.now) }
{
    match parameter(query, name) {
        Some(value) => Ok(Some(value.copy(alloc)?)),
        None => Ok(None),
    }
}

/// Whether a value begins with `{`, as a filter does that is JSON. Takes no memory.
pub fn begins_object(value: &[u8]) -> bool
    ensures { result ≡ begins_object value.now }
{
    match value {
        [first, ..] => *first == b'{',
        [] => false,
    }
}

/// The number that a text of decimal digits spells, cut to `most`; `None` exactly where the text isn't digits alone. It may
/// have leading zeros and any length. Takes no memory.
#[tactic(auto, unfolding(crate::specs::Queries::number_within))]
pub fn number_within(text: &Text, most: u64) -> Option<u64>
    ensures number { result ≡ number_within most text.now }
    ensures cut { IfSome result (λ n. n ≤ most) }
{
    let digits = text.as_str().as_bytes();
    if is_number(digits) {
        Some(cut_number(digits, most))
    } else {
        None
    }
}

/// Whether these are digits, and at least one.
fn is_number(text: &[u8]) -> bool
    ensures { result ≡ is_number text.now }
{
    !text.is_empty() && are_digits(text)
}

fn are_digits(text: &[u8]) -> bool
    ensures { result ≡ list_all is_digit text.now }
{
    text.iter().all(|byte| *byte >= b'0' && *byte <= b'9')
}

/// The number that digits spell, cut to `most`.
fn cut_number(digits: &[u8], most: u64) -> u64
    ensures { result ≡ min (spelled 0 digits.now) most }
{
    let mut number: u64 = 0;
    'digits: for digit in digits {
        let value = u64::from(digit.saturating_sub(b'0'));
        number = number.saturating_mul(10).saturating_add(value);
    }
    number.min(most)
}

/// The parameter that stands first in a query among those of which is said that they aren't of their form. Takes no memory.
pub fn first_wrong(query: &[(Text, Text)], judged: &[(Parameter, bool)]) -> Option<Parameter>
    ensures { result ≡ first_wrong judged.now query.now }
{
    'pairs: for (name, _) in query {
        if let Some(parameter) = wrong_named(judged, name.as_str()) {
            return Some(parameter);
        }
    }
    None
}

/// The parameter of a name, if it isn't of its form.
fn wrong_named(judged: &[(Parameter, bool)], name: &str) -> Option<Parameter>
    ensures { result ≡ wrong_named judged.now name.now }
{
    'judged: for (parameter, wrong) in judged {
        if *wrong && name == parameter.name() {
            return Some(*parameter);
        }
    }
    None
}

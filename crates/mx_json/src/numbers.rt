//! Which numbers of a value are refused.
ghost use Rattle.std.specs.Prelude.{◌≡◌};
ghost use Rattle.serde_json.specs.View.{view, number_view, items_view, members_view};
ghost use Rattle.mx_json.specs.Numbers.{has_flaw, any_number, any_in_items, any_in_members};

use serde_json::{Map, Number, Value};

/// The largest whole number that is read. The smallest is its negative.
const LARGEST: i64 = 9_007_199_254_740_991;

/// Why a number is refused.
#[derive(Clone, Copy)]
pub(crate) enum Flaw {
    /// It isn't held as a whole number.
    Fraction,
    /// It is a whole number outside plus or minus `LARGEST`.
    Range,
}

/// Whether a number of the value has the flaw.
#[cycle(flawed)]
pub(crate) fn is_flawed(value: &Value, flaw: Flaw) -> bool
    ensures { result ≡ any_number (has_flaw flaw) (view value.now) }
{
    match value {
        Value::Null | Value::Bool(_) | Value::String(_) => false,
        Value::Number(number) => number_has(number, flaw),
        Value::Array(items) => items_are_flawed(items, flaw),
        Value::Object(members) => members_are_flawed(members, flaw),
    }
}

#[cycle(flawed)]
fn items_are_flawed(items: &Vec<Value>, flaw: Flaw) -> bool
    ensures { result ≡ any_in_items (has_flaw flaw) (items_view items.now.items) }
{
    for item in items {
        if is_flawed(item, flaw) {
            return true;
        }
    }
    false
}

#[cycle(flawed)]
fn members_are_flawed(members: &Map<String, Value>, flaw: Flaw) -> bool
    ensures { result ≡ any_in_members (has_flaw flaw) (members_view members.now.entries) }
{
    for (_key, member) in members {
        if is_flawed(member, flaw) {
            return true;
        }
    }
    false
}

fn number_has(number: &Number, flaw: Flaw) -> bool
    ensures { result ≡ has_flaw flaw (number_view number.now) }
{
    match flaw {
        Flaw::Fraction => number.is_f64(),
        Flaw::Range => match number.as_i64() {
            Some(n) => n < -LARGEST || LARGEST < n,
            None => number.is_u64(),
        },
    }
}

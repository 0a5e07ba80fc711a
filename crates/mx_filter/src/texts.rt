//! What stands at a key of a part that may be absent.
ghost use Rattle.std.specs.Prelude.{◌≡◌, ◌++◌, option_and_then, option_map, IfOk, OnOk};
ghost use Rattle.std.specs.Option.{option_to_list};
ghost use Rattle.mx_json.specs.Fields.{bool_of, text_of};
ghost use Rattle.mx_filter.specs.Filters.{choice_in, field_at, limit_in, texts_at, texts_of, texts_or_none, truth_at};

use mx_ids::{Copied, Memory, Seq, Text};
use mx_json::Json;
use std::alloc::Global;

pub(crate) fn field_at<'a>(part: Option<&'a Json>, key: &str) -> Option<&'a Json>
    ensures { option_map (λ v. v.now) result ≡ field_at key.now (option_map (λ p. p.now) part.entry) }
{
    part?.field(key)
}

/// Both values, or the first fault.
pub(crate) fn both<A: Drop, B: Drop>(
    first: Result<A, Memory>,
    second: Result<B, Memory>,
) -> Result<(A, B), Memory>
    ensures { (a : A) (b : B) → IfOk first (λ x. x ≡ a) → IfOk second (λ y. y ≡ b) → IfOk result (λ p. p ≡ (a, b)) }
{
    Ok((first?, second?))
}

/// The texts that are wanted, if there is a list of them, and those that aren't.
pub(crate) fn choice_in(
    alloc: Global,
    part: Option<&Json>,
    wanted: &str,
    unwanted: &str,
) -> Result<(Option<Seq<Text>>, Seq<Text>), Memory>
    ensures { IfOk result (λ p. p ≡ choice_in wanted.now unwanted.now (option_map (λ p. p.now) part.entry)) }
{
    both(
        texts_at(alloc, part, wanted),
        texts_or_none(alloc, part, unwanted),
    )
}

/// The texts of the list at a key; `None` where there is no list.
fn texts_at(alloc: Global, part: Option<&Json>, key: &str) -> Result<Option<Seq<Text>>, Memory>
    ensures { IfOk result (λ o. o ≡ texts_at key.now (option_map (λ p. p.now) part.entry)) }
{
    let Some(value) = field_at(part, key) else {
        return Ok(None);
    };
    let Some(items) = value.as_list() else {
        return Ok(None);
    };
    Ok(Some(texts_of(alloc, items.as_slice())?))
}

/// The texts of the list at a key; none where there is no list.
fn texts_or_none(alloc: Global, part: Option<&Json>, key: &str) -> Result<Seq<Text>, Memory>
    ensures { IfOk result (λ ts. ts ≡ texts_or_none key.now (option_map (λ p. p.now) part.entry)) }
{
    match texts_at(alloc, part, key)? {
        Some(texts) => Ok(texts),
        None => Ok(Seq::new(alloc)),
    }
}

fn texts_of(alloc: Global, items: &[Json]) -> Result<Seq<Text>, Memory>
    ensures { IfOk result (λ ts. ts ≡ texts_of items.now) }
{
    let mut texts = Seq::new(alloc);
    'items: for item in items {
        push_text(alloc, item, &mut texts)?;
    }
    Ok(texts)
}

fn push_text(alloc: Global, item: &Json, texts: &mut Seq<Text>) -> Result<(), Memory>
    ensures { OnOk result (texts.new ≡ texts.old ++ option_to_list (text_of item.now)) }
{
    if let Some(text) = item.as_text() {
        texts.push(text.copy(alloc)?)?;
    }
    Ok(())
}

/// The truth value at a key; false where there is none.
pub(crate) fn truth_at(part: Option<&Json>, key: &str) -> bool
    ensures { result ≡ truth_at key.now (option_map (λ p. p.now) part.entry) }
{
    match field_at(part, key) {
        Some(value) => value.as_bool().unwrap_or(false),
        None => false,
    }
}

/// The truth value at a key, if there is one.
pub(crate) fn choice_at(part: Option<&Json>, key: &str) -> Option<bool>
    ensures { result ≡ option_and_then bool_of (field_at key.now (option_map (λ p. p.now) part.entry)) }
{
    field_at(part, key)?.as_bool()
}

/// The limit of a part: 10 where it says none, and at most 1,000.
pub(crate) fn limit_in(part: Option<&Json>) -> u64
    ensures { result ≡ limit_in (option_map (λ p. p.now) part.entry) }
{
    let Some(value) = field_at(part, "limit") else {
        return 10;
    };
    match value.as_int() {
        Some(limit) => limit.clamp(0, 1000) as u64,
        None => 10,
    }
}

//! What stands in the body of a rule.
ghost use Rattle.std.specs.Prelude.{◌≡◌, IfOk, option_map};
ghost use Rattle.mx_rules.specs.Bodies.{items_of, text_or_none};

use mx_ids::{Copied, Memory, Seq, Text};
use mx_json::Json;
use std::alloc::Global;

/// The items of a list, and none where the value is no list.
pub(crate) fn items_of(alloc: Global, value: Option<&Json>) -> Result<Seq<Json>, Memory>
    ensures { IfOk result (λ js. js ≡ items_of (option_map (λ v. v.now) value.entry)) }
{
    let Some(value) = value else {
        return Ok(Seq::new(alloc));
    };
    match value.as_list() {
        Some(items) => items.copy(alloc),
        None => Ok(Seq::new(alloc)),
    }
}

/// The text at a key, and the empty one where no text stands there.
pub(crate) fn text_or_none(alloc: Global, body: &Json, key: &str) -> Result<Text, Memory>
    ensures { IfOk result (λ t. t ≡ text_or_none key.now body.now) }
{
    match body.text_at(key) {
        Some(text) => text.copy(alloc),
        None => Ok(Text::new(alloc)),
    }
}

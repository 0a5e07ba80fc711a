//! What is told of a value that is read.

ghost use Rattle.std.specs.Prelude.{◌≡◌, IfOk};
ghost use Rattle.std.specs.Option.{option_copied};
ghost use Rattle.mx_user_reads.specs.Told.{told};

use mx_ask::{Refusal, Said};
use mx_ids::{Copied, Memory};
use mx_json::Json;
use std::alloc::Global;

/// The value, or that it isn't there.
pub(crate) fn told(json: Option<Json>) -> Said
    ensures { result ≡ told json }
{
    match json {
        Some(json) => Said::Content(json),
        None => Said::Refused(Refusal::NotFound),
    }
}

/// A copy of the value, or that it isn't there.
pub(crate) fn told_copy(alloc: Global, json: Option<&Json>) -> Result<Said, Memory>
    ensures { IfOk result (λ s. s ≡ told (option_copied json.entry)) }
{
    match json {
        Some(json) => Ok(Said::Content(json.copy(alloc)?)),
        None => Ok(Said::Refused(Refusal::NotFound)),
    }
}

//! Texts of their own, and the object of an error.
ghost use Rattle.std.specs.Prelude.{◌≡◌, IfOk};
ghost use Rattle.mx_api.specs.Errors.{error_json};

use mx_ids::{Memory, Text};
use mx_json::{Json, Members};
use std::alloc::Global;

/// A text of its own with the same bytes.
pub fn text(alloc: Global, part: &str) -> Result<Text, Memory>
    ensures { IfOk result (λ text. text ≡ part.now) }
{
    Ok(Text::from_string(String::from_str(alloc, part)?))
}

/// The object of an error (Client-Server API, Standard error response).
pub fn error_json(alloc: Global, code: &str, error: Text) -> Result<Json, Memory>
    ensures { IfOk result (λ json. json ≡ error_json code.now error) }
{
    let mut object = Members::new(alloc);
    object.push(text(alloc, "errcode")?, Json::Text(text(alloc, code)?))?;
    object.push(text(alloc, "error")?, Json::Text(error))?;
    Ok(Json::Object(object))
}

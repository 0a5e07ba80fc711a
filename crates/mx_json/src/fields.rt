//! What stands in a value, and at a key of it.
ghost use Rattle.std.specs.Prelude.{◌≡◌, Some, None, if◌then◌else◌, option_map};
ghost use Rattle.mx_json.specs.Fields.{bool_of, field, int_at, int_of, is_object, list_of, members_of, text_at, text_of};

use crate::members::Members;
use crate::value::Json;
use mx_ids::{Seq, Text};

impl Json {
    /// The members of an object, or `None` where the value is no object.
    pub fn as_object(&self) -> Option<&Members<Json>>
        ensures { option_map (λ ms. ms.now) result ≡ (if is_object self.now then Some (members_of self.now) else None) }
    {
        match self {
            Json::Object(members) => Some(members),
            _ => None,
        }
    }

    /// The text that the value is, or `None` where it is no text.
    pub fn as_text(&self) -> Option<&Text>
        ensures { option_map (λ t. t.now) result ≡ text_of self.now }
    {
        match self {
            Json::Text(text) => Some(text),
            _ => None,
        }
    }

    /// The whole number that the value is, or `None` where it is no number.
    pub fn as_int(&self) -> Option<i64>
        ensures { result ≡ int_of self.now }
    {
        match self {
            Json::Int(number) => Some(*number),
            _ => None,
        }
    }

    /// The truth value that the value is, or `None` where it is none.
    pub fn as_bool(&self) -> Option<bool>
        ensures { result ≡ bool_of self.now }
    {
        match self {
            Json::Bool(truth) => Some(*truth),
            _ => None,
        }
    }

    /// The items of a list, or `None` where the value is no list.
    pub fn as_list(&self) -> Option<&Seq<Json>>
        ensures { option_map (λ js. js.now) result ≡ list_of self.now }
    {
        match self {
            Json::List(items) => Some(items),
            _ => None,
        }
    }

    /// The value at a key of an object, or `None` where there is none or the value is no object.
    pub fn field(&self, key: &str) -> Option<&Json>
        ensures { option_map (λ v. v.now) result ≡ field key.now self.now }
    {
        match self {
            Json::Object(members) => members.get(key),
            _ => None,
        }
    }

    /// The text at a key of an object, or `None` where no text stands there.
    pub fn text_at(&self, key: &str) -> Option<&Text>
        ensures { option_map (λ t. t.now) result ≡ text_at key.now self.now }
    {
        self.field(key)?.as_text()
    }

    /// The whole number at a key of an object, or `None` where no number stands there.
    pub fn int_at(&self, key: &str) -> Option<i64>
        ensures { result ≡ int_at key.now self.now }
    {
        self.field(key)?.as_int()
    }
}

//! The parts of a path on a user's data, and whose data they are.
ghost use Rattle.std.specs.Prelude.{◌≡◌};
ghost use Rattle.std.specs.Str.{bytes_eq};
ghost use Rattle.mx_api_user.specs.Parts.{five_parts};

use mx_ask::Who;
use mx_ids::{Seq, Text};

/// The parts, where there are five. Takes no memory.
pub(crate) fn five_parts(parts: Seq<Text>) -> Option<(Text, Text, Text, Text, Text)>
    ensures { result ≡ five_parts parts }
{
    let mut parts = parts.into_vec().into_iter();
    match (
        parts.next(),
        parts.next(),
        parts.next(),
        parts.next(),
        parts.next(),
        parts.next(),
    ) {
        (Some(first), Some(second), Some(third), Some(fourth), Some(fifth), None) => {
            Some((first, second, third, fourth, fifth))
        }
        _ => None,
    }
}

/// Whether a path's user is the caller.
pub(crate) fn is_caller(who: &Who, user: &Text) -> bool
    ensures { result ≡ bytes_eq who.now.user user.now }
{
    who.user.as_str() == user.as_str()
}

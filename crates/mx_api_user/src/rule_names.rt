//! The push rule that a path names.
ghost use Rattle.std.specs.Prelude.{◌≡◌};
ghost use Rattle.mx_api_user.specs.Rules.{kind_of, named, rule_of_four, rule_of_three};

use mx_api::{four_parts, three_parts};
use mx_ids::{Seq, Text};
use mx_rules::Kind;

/// The rule that a path of three parts names, `global`, its kind and its id; `None` where the kind isn't known.
pub(crate) fn rule_of_three(parts: Seq<Text>) -> Option<(Kind, Text)>
    ensures { result ≡ rule_of_three parts }
{
    let (_, word, id) = three_parts(parts)?;
    named(&word, id)
}

/// The same of a path of four parts, of which the last names something of the rule.
pub(crate) fn rule_of_four(parts: Seq<Text>) -> Option<(Kind, Text)>
    ensures { result ≡ rule_of_four parts }
{
    let (_, word, id, _) = four_parts(parts)?;
    named(&word, id)
}

/// The rule of a kind and an id, where the kind is known.
fn named(word: &Text, id: Text) -> Option<(Kind, Text)>
    ensures { result ≡ named word.now id }
{
    let kind = kind_of(word.as_str())?;
    Some((kind, id))
}

/// The kind of a name (Client-Server API, Push Rules).
fn kind_of(word: &str) -> Option<Kind>
    ensures { result ≡ kind_of word.now }
{
    match word {
        "override" => Some(Kind::Override),
        "content" => Some(Kind::Content),
        "room" => Some(Kind::Room),
        "sender" => Some(Kind::Sender),
        "underride" => Some(Kind::Underride),
        _ => None,
    }
}

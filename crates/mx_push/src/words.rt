//! Whether a word stands in a text between word boundaries.
ghost use Rattle.std.specs.Prelude.{◌≡◌};
ghost use Rattle.std.specs.Str.{chars};
ghost use Rattle.mx_glob.specs.Globs.{is_edge, is_word, place_of};
ghost use Rattle.mx_push.specs.Conditions.{is_boundary, stands_at, stands_in};

use mx_ids::split_first;

/// Whether the characters of a word stand one after the other in a text, between word boundaries: ends of the text, or
/// places beside a character that is no ASCII letter, digit or `_` (Client-Server API, Push rules, Conditions). The time is
/// at most the product of the two lengths.
pub(crate) fn stands_in(word: &str, text: &str) -> bool
    ensures { result ≡ stands_in word.now text.now }
{
    let mut before = None;
    let mut behind = text;
    'places: loop {
        if is_boundary(before, behind) && stands_at(word, before, behind) {
            return true;
        }
        match split_first(behind) {
            Some((first, rest)) => {
                before = Some(first);
                behind = rest;
            }
            None => return false,
        }
    }
}

/// Whether the characters stand at this place of a text, and a word ends behind them.
fn stands_at(word: &str, before: Option<char>, behind: &str) -> bool
    ensures { result ≡ stands_at (chars word.now) (place_of before behind.now) }
{
    let mut last = before;
    let mut left = word;
    let mut rest = behind;
    'word: while let Some((wanted, later)) = split_first(left) {
        match split_first(rest) {
            Some((found, after)) if found == wanted => {
                last = Some(found);
                rest = after;
            }
            _ => return false,
        }
        left = later;
    }
    is_boundary(last, rest)
}

/// Whether a word may begin or end between a character and a text.
fn is_boundary(before: Option<char>, behind: &str) -> bool
    ensures { result ≡ is_boundary (place_of before behind.now) }
{
    let next = match split_first(behind) {
        Some((first, _)) => Some(first),
        None => None,
    };
    is_edge(before) || is_edge(next)
}

fn is_edge(beside: Option<char>) -> bool
    ensures { result ≡ is_edge beside }
{
    match beside {
        Some(character) => !is_word(character),
        None => true,
    }
}

fn is_word(character: char) -> bool
    ensures { result ≡ is_word character }
{
    character.is_ascii_alphanumeric() || character == '_'
}

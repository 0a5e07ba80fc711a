//! The parameters of a page, and their forms.
ghost use Rattle.std.specs.Prelude.{◌≡◌, ◌≤◌, option_map};
ghost use Rattle.mx_api.specs.Queries.{begins_object, is_wrong};
ghost use Rattle.mx_api_reads.specs.Messages.{bound_at, bound_of, first_bad, is_bound, is_direction, is_limit, limit_in};

use mx_api::{Parameter, begins_object, first_wrong, number_within, page_token_of, sync_token_of};
use mx_http::parameter;
use mx_ids::Text;
use mx_pager::Bound;

/// How many events a page has at most, whatever is asked.
const MOST: u64 = 1000;

/// The first parameter of a query that isn't of its form. Of a repeated parameter the first counts, and unknown ones have no
/// effect.
#[tactic(auto, unfolding(crate::specs::Messages::first_bad))]
pub(crate) fn first_bad(query: &[(Text, Text)]) -> Option<Parameter>
    ensures { result ≡ first_bad query.now }
{
    let judged = [
        (Parameter::Dir, is_no_direction(parameter(query, "dir"))),
        (Parameter::From, is_no_bound(parameter(query, "from"))),
        (Parameter::To, is_no_bound(parameter(query, "to"))),
        (Parameter::Limit, is_no_limit(parameter(query, "limit"))),
        (Parameter::Filter, is_no_object(parameter(query, "filter"))),
    ];
    first_wrong(query, judged.as_slice())
}

fn is_no_direction(value: Option<&Text>) -> bool
    ensures { result ≡ is_wrong is_direction (option_map (λ v. v.now) value.entry) }
{
    match value {
        Some(text) => !is_direction(text.as_str()),
        None => false,
    }
}

fn is_direction(value: &str) -> bool
    ensures { result ≡ is_direction value.now }
{
    value == "b" || value == "f"
}

fn is_no_bound(value: Option<&Text>) -> bool
    ensures { result ≡ is_wrong is_bound (option_map (λ v. v.now) value.entry) }
{
    match value {
        Some(text) => bound_of(text.as_str()).is_none(),
        None => false,
    }
}

fn is_no_limit(value: Option<&Text>) -> bool
    ensures { result ≡ is_wrong is_limit (option_map (λ v. v.now) value.entry) }
{
    match value {
        Some(text) => number_within(text, MOST).is_none(),
        None => false,
    }
}

fn is_no_object(value: Option<&Text>) -> bool
    ensures { result ≡ is_wrong begins_object (option_map (λ v. v.now) value.entry) }
{
    match value {
        Some(text) => !begins_object(text.as_str().as_bytes()),
        None => false,
    }
}

/// The bound that a text is: a sync token or a page token.
fn bound_of(value: &str) -> Option<Bound>
    ensures { result ≡ bound_of value.now }
{
    match sync_token_of(value) {
        Some(token) => Some(Bound::Sync(token)),
        None => Some(Bound::Page(page_token_of(value)?)),
    }
}

/// The bound that the first parameter of a name is.
pub(crate) fn bound_at(query: &[(Text, Text)], name: &str) -> Option<Bound>
    ensures { result ≡ bound_at name.now query.now }
{
    bound_of(parameter(query, name)?.as_str())
}

/// How many events are asked for: 10 where the query doesn't say, and at most 1,000.
pub(crate) fn limit_in(query: &[(Text, Text)]) -> u64
    ensures limit { result ≡ limit_in query.now }
    ensures cut { result ≤ 1000 }
{
    match parameter(query, "limit") {
        Some(text) => number_within(text, MOST).unwrap_or(10),
        None => 10,
    }
}

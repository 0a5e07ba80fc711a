//! The parameters of a sync.
ghost use Rattle.std.specs.Prelude.{◌≡◌, ◌≤◌, option_map};
ghost use Rattle.mx_api.specs.Queries.{is_number, is_wrong};
ghost use Rattle.mx_api_user.specs.Queries.{first_bad, is_after, is_filter, is_full, is_token, is_timeout, is_truth, says_true, since_in, timeout_in};

use mx_api::{Parameter, begins_object, first_wrong, number_within, sync_token_of};
use mx_http::parameter;
use mx_ids::{SyncToken, Text};

/// A sync waits for at most so many milliseconds.
const MOST_TIMEOUT: u64 = 300_000;

/// The first parameter of a query that isn't of its form. Of a repeated parameter the first counts, and unknown ones have no
/// effect (Client-Server API, Syncing).
#[tactic(auto, unfolding(crate::specs::Queries::first_bad))]
pub(crate) fn first_bad(query: &[(Text, Text)]) -> Option<Parameter>
    ensures { result ≡ first_bad query.now }
{
    let judged = [
        (Parameter::Since, is_no_token(parameter(query, "since"))),
        (
            Parameter::FullState,
            is_no_truth(parameter(query, "full_state")),
        ),
        (
            Parameter::UseStateAfter,
            is_no_truth(parameter(query, "use_state_after")),
        ),
        (
            Parameter::Timeout,
            is_no_timeout(parameter(query, "timeout")),
        ),
        (Parameter::Filter, is_no_filter(parameter(query, "filter"))),
    ];
    first_wrong(query, judged.as_slice())
}

/// The token of `since`, if it is one.
pub(crate) fn since_in(query: &[(Text, Text)]) -> Option<SyncToken>
    ensures { result ≡ since_in query.now }
{
    sync_token_of(parameter(query, "since")?.as_str())
}

/// Whether the whole state is asked for.
pub(crate) fn is_full(query: &[(Text, Text)]) -> bool
    ensures { result ≡ is_full query.now }
{
    says_true(parameter(query, "full_state"))
}

/// Whether the state at the end of each timeline is asked for, and not that at its beginning.
pub(crate) fn is_after(query: &[(Text, Text)]) -> bool
    ensures { result ≡ is_after query.now }
{
    says_true(parameter(query, "use_state_after"))
}

fn says_true(value: Option<&Text>) -> bool
    ensures { result ≡ says_true (option_map (λ v. v.now) value.entry) }
{
    match value {
        Some(text) => text.as_str() == "true",
        None => false,
    }
}

/// How long the sync may wait, in milliseconds: not at all where the query doesn't say, and at most 300,000.
pub(crate) fn timeout_in(query: &[(Text, Text)]) -> u64
    ensures timeout { result ≡ timeout_in query.now }
    ensures cut { result ≤ 300000 }
{
    match parameter(query, "timeout") {
        Some(text) => number_within(text, MOST_TIMEOUT).unwrap_or(0),
        None => 0,
    }
}

fn is_no_token(value: Option<&Text>) -> bool
    ensures { result ≡ is_wrong is_token (option_map (λ v. v.now) value.entry) }
{
    match value {
        Some(text) => sync_token_of(text.as_str()).is_none(),
        None => false,
    }
}

fn is_no_truth(value: Option<&Text>) -> bool
    ensures { result ≡ is_wrong is_truth (option_map (λ v. v.now) value.entry) }
{
    match value {
        Some(text) => !is_truth(text.as_str()),
        None => false,
    }
}

fn is_truth(value: &str) -> bool
    ensures { result ≡ is_truth value.now }
{
    value == "true" || value == "false"
}

fn is_no_timeout(value: Option<&Text>) -> bool
    ensures { result ≡ is_wrong is_timeout (option_map (λ v. v.now) value.entry) }
{
    match value {
        Some(text) => number_within(text, MOST_TIMEOUT).is_none(),
        None => false,
    }
}

fn is_no_filter(value: Option<&Text>) -> bool
    ensures { result ≡ is_wrong is_filter (option_map (λ v. v.now) value.entry) }
{
    match value {
        Some(text) => !is_filter(text),
        None => false,
    }
}

/// Whether the text is the id of a stored filter, in digits, or begins an object.
fn is_filter(text: &Text) -> bool
    ensures { result ≡ is_filter text.now }
{
    begins_object(text.as_str().as_bytes()) || is_number(text)
}

fn is_number(text: &Text) -> bool
    ensures { result ≡ is_number text.now }
{
    number_within(text, 0).is_some()
}

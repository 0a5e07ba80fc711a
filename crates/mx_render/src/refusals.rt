//! What an error answer says of a refusal.
ghost use Rattle.std.specs.Prelude.{◌≡◌, IfOk};
ghost use Rattle.mx_render.specs.Errors.{code_of, status_of, text_of};

use mx_api::text;
use mx_ask::Refusal;
use mx_ids::{Memory, Text};
use mx_rules::Side;
use std::alloc::Global;

/// The status of the answer.
pub(crate) fn status_of(refusal: Refusal) -> u16
    ensures { result ≡ status_of refusal }
{
    match refusal {
        Refusal::NotFound => 404,
        Refusal::TooLarge => 413,
        Refusal::Forbidden | Refusal::Denied(_) => 403,
        Refusal::Full(_) | Refusal::Lost => 500,
        Refusal::TokenAhead { .. }
        | Refusal::Version
        | Refusal::Preset
        | Refusal::TooMany
        | Refusal::State(_)
        | Refusal::DefaultRule
        | Refusal::BadCondition
        | Refusal::BadAction
        | Refusal::NoNeighbour(_) => 400,
    }
}

/// The error code (Client-Server API, Standard error response).
pub(crate) fn code_of(refusal: Refusal) -> &'static str
    ensures { result.now ≡ code_of refusal }
{
    match refusal {
        Refusal::NotFound => "M_NOT_FOUND",
        Refusal::TooLarge => "M_TOO_LARGE",
        Refusal::Forbidden | Refusal::Denied(_) => "M_FORBIDDEN",
        Refusal::Version => "M_UNSUPPORTED_ROOM_VERSION",
        Refusal::TokenAhead { .. }
        | Refusal::Preset
        | Refusal::TooMany
        | Refusal::DefaultRule
        | Refusal::NoNeighbour(_) => "M_INVALID_PARAM",
        Refusal::State(_) => "M_INVALID_ROOM_STATE",
        Refusal::BadCondition | Refusal::BadAction => "M_BAD_JSON",
        Refusal::Full(_) => "ORG_MXSYNC_FULL",
        Refusal::Lost => "ORG_MXSYNC_JOURNAL",
    }
}

/// The text of the error.
pub(crate) fn text_of(alloc: Global, refusal: Refusal) -> Result<Text, Memory>
    ensures { IfOk result (λ text. text ≡ text_of refusal) }
{
    match refusal {
        Refusal::NotFound => text(alloc, "not found"),
        Refusal::TooLarge => text(alloc, "too large"),
        Refusal::Forbidden => text(alloc, "forbidden"),
        Refusal::Version => text(alloc, "unsupported room version"),
        Refusal::Preset => text(alloc, "invalid parameter: preset"),
        Refusal::TooMany => text(alloc, "invalid parameter: initial_state"),
        Refusal::DefaultRule => text(alloc, "invalid parameter: ruleId"),
        Refusal::BadCondition => text(alloc, "bad JSON: conditions"),
        Refusal::BadAction => text(alloc, "bad JSON: actions"),
        Refusal::NoNeighbour(Side::Before) => text(alloc, "invalid parameter: before"),
        Refusal::NoNeighbour(Side::After) => text(alloc, "invalid parameter: after"),
        Refusal::TokenAhead { asked, front } => ahead_text(alloc, asked, front),
        Refusal::Denied(rule) => denied_text(alloc, rule),
        Refusal::State(rule) => state_text(alloc, rule),
        Refusal::Full(next) => full_text(alloc, next),
        Refusal::Lost => text(alloc, "the journal has failed"),
    }
}

fn ahead_text(alloc: Global, asked: u64, front: u64) -> Result<Text, Memory>
    ensures { IfOk result (λ text. text ≡ text_of (Refusal.TokenAhead asked front)) }
{
    let text = format!(in alloc; "token ahead: {asked} > {front}")?;
    Ok(Text::from_string(text))
}

fn denied_text(alloc: Global, rule: u8) -> Result<Text, Memory>
    ensures { IfOk result (λ text. text ≡ text_of (Refusal.Denied rule)) }
{
    let text = format!(in alloc; "forbidden by rule {rule}")?;
    Ok(Text::from_string(text))
}

fn state_text(alloc: Global, rule: u8) -> Result<Text, Memory>
    ensures { IfOk result (λ text. text ≡ text_of (Refusal.State rule)) }
{
    let text = format!(in alloc; "refused by rule {rule}")?;
    Ok(Text::from_string(text))
}

fn full_text(alloc: Global, next: u64) -> Result<Text, Memory>
    ensures { IfOk result (λ text. text ≡ text_of (Refusal.Full next)) }
{
    let text = format!(in alloc; "full at {next}")?;
    Ok(Text::from_string(text))
}

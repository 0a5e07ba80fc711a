//! Push rules.
ghost use Rattle.std.specs.Prelude.{◌≡◌, IfOk};
ghost use Rattle.mx_api.specs.Calls.{IsAsked};
ghost use Rattle.mx_api_user.specs.Rules.{actions_asked, enabled_asked, enabled_in, enabled_put, rule_asked, rule_put, rules_asked};

use crate::rule_names::{rule_of_four, rule_of_three};
use mx_api::{Asked, Authenticated, Field, Refused, object_body, value_at};
use mx_ask::{Ask, Request, Who};
use mx_ids::{Memory, Text};
use mx_json::Json;
use mx_rules::Kind;
use std::alloc::Global;

/// To read all push rules, or those of the global set alone (Client-Server API, Push Rules: API).
pub(crate) fn all_rules(who: Who, inner: bool) -> Asked
    ensures asked { result ≡ rules_asked who inner }
    ensures sound { IsAsked result }
{
    let ask = Ask::PushRules { inner };
    Asked::Request(Request { who, ask })
}

/// To read, remove or put a push rule, by the method (Client-Server API, Push Rules: API).
#[tactic(auto, unfolding(crate::specs::Rules::rule_asked))]
pub(crate) fn rule(
    alloc: Global,
    method: &str,
    call: Authenticated,
    body: &[u8],
) -> Result<Asked, Memory>
    ensures asked { IfOk result (λ asked. asked ≡ rule_asked method.now call body.now) }
    ensures sound { IfOk result (λ asked. IsAsked asked) }
{
    let who = call.who;
    let query = call.query;
    let Some((kind, id)) = rule_of_three(call.parts) else {
        return Ok(Asked::Refused(Refused::BadPath));
    };
    if method == "GET" {
        let ask = Ask::GetRule { kind, id };
        return Ok(Asked::Request(Request { who, ask }));
    }
    if method == "DELETE" {
        let ask = Ask::DeleteRule { kind, id };
        return Ok(Asked::Request(Request { who, ask }));
    }
    match object_body(alloc, body)? {
        Ok(body) => put_rule(alloc, who, (kind, id), query.as_slice(), body),
        Err(refused) => Ok(Asked::Refused(refused)),
    }
}

/// To put a rule, with the neighbours that the query names.
fn put_rule(
    alloc: Global,
    who: Who,
    rule: (Kind, Text),
    query: &[(Text, Text)],
    body: Json,
) -> Result<Asked, Memory>
    ensures asked { IfOk result (λ asked. asked ≡ rule_put who rule query.now body) }
    ensures sound { IfOk result (λ asked. IsAsked asked) }
{
    let (kind, id) = rule;
    let before = value_at(alloc, query, "before")?;
    let after = value_at(alloc, query, "after")?;
    let ask = Ask::PutRule {
        kind,
        id,
        body,
        before,
        after,
    };
    Ok(Asked::Request(Request { who, ask }))
}

/// To read or set whether a push rule is enabled, by the method (Client-Server API, Push Rules: API).
#[tactic(auto, unfolding(crate::specs::Rules::enabled_asked))]
pub(crate) fn enabled(
    alloc: Global,
    method: &str,
    call: Authenticated,
    body: &[u8],
) -> Result<Asked, Memory>
    ensures asked { IfOk result (λ asked. asked ≡ enabled_asked method.now call body.now) }
    ensures sound { IfOk result (λ asked. IsAsked asked) }
{
    let who = call.who;
    let Some((kind, id)) = rule_of_four(call.parts) else {
        return Ok(Asked::Refused(Refused::BadPath));
    };
    if method == "GET" {
        let ask = Ask::GetEnabled { kind, id };
        return Ok(Asked::Request(Request { who, ask }));
    }
    match object_body(alloc, body)? {
        Ok(body) => Ok(put_enabled(who, (kind, id), enabled_in(&body))),
        Err(refused) => Ok(Asked::Refused(refused)),
    }
}

/// The truth value `enabled` of a body, if one stands there.
fn enabled_in(body: &Json) -> Option<bool>
    ensures { result ≡ enabled_in body.now }
{
    body.field("enabled")?.as_bool()
}

/// To set whether a rule is enabled, where the body says it.
fn put_enabled(who: Who, rule: (Kind, Text), on: Option<bool>) -> Asked
    ensures asked { result ≡ enabled_put who rule on }
    ensures sound { IsAsked result }
{
    let Some(on) = on else {
        return Asked::Refused(Refused::BadShape(Field::Enabled));
    };
    let (kind, id) = rule;
    let ask = Ask::PutEnabled { kind, id, on };
    Asked::Request(Request { who, ask })
}

/// To read or set the actions of a push rule, by the method (Client-Server API, Push Rules: API). The body of a put is an
/// object, whose key `actions` isn't judged here.
#[tactic(auto, unfolding(crate::specs::Rules::actions_asked))]
pub(crate) fn actions(
    alloc: Global,
    method: &str,
    call: Authenticated,
    body: &[u8],
) -> Result<Asked, Memory>
    ensures asked { IfOk result (λ asked. asked ≡ actions_asked method.now call body.now) }
    ensures sound { IfOk result (λ asked. IsAsked asked) }
{
    let who = call.who;
    let Some((kind, id)) = rule_of_four(call.parts) else {
        return Ok(Asked::Refused(Refused::BadPath));
    };
    if method == "GET" {
        let ask = Ask::GetActions { kind, id };
        return Ok(Asked::Request(Request { who, ask }));
    }
    match object_body(alloc, body)? {
        Ok(body) => {
            let ask = Ask::PutActions { kind, id, body };
            Ok(Asked::Request(Request { who, ask }))
        }
        Err(refused) => Ok(Asked::Refused(refused)),
    }
}

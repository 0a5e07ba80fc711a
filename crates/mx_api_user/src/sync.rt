//! A sync.
ghost use Rattle.std.specs.Prelude.{◌≡◌, IfOk};
ghost use Rattle.mx_api.specs.Calls.{IsAsked};
ghost use Rattle.mx_api_user.specs.Sync.{sync_asked};

use crate::filters::filter_asked;
use crate::sync_query::{first_bad, is_after, is_full, since_in, timeout_in};
use mx_api::{Asked, Authenticated, Refused};
use mx_ask::{Ask, Request};
use mx_http::parameter;
use mx_ids::Memory;
use std::alloc::Global;

/// A sync (Client-Server API, Syncing). The first refusal that applies: `BadParameter` with the first parameter of the query
/// that isn't of its form, and then those of `filter_asked`.
#[tactic(auto, unfolding(crate::specs::Sync::sync_asked))]
pub(crate) fn sync(alloc: Global, call: Authenticated) -> Result<Asked, Memory>
    ensures asked { IfOk result (λ asked. asked ≡ sync_asked call) }
    ensures sound { IfOk result (λ asked. IsAsked asked) }
{
    let who = call.who;
    let query = call.query;
    let query = query.as_slice();
    if let Some(bad) = first_bad(query) {
        return Ok(Asked::Refused(Refused::BadParameter(bad)));
    }
    match filter_asked(alloc, parameter(query, "filter"))? {
        Ok(filter) => {
            let ask = Ask::Sync {
                since: since_in(query),
                filter,
                full_state: is_full(query),
                after: is_after(query),
                timeout: timeout_in(query),
            };
            Ok(Asked::Request(Request { who, ask }))
        }
        Err(refused) => Ok(Asked::Refused(refused)),
    }
}

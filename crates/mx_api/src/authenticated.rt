//! Who calls, and what a route reads of the target.
ghost use Rattle.std.specs.Prelude.{◌≡◌, IfOk};
ghost use Rattle.mx_http.specs.Queries.{access_token};
ghost use Rattle.mx_api.specs.Calls.{authenticated, caller_in, with_parts};

use crate::parts::parts_behind;
use crate::refused::Refused;
use mx_ask::Who;
use mx_http::{Call, access_token, path, query};
use mx_ids::{Copied, Memory, Seq, Text};
use mx_users::Directory;
use std::alloc::Global;

/// A call whose access token a device has.
#[derive(Drop)]
pub struct Authenticated {
    /// Who calls.
    pub who: Who,
    /// The parts of the path behind its fifth slash, decoded: those behind `/_matrix/client/v3/` and one more part.
    pub parts: Seq<Text>,
    /// The names and values of the query, in order.
    pub query: Seq<(Text, Text)>,
}

/// The caller of a call by its access token (Client-Server API, Using access tokens), with the parts of the path and the
/// query. The first refusal that applies: `NoToken` where the call has no token, `UnknownToken` where no device has it,
/// `BadPath` where a part of the path isn't UTF-8 once it is decoded.
#[tactic(auto, unfolding(crate::specs::Calls::authenticated))]
pub fn authenticate(
    alloc: Global,
    call: &Call,
    directory: &Directory,
) -> Result<Result<Authenticated, Refused>, Memory>
    ensures { IfOk result (λ r. r ≡ authenticated directory.now call.now) }
{
    let query = query(alloc, &call.target)?;
    match caller(alloc, call, query.as_slice(), directory)? {
        Ok(who) => with_parts(alloc, who, query, path(&call.target)),
        Err(refused) => Ok(Err(refused)),
    }
}

/// Who calls.
fn caller(
    alloc: Global,
    call: &Call,
    query: &[(Text, Text)],
    directory: &Directory,
) -> Result<Result<Who, Refused>, Memory>
    ensures { IfOk result (λ r. r ≡ caller_in directory.now (access_token call.now.bearer query.now)) }
{
    let Some(token) = access_token(call, query) else {
        return Ok(Err(Refused::NoToken));
    };
    match directory.caller(token) {
        Some((user, device)) => Ok(Ok(Who {
            user: user.copy(alloc)?,
            device,
        })),
        None => Ok(Err(Refused::UnknownToken)),
    }
}

/// The call of a caller, with the parts of its path.
fn with_parts(
    alloc: Global,
    who: Who,
    query: Seq<(Text, Text)>,
    path: &str,
) -> Result<Result<Authenticated, Refused>, Memory>
    ensures { IfOk result (λ r. r ≡ with_parts path.now query who) }
{
    match parts_behind(alloc, path)? {
        Some(parts) => Ok(Ok(Authenticated { who, parts, query })),
        None => Ok(Err(Refused::BadPath)),
    }
}

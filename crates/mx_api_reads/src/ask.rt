//! What a call asks.
ghost use Rattle.std.specs.Prelude.{◌≡◌, IfOk};
ghost use Rattle.mx_api.specs.Calls.{IsAsked};
ghost use Rattle.mx_api_reads.specs.Asked.{read_asked};
ghost use Rattle.mx_api_reads.specs.Routes.{table};

use crate::route::{ROUTES, Route};
use matchit::Router;
use mx_api::{Asked, TableFault, ask_at, router_of};
use mx_http::Call;
use mx_ids::Memory;
use mx_users::Directory;
use std::alloc::Global;

/// The table of the routes that read rooms.
#[derive(Drop)]
pub struct ReadRoutes {
    router: Router<Route>,
    ghost whole: { router ≡ table },
}

/// The table. `Memory` where there is no room for it.
#[tactic(auto, unfolding(crate::specs::Routes::table))]
pub fn read_routes(alloc: Global) -> Result<ReadRoutes, Memory> {
    match router_of(alloc, ROUTES.as_slice()) {
        Ok(router) => Ok(ReadRoutes { router }),
        Err(TableFault::Memory(refused)) => Err(refused),
        Err(TableFault::Conflict) => unreachable!(),
    }
}

/// What a call that reads rooms asks, or marks as read (Client-Server API, Getting events for a room, Receipts, Fully read
/// markers), or the first refusal that applies; `NoRoute` where its path finds none of these routes. The limit of a page that
/// is asked for is at most 1,000. Costs the length of the path, a look-up of the token, and what its parameters and body take.
#[tactic(auto, unfolding(crate::specs::Asked::read_asked))]
pub fn ask_read(
    alloc: Global,
    routes: &ReadRoutes,
    call: &Call,
    directory: &Directory,
) -> Result<Asked, Memory>
    ensures asked { IfOk result (λ asked. asked ≡ read_asked directory.now call.now) }
    ensures sound { IfOk result (λ asked. IsAsked asked) }
{
    ask_at(alloc, &routes.router, call, directory)
}

//! What a call asks.
ghost use Rattle.std.specs.Prelude.{◌≡◌, IfOk};
ghost use Rattle.mx_api.specs.Calls.{IsAsked};
ghost use Rattle.mx_api_user.specs.Asked.{user_asked};
ghost use Rattle.mx_api_user.specs.Routes.{table};

use crate::route::{ROUTES, Route};
use matchit::Router;
use mx_api::{Asked, TableFault, ask_at, router_of};
use mx_http::Call;
use mx_ids::Memory;
use mx_users::Directory;
use std::alloc::Global;

/// The table of the routes on a user's own data.
#[derive(Drop)]
pub struct UserRoutes {
    router: Router<Route>,
    ghost whole: { router ≡ table },
}

/// The table. `Memory` where there is no room for it.
#[tactic(auto, unfolding(crate::specs::Routes::table))]
pub fn user_routes(alloc: Global) -> Result<UserRoutes, Memory> {
    match router_of(alloc, ROUTES.as_slice()) {
        Ok(router) => Ok(UserRoutes { router }),
        Err(TableFault::Memory(refused)) => Err(refused),
        Err(TableFault::Conflict) => unreachable!(),
    }
}

/// What a call asks on a user's own data (Client-Server API), or the first refusal that applies; `NoRoute` where its path
/// finds none of these routes. Costs the length of the path, a look-up of the token, and what its parameters and body take.
#[tactic(auto, unfolding(crate::specs::Asked::user_asked))]
pub fn ask_user(
    alloc: Global,
    routes: &UserRoutes,
    call: &Call,
    directory: &Directory,
) -> Result<Asked, Memory>
    ensures asked { IfOk result (λ asked. asked ≡ user_asked directory.now call.now) }
    ensures sound { IfOk result (λ asked. IsAsked asked) }
{
    ask_at(alloc, &routes.router, call, directory)
}

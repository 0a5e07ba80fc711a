//! What a call asks.
ghost use Rattle.std.specs.Prelude.{◌≡◌, IfOk};
ghost use Rattle.mx_api.specs.Calls.{IsAsked};
ghost use Rattle.mx_api_room.specs.Asked.{room_asked};
ghost use Rattle.mx_api_room.specs.Routes.{table};

use crate::route::{ROUTES, Route};
use matchit::Router;
use mx_api::{Asked, TableFault, ask_at, router_of};
use mx_http::Call;
use mx_ids::Memory;
use mx_users::Directory;
use std::alloc::Global;

/// The table of the routes on rooms.
#[derive(Drop)]
pub struct RoomRoutes {
    router: Router<Route>,
    ghost whole: { router ≡ table },
}

/// The table. `Memory` where there is no room for it.
#[tactic(auto, unfolding(crate::specs::Routes::table))]
pub fn room_routes(alloc: Global) -> Result<RoomRoutes, Memory> {
    match router_of(alloc, ROUTES.as_slice()) {
        Ok(router) => Ok(RoomRoutes { router }),
        Err(TableFault::Memory(refused)) => Err(refused),
        Err(TableFault::Conflict) => unreachable!(),
    }
}

/// What a call asks on a room (Client-Server API), or the first refusal that applies; `NoRoute` where its path finds none
/// of these routes. What is asked meets the conditions of the engine's calls: the body of a creation has its form, and the
/// path of a transaction names its room. Costs the length of the path, a look-up of the token, and what its body takes.
#[tactic(auto, unfolding(crate::specs::Asked::room_asked))]
pub fn ask_room(
    alloc: Global,
    routes: &RoomRoutes,
    call: &Call,
    directory: &Directory,
) -> Result<Asked, Memory>
    ensures asked { IfOk result (λ asked. asked ≡ room_asked directory.now call.now) }
    ensures sound { IfOk result (λ asked. IsAsked asked) }
{
    ask_at(alloc, &routes.router, call, directory)
}

//! The table of the endpoints of a crate, and the endpoint of a path.
ghost use Rattle.std.specs.Prelude.{◌≡◌, false, IfOk, IsErrOf, option_map};
ghost use Rattle.matchit.specs.Seek.{first};
ghost use Rattle.mx_api.specs.Routing.{are_apart, rows_of};

use crate::endpoint::Endpoint;
use matchit::{InsertError, Router};
use mx_ids::Memory;
use std::alloc::{AllocError, Global};

/// Why there is no table of endpoints.
#[derive(Clone, Copy, Debug, PartialEq, Eq)]
pub enum TableFault {
    /// A path isn't of the router's form, or conflicts with one before it.
    Conflict,
    /// Want of memory.
    Memory(Memory),
}

/// The table of endpoints by their paths. `Conflict` only where a path isn't of the router's form or conflicts with one
/// before it.
pub fn router_of<E: Endpoint>(alloc: Global, endpoints: &[E]) -> Result<Router<E>, TableFault>
    ensures table { IfOk result (λ router. router ≡ rows_of E.path endpoints.now) }
    ensures conflict { IsErrOf result TableFault.Conflict → are_apart E.path endpoints.now ≡ false }
{
    let mut router = Router::new(alloc);
    'endpoints: for endpoint in endpoints {
        if let Err(error) = router.insert(endpoint.path(), *endpoint) {
            return Err(table_fault(error));
        }
    }
    Ok(router)
}

/// Why there is no table where a path was refused.
fn table_fault(error: InsertError) -> TableFault
    ensures { result ≡ TableFault.Conflict → error ≡ InsertError.OutOfMemory → ⊥ }
{
    match error {
        InsertError::OutOfMemory => TableFault::Memory(AllocError.into()),
        _ => TableFault::Conflict,
    }
}

/// The endpoint that a path finds. Takes no memory.
pub(crate) fn route_at<E: Endpoint>(router: &Router<E>, path: &str) -> Option<E>
    ensures { result ≡ option_map (λ row. row.value) (first router.now path.now) }
{
    match router.at(path) {
        Ok(found) => Some(*found.value),
        Err(_) => None,
    }
}

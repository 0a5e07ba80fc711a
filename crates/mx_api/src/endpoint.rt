//! Endpoints, and what a call asks by a table of them.
ghost use Rattle.std.specs.Prelude.{◌≡◌, ℕ, Bool, List, IfOk, Some};
ghost use Rattle.mx_api.specs.Calls.{IsAsked};
ghost use Rattle.mx_api.specs.Endpoints.{asked_at, asked_on};
ghost use Rattle.mx_api.specs.declared.asked.Asked.{Asked as What};
ghost use Rattle.mx_api.specs.declared.authenticated.Authenticated.{Authenticated as Caller};

use crate::asked::Asked;
use crate::authenticated::{Authenticated, authenticate};
use crate::refused::Refused;
use crate::routing::route_at;
use matchit::Router;
use mx_http::{Call, path};
use mx_ids::Memory;
use mx_users::Directory;
use std::alloc::Global;

/// An endpoint (Client-Server API): a path with parameters in braces, the methods that it has, and what a call on it asks.
pub trait Endpoint: Copy + Drop {
    ghost path: { Self → List ℕ };

    ghost has_method: { Self → List ℕ → Bool };

    // What is asked by a method and a body, of a caller.
    ghost asks: { Self → List ℕ → List ℕ → Caller → What };

    /// The path, with its parameters.
    fn path(self) -> &'static str
        ensures { result.now ≡ path self };

    /// Whether the path has a method.
    fn has_method(self, method: &str) -> bool
        ensures { result ≡ has_method self method.now };

    /// What a caller asks, or the first refusal that applies.
    fn ask(
        self,
        alloc: Global,
        method: &str,
        body: &[u8],
        caller: Authenticated,
    ) -> Result<Asked, Memory>
        ensures asked { IfOk result (λ what. what ≡ asks self method.now body.now caller) }
        ensures sound { IfOk result (λ what. IsAsked what) };
}

/// What a call asks by the endpoint that its path finds in a table, or the first refusal that applies: `NoMethod` where the
/// path has another method, those of `authenticate`, and those of the endpoint. `NoRoute` where the path finds none.
#[tactic(auto, unfolding(crate::specs::Endpoints::asked_at))]
pub fn ask_at<E: Endpoint>(
    alloc: Global,
    table: &Router<E>,
    call: &Call,
    directory: &Directory,
) -> Result<Asked, Memory>
    ensures asked { IfOk result (λ what. what ≡ asked_at E.has_method E.asks table.now directory.now call.now) }
    ensures sound { IfOk result (λ what. IsAsked what) }
{
    match route_at(table, path(&call.target)) {
        Some(endpoint) => ask_on(alloc, endpoint, call, directory),
        None => Ok(Asked::NoRoute),
    }
}

/// What a call asks on its endpoint.
fn ask_on<E: Endpoint>(
    alloc: Global,
    endpoint: E,
    call: &Call,
    directory: &Directory,
) -> Result<Asked, Memory>
    ensures asked { IfOk result (λ what. what ≡ asked_on E.has_method E.asks directory.now call.now (Some endpoint)) }
    ensures sound { IfOk result (λ what. IsAsked what) }
{
    let method = call.method.as_str();
    if !endpoint.has_method(method) {
        return Ok(Asked::Refused(Refused::NoMethod));
    }
    match authenticate(alloc, call, directory)? {
        Ok(caller) => endpoint.ask(alloc, method, call.body.as_slice(), caller),
        Err(refused) => Ok(Asked::Refused(refused)),
    }
}

//! The server that connections are served on.
ghost use Rattle.std.specs.Prelude.{◌≡◌, IfOk};

use crate::call_asked::Routes;
use mx_ids::Memory;
use mx_poll::{Engine, Outside};
use std::alloc::Global;

/// What the connections of a homeserver share: its engine, the routes of the calls, and how many requests each of them is served.
#[derive(Drop)]
pub struct Server<G: Outside> {
    pub(crate) engine: Engine<G>,
    pub(crate) routes: Routes,
    pub(crate) limit: u64,
}

impl<G: Outside> Server<G> {
    /// A server on an engine, which serves each connection `limit` requests. `Memory` where there is no room for the tables of its
    /// routes.
    pub fn new(alloc: Global, engine: Engine<G>, limit: u64) -> Result<Server<G>, Memory>
        ensures engine { IfOk result (λ s. s.engine ≡ engine) }
        ensures limit { IfOk result (λ s. s.limit ≡ limit) }
    {
        Ok(Server {
            engine,
            routes: Routes::new(alloc)?,
            limit,
        })
    }

    /// The engine.
    pub fn engine(&self) -> &Engine<G>
        ensures { result.now ≡ self.now.engine }
    {
        &self.engine
    }

    /// How many requests each connection is served.
    pub fn limit(&self) -> u64
        ensures { result ≡ self.now.limit }
    {
        self.limit
    }
}

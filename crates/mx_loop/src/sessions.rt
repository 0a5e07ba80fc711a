//! The sessions of one thread.
ghost use Rattle.mx_loop.specs.Turns.{AreHeld, are_held_prop};

use crate::opened::Watch;
use crate::session::Session;
use mx_http::Scratch;
use mx_poll::EnginePass;

/// The places of one thread's sessions, and the pass of the engine that these share.
#[derive(Drop)]
pub struct Sessions<P> {
    pub(crate) pass: EnginePass,
    pub(crate) watch: Watch,
    pub(crate) scratch: Scratch,
    pub(crate) all: Vec<Option<Session<P>>>,
    ghost held: { AreHeld pass all.items } by { are_held_prop pass all.items },
}

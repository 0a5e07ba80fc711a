//! One connection of a server, as a job.
ghost use Rattle.mx_pool.specs.Connections.{ends};

use crate::pool::Pool;
use crate::seated::{Seating, Taken};
use mx_outside::{Clock, Job, Sink, Source};
use mx_serve::Outside;
use std::alloc::Global;
use std::rt;
use std::sync::{Arc, Wait};

/// A connection with the seat that it has. Where it is dropped it isn't begun, and its seat goes back.
pub struct Connection<
    N: Seating,
    G: Outside,
    S: Source + Drop,
    K: Sink + Drop,
    C: Drop,
    R: Wait + Drop,
> {
    pub(crate) pool: Arc<Pool<N, G>>,
    pub(crate) seat: Taken<N>,
    pub(crate) input: S,
    pub(crate) output: K,
    pub(crate) clock: C,
    pub(crate) alloc: Global,
    pub(crate) rt: R,
    ghost kind: { ∥ N.is_kind (ends (S.left input) (K.written output) (S.faults input) (K.faults output)) ∥₁ },
}

impl<
    N: Seating,
    G: Outside,
    S: Source + Drop,
    K: Sink + Drop,
    C: Clock + Drop,
    R: Wait + rt::Clock + Drop,
> Job for Connection<N, G, S, K, C, R> {
    /// Serves the connection up to its end, and gives its seat back.
    fn run(self) {
        let Connection {
            pool,
            seat,
            mut input,
            mut output,
            mut clock,
            alloc,
            rt,
        } = self;
        let server = pool.server();
        let seat = seat.serve(&rt, alloc, server, &mut input, &mut output, &mut clock);
        pool.give(&rt, seat);
    }
}

impl<N: Seating, G: Outside, S: Source + Drop, K: Sink + Drop, C: Drop, R: Wait + Drop> Drop
    for Connection<N, G, S, K, C, R> {
    /// Gives the seat back.
    fn drop(self) {
        let Connection {
            pool,
            seat,
            input: _,
            output: _,
            clock: _,
            alloc: _,
            rt,
        } = self;
        pool.leave(&rt, seat);
    }
}

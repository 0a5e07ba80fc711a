//! Seats of a server: each has a pass of its engine, with what was served by it.
ghost use Rattle.std.specs.Prelude.{◌≡◌, ◌+◌};
ghost use Rattle.std.proofs.Props.{props};
ghost use Rattle.mx_pool.specs.Connections.{Ends, HaveServed, IsOwed, IsPassAt, IsServerAt, Places, Service, ends, no_places, no_service};
ghost use Rattle.mx_serve.specs.OfEngine.Shown.{stores_of};
ghost use Rattle.mx_pool.specs.Sets.{accounts_set, events_set, receipts_set};

use mx_outside::{Clock, Sink, Source};
use mx_serve::{EnginePass, Outside, Server, serve_connection};
use std::alloc::Global;
use std::marker::Brand;
use std::rt;
use std::sync::Wait;
use std::sync::ledger::{Book, Ledger, Share};

/// Which server seats are of. Its ledger counts the connections.
pub trait Seating: Ledger {
    ghost service: { Service };

    ghost places: { Places };

    // Which ends a connection may begin with.
    ghost is_kind: { Ends → Type 0 };
}

impl Seating for Brand {
    ghost service = { no_service };

    ghost places = { no_places };

    ghost is_kind = { λ _. Unit {0} };
}

/// A free seat: as many connections were served by its pass as the ledger counts.
#[derive(Drop)]
pub struct Seated<N: Seating> {
    pub(crate) pass: EnginePass,
    pub(crate) share: Share<N>,
    ghost one_part: { share.parts ≡ 1 },
    ghost ties: { IsPassAt N.places pass } by { Prim.hlevel (props, events_set, receipts_set, accounts_set) },
    ghost served: { ∥ HaveServed N.service N.is_kind (stores_of pass) share.amount ∥₁ },
}

/// A seat of a connection that is yet to be served: the ledger counts it.
#[derive(Drop)]
pub struct Taken<N: Seating> {
    pass: EnginePass,
    share: Share<N>,
    ghost one_part: { share.parts ≡ 1 },
    ghost ties: { IsPassAt N.places pass } by { Prim.hlevel (props, events_set, receipts_set, accounts_set) },
    ghost owed: { ∥ IsOwed N.service N.is_kind (stores_of pass) share.amount ∥₁ },
}

impl<N: Seating> Seated<N> {
    /// A seat with this part of the ledger, by whose pass nothing was served.
    pub fn new(pass: EnginePass, share: Share<N>) -> Seated<N>
        requires ties { IsPassAt N.places pass }
        requires part { share.parts ≡ 1 }
        requires amount { share.amount ≡ 0 }
    {
        Seated { pass, share }
    }

    /// The seat of one connection more.
    pub fn take(self, book: &mut Book<N>) -> Taken<N>
        ensures { book.new.total ≡ book.old.total + 1 }
    {
        let Seated { pass, mut share } = self;
        book.add(&mut share, 1);
        Taken { pass, share }
    }
}

impl<N: Seating> Taken<N> {
    /// The seat without the connection, which isn't served.
    pub fn leave(self, book: &mut Book<N>) -> Seated<N>
        ensures { book.new.total + 1 ≡ book.old.total }
    {
        let Taken { pass, mut share } = self;
        book.sub(&mut share, 1);
        Seated { pass, share }
    }

    /// Serves the connection on its server up to its end.
    pub fn serve<G: Outside, R: Wait + rt::Clock, S: Source, K: Sink, C: Clock>(
        self,
        rt: &R,
        alloc: Global,
        server: &Server<G>,
        input: &mut S,
        output: &mut K,
        clock: &mut C,
    ) -> Seated<N>
        requires server { ∥ IsServerAt N.service N.places server.now ∥₁ }
        requires kind { ∥ N.is_kind (ends (S.left input.old) (K.written output.old) (S.faults input.old) (K.faults output.old)) ∥₁ }
    {
        let Taken { mut pass, share } = self;
        let _ended = serve_connection(rt, alloc, server, &mut pass, input, output, clock);
        Seated { pass, share }
    }
}

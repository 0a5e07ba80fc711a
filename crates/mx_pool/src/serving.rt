//! A server that serves the connections of a listener.
ghost use Rattle.std.specs.Prelude.{◌≡◌, ◌≤◌, ◌+◌, ℕ};
ghost use Rattle.std.specs.Arc.{arc_value};
ghost use Rattle.mx_outside.specs.Causes.{Rose};
ghost use Rattle.mx_pool.specs.Connections.{Ends, HaveServed, IsServerAt, change, ends_by, service_of};
ghost use Rattle.mx_fold.specs.Lists.{Grows};
ghost use Rattle.mx_serve.specs.OfEngine.Shown.{Ties, stores_of};
ghost use Rattle.mx_pool.specs.Serving.{AreBegun, HasNoneLeft, HasServed, IsGiven};

use crate::connection::Connection;
use crate::gathering::{gather, make_seats};
use crate::pool::Pool;
use crate::seated::Seating;
use mx_ids::Memory;
use mx_outside::{Accepted, Clock, Listener, Spawner, Started};
use mx_serve::{EnginePass, Outside, Server};
use std::alloc::Global;
use std::marker::Brand;
use std::rt;
use std::sync::ledger::{Blank, Book, Share};
use std::sync::{Arc, Wait};
use std::thread::Threads;

/// How a server ended.
#[derive(Clone, Copy, PartialEq, Eq, Debug)]
pub enum Served {
    /// No connection comes any more.
    Closed,
    /// The listener failed. One connection that the system couldn't give is such a fault.
    ListenFailed,
    /// A connection's job wasn't started: the connection was dropped.
    StartRefused,
    /// Want of memory.
    Memory(Memory),
}

/// Serves the connections that `listener` gives, each by a job of `spawner` on one of so many seats, each with a pass of the server's
/// engine; a connection that comes where no seat is free waits for one. Each has a twin of `clock`. Ends once no connection comes any
/// more, at the first fault of the listener and at the first job that isn't started, and waits then until all seats are free again. Answers
/// with a pass that has seen what all connections have.
///
/// Each job that was started served a connection, as `serve_connection` promises of any source and sink, from the server's streams. Where
/// the listener tells its pairs, as many were taken, but for that of a job that wasn't started, and the source and the sink
/// of each connection are those of one of its pairs. The headline holds over all connections, on what the pass has seen (`sessions_agree`).
///
/// `Closed` comes only where the listener, where it tells its pairs, has none left; `ListenFailed` and `StartRefused` only where the
/// count of faults of the listener, of the spawner rose.
pub fn serve<
    G: Outside + Send + Sync + 'static,
    L: Listener,
    C: Clock + Drop + Send + 'static,
    R: Wait + rt::Clock + Threads + Copy + Drop + Send + 'static,
>(
    rt: &R,
    alloc: Global,
    server: Server<G>,
    pass: EnginePass,
    seats: u64,
    listener: &mut L,
    spawner: &mut Spawner,
    clock: &C,
) -> (Served, EnginePass)
where
    G::Events: Send + 'static,
    G::Receipts: Send + 'static,
    G::Accounts: Send + 'static,
    L::In: Drop + Send + 'static,
    L::Out: Drop + Send + 'static,
    requires ties { Ties server.engine pass }
    requires seats { 1 ≤ seats }
    ensures ties { Ties server.engine result.1 }
    ensures own { Grows (stores_of pass) (stores_of result.1) }
    ensures closed { result.0 ≡ Served.Closed → HasNoneLeft (L.left listener.new) }
    ensures listen { result.0 ≡ Served.ListenFailed → Rose (L.faults listener.old) (L.faults listener.new) }
    ensures start { result.0 ≡ Served.StartRefused → Rose spawner.old.plan.faults spawner.new.plan.faults }
    ensures served { ∥ HasServed (service_of server) L.left (ends_by L.In.left L.Out.written L.In.faults L.Out.faults)
        (change (L.left listener.old) (L.left listener.new)) (change spawner.old.plan.next spawner.new.plan.next) result.0 (stores_of result.1) ∥₁ }
{
    let blank = Blank::new(seats);
    serve_by::<Brand, G, L, C, R>(
        rt, alloc, blank, server, pass, seats, listener, spawner, clock,
    )
}

/// The same, by the ledger of a type: there are as many connections as were begun.
fn serve_by<
    N: Seating + Send + Sync + 'static,
    G: Outside + Send + Sync + 'static,
    L: Listener,
    C: Clock + Drop + Send + 'static,
    R: Wait + rt::Clock + Threads + Copy + Drop + Send + 'static,
>(
    rt: &R,
    alloc: Global,
    blank: Blank,
    server: Server<G>,
    pass: EnginePass,
    seats: u64,
    listener: &mut L,
    spawner: &mut Spawner,
    clock: &C,
) -> (Served, EnginePass)
where
    G::Events: Send + 'static,
    G::Receipts: Send + 'static,
    G::Accounts: Send + 'static,
    L::In: Drop + Send + 'static,
    L::Out: Drop + Send + 'static,
    requires name { blank.name ≡ N.name }
    requires parts { (blank.parts ≡ N.parts) × (blank.parts ≡ seats) }
    requires seats { 1 ≤ seats }
    requires server { IsServerAt N.service N.places server }
    requires ties { Ties server.engine pass }
    requires kind { (e : Ends) → IsGiven L.left (ends_by L.In.left L.Out.written L.In.faults L.Out.faults) (L.left listener.old) e → N.is_kind e }
    ensures ties { Ties server.engine result.1 }
    ensures own { Grows (stores_of pass) (stores_of result.1) }
    ensures closed { result.0 ≡ Served.Closed → HasNoneLeft (L.left listener.new) }
    ensures listen { result.0 ≡ Served.ListenFailed → Rose (L.faults listener.old) (L.faults listener.new) }
    ensures start { result.0 ≡ Served.StartRefused → Rose spawner.old.plan.faults spawner.new.plan.faults }
    ensures served { ∥ ((n : ℕ) × AreBegun L.left (change (L.left listener.old) (L.left listener.new)) (change spawner.old.plan.next spawner.new.plan.next) result.0 n
        × HaveServed N.service N.is_kind (stores_of result.1) n) ∥₁ }
{
    let (book, mut share) = blank.open::<N>();
    let mut pass = pass;
    let made = match make_seats(alloc, &server, &mut pass, &mut share, seats) {
        Ok(made) => made,
        Err(refused) => return (Served::Memory(refused), pass),
    };
    let pool = match Arc::new(alloc, Pool::new(server, made)) {
        Ok(pool) => pool,
        Err(refused) => return (Served::Memory(refused.into()), pass),
    };
    let served = serve_pool(
        rt, alloc, &pool, seats, book, share, &mut pass, listener, spawner, clock,
    );
    (served, pass)
}

/// The same on a pool of so many seats, all free.
fn serve_pool<
    N: Seating + Send + Sync + 'static,
    G: Outside + Send + Sync + 'static,
    L: Listener,
    C: Clock + Drop + Send + 'static,
    R: Wait + rt::Clock + Threads + Copy + Drop + Send + 'static,
>(
    rt: &R,
    alloc: Global,
    pool: &Arc<Pool<N, G>>,
    seats: u64,
    book: Book<N>,
    share: Share<N>,
    pass: &mut EnginePass,
    listener: &mut L,
    spawner: &mut Spawner,
    clock: &C,
) -> Served
where
    G::Events: Send + 'static,
    G::Receipts: Send + 'static,
    G::Accounts: Send + 'static,
    L::In: Drop + Send + 'static,
    L::Out: Drop + Send + 'static,
    requires parts { N.parts ≡ seats }
    requires none { (book.total ≡ 0) × (share.parts ≡ 0) × (share.amount ≡ 0) }
    requires ties { Ties (arc_value pool.now).server.engine pass.old }
    requires kind { (e : Ends) → IsGiven L.left (ends_by L.In.left L.Out.written L.In.faults L.Out.faults) (L.left listener.old) e → N.is_kind e }
    ensures ties { Ties (arc_value pool.now).server.engine pass.new }
    ensures own { Grows (stores_of pass.old) (stores_of pass.new) }
    ensures closed { result ≡ Served.Closed → HasNoneLeft (L.left listener.new) }
    ensures listen { result ≡ Served.ListenFailed → Rose (L.faults listener.old) (L.faults listener.new) }
    ensures start { result ≡ Served.StartRefused → Rose spawner.old.plan.faults spawner.new.plan.faults }
    ensures served { ∥ ((n : ℕ) × AreBegun L.left (change (L.left listener.old) (L.left listener.new)) (change spawner.old.plan.next spawner.new.plan.next) result n
        × HaveServed N.service N.is_kind (stores_of pass.new) n) ∥₁ }
{
    let mut book = book;
    let mut share = share;
    let served = serve_all(rt, alloc, pool, &mut book, listener, spawner, clock);
    spawner.wait_all(rt);
    let all = pool.take_all(rt, alloc, seats);
    gather(&*pool, all, pass, &mut share);
    book.audit(&mut share);
    served
}

/// Begins the connections of the listener, without the wait at the end: the book counts them.
fn serve_all<
    N: Seating + Send + Sync + 'static,
    G: Outside + Send + Sync + 'static,
    L: Listener,
    C: Clock + Drop + Send + 'static,
    R: Wait + rt::Clock + Threads + Copy + Drop + Send + 'static,
>(
    rt: &R,
    alloc: Global,
    pool: &Arc<Pool<N, G>>,
    book: &mut Book<N>,
    listener: &mut L,
    spawner: &mut Spawner,
    clock: &C,
) -> Served
where
    G::Events: Send + 'static,
    G::Receipts: Send + 'static,
    G::Accounts: Send + 'static,
    L::In: Drop + Send + 'static,
    L::Out: Drop + Send + 'static,
    requires none { book.old.total ≡ 0 }
    requires kind { (e : Ends) → IsGiven L.left (ends_by L.In.left L.Out.written L.In.faults L.Out.faults) (L.left listener.old) e → N.is_kind e }
    ensures closed { result ≡ Served.Closed → HasNoneLeft (L.left listener.new) }
    ensures listen { result ≡ Served.ListenFailed → Rose (L.faults listener.old) (L.faults listener.new) }
    ensures start { result ≡ Served.StartRefused → Rose spawner.old.plan.faults spawner.new.plan.faults }
    ensures begun { AreBegun L.left (change (L.left listener.old) (L.left listener.new)) (change spawner.old.plan.next spawner.new.plan.next) result book.new.total }
{
    'connections: for _ in rt.forever() {
        let theirs = match Arc::try_clone(pool) {
            Ok(theirs) => theirs,
            Err(refused) => return Served::Memory(refused.into()),
        };
        match listener.accept() {
            Accepted::Pair(input, output) => {
                let connection = Connection {
                    pool: theirs,
                    seat: pool.take(rt).take(book),
                    input,
                    output,
                    clock: clock.twin(),
                    alloc,
                    rt: *rt,
                };
                match spawner.start(rt, connection) {
                    Started::Running => {}
                    Started::Refused => {
                        pool.give(rt, pool.take_left(rt).leave(book));
                        return Served::StartRefused;
                    }
                }
            }
            Accepted::Closed => return Served::Closed,
            Accepted::Failed => return Served::ListenFailed,
        }
    }
    unreachable!()
}

//! A server that serves the connections of an address by loops.
ghost use Rattle.std.specs.Prelude.{◌≡◌, IfSome};
ghost use Rattle.std.specs.Arc.{arc_value};
ghost use Rattle.mx_loop.specs.Looped.{EndsFor};
ghost use Rattle.mx_outside.specs.Causes.{Rose};
ghost use Rattle.mx_pool.specs.Runs.{TellsBound, looped_status};
ghost use Rattle.mx_pool.specs.Serving.{HasNoneLeft, IsServerStatus};
ghost use Rattle.mx_pool.specs.Sets.{accounts_set, events_set, receipts_set};
ghost use Rattle.mx_serve.specs.OfEngine.Shown.{Ties};
ghost use Rattle.std.proofs.Props.{props};

use crate::status::{Status, looped_status};
use crate::telling::{tell, tell_about, tell_address};
use mx_loop::{Limits, Looped, run_loop};
use mx_outside::{Clock, Job, Listened, Ports, Sink, Spawner, Started};
use mx_serve::{EnginePass, Outside, Server};
use mx_words::Words;
use std::alloc::Global;
use std::rt;
use std::sync::{Arc, Wait};
use std::thread::Threads;

/// While a sync rests a loop looks after so many milliseconds for what other loops stored.
const LOOK: u64 = 5;

/// A loop of a server in a thread of its own.
#[derive(Drop)]
pub struct Looping<G: Outside, Q: Ports + Drop, C: Drop, R: Wait + Drop> {
    server: Arc<Server<G>>,
    pass: EnginePass,
    limits: Limits,
    ports: Q,
    clock: C,
    alloc: Global,
    rt: R,
    ghost ties: { Ties (arc_value server).engine pass } by { Prim.hlevel (props, events_set, receipts_set, accounts_set) },
}

impl<G: Outside, Q: Ports + Drop, C: Clock + Drop, R: Wait + rt::Clock + Drop> Job
    for Looping<G, Q, C, R>
where
    Q::Port: Drop + Send + 'static,
{
    /// Serves the connections that come, up to the loop's end.
    fn run(self) {
        let Looping {
            server,
            pass,
            limits,
            mut ports,
            mut clock,
            alloc,
            rt,
        } = self;
        let _ = run_loop(&rt, alloc, &*server, pass, limits, &mut ports, &mut clock);
    }
}

/// Binds the address, and serves on a server the connections that come, by as many loops as the words say. What is said behind the address in the
/// line that tells it is `says`.
pub(crate) fn loop_on<
    G: Outside + Send + Sync + 'static,
    E: Sink,
    C: Clock + Drop + Send + 'static,
    Q: Ports + Drop + Send + 'static,
    R: Wait + rt::Clock + Threads + Copy + Drop + Send + 'static,
>(
    rt: &R,
    alloc: Global,
    server: Server<G>,
    pass: EnginePass,
    words: &Words,
    address: &str,
    says: &[u8],
    errors: &mut E,
    clock: &C,
    spawner: &mut Spawner,
    ports: &mut Q,
) -> Status
where
    G::Events: Send + 'static,
    G::Receipts: Send + 'static,
    G::Accounts: Send + 'static,
    Q::Port: Drop + Send + 'static,
    requires ties { Ties server.engine pass }
    ensures only { IsServerStatus result }
    ensures closed { result ≡ Status.Done → HasNoneLeft (Q.left ports.new) }
    ensures listener { result ≡ Status.Listener → Rose (Q.faults ports.old) (Q.faults ports.new) }
    ensures told { TellsBound says.now address.now (E.written errors.old) (E.written errors.new) (E.faults errors.old) (E.faults errors.new) result }
{
    match ports.listen(address) {
        Listened::Failed => {
            drop(server);
            drop(pass);
            tell_about(alloc, errors, Status::Listener, address)
        }
        Listened::Done => {
            tell_address(errors, address, says);
            let looped = serve_loops(rt, alloc, server, pass, words, clock, spawner, ports);
            let status = looped_status(looped);
            tell(errors, status, None);
            status
        }
    }
}

/// Serves by as many loops as the words say: one here, and each other in a thread of its own. They share the server, and each has a pass of its engine.
/// Where a thread isn't to be had there are fewer.
fn serve_loops<
    G: Outside + Send + Sync + 'static,
    C: Clock + Drop + Send + 'static,
    Q: Ports + Drop + Send + 'static,
    R: Wait + rt::Clock + Threads + Copy + Drop + Send + 'static,
>(
    rt: &R,
    alloc: Global,
    server: Server<G>,
    pass: EnginePass,
    words: &Words,
    clock: &C,
    spawner: &mut Spawner,
    ports: &mut Q,
) -> Looped
where
    G::Events: Send + 'static,
    G::Receipts: Send + 'static,
    G::Accounts: Send + 'static,
    Q::Port: Drop + Send + 'static,
    requires ties { Ties server.engine pass }
    ensures { EndsFor result (Q.left ports.new) (Q.faults ports.old) (Q.faults ports.new) }
{
    let mut pass = pass;
    let server = match Arc::new(alloc, server) {
        Ok(server) => server,
        Err(refused) => return Looped::Memory(refused.into()),
    };
    let limits = limits_of(words);
    start_others(
        rt,
        alloc,
        &server,
        &mut pass,
        words.threads,
        limits,
        clock,
        ports,
        spawner,
    );
    let mut own = clock.twin();
    let looped = run_loop(rt, alloc, &*server, pass, limits, ports, &mut own);
    spawner.wait_all(rt);
    looped
}

/// Starts the loops but the first of so many, each in a thread of its own; fewer where one isn't to be had.
fn start_others<
    G: Outside + Send + Sync + 'static,
    C: Clock + Drop + Send + 'static,
    Q: Ports + Drop + Send + 'static,
    R: Wait + rt::Clock + Threads + Copy + Drop + Send + 'static,
>(
    rt: &R,
    alloc: Global,
    server: &Arc<Server<G>>,
    pass: &mut EnginePass,
    threads: u8,
    limits: Limits,
    clock: &C,
    ports: &Q,
    spawner: &mut Spawner,
)
where
    G::Events: Send + 'static,
    G::Receipts: Send + 'static,
    G::Accounts: Send + 'static,
    Q::Port: Drop + Send + 'static,
    requires { Ties (arc_value server.now).engine pass.old }
    ensures { Ties (arc_value server.now).engine pass.new }
{
    'threads: for _ in 1..threads {
        match another(rt, alloc, server, pass, limits, clock, ports) {
            Some(job) => {
                if spawner.start(rt, job) == Started::Refused {
                    return;
                }
            }
            None => return,
        }
    }
}

/// One loop more, which isn't begun; none where there is no memory for it, or the ports can't be shared.
fn another<
    G: Outside + Send + Sync + 'static,
    C: Clock + Drop + Send + 'static,
    Q: Ports + Drop + Send + 'static,
    R: Wait + rt::Clock + Threads + Copy + Drop + Send + 'static,
>(
    rt: &R,
    alloc: Global,
    server: &Arc<Server<G>>,
    pass: &mut EnginePass,
    limits: Limits,
    clock: &C,
    ports: &Q,
) -> Option<Looping<G, Q, C, R>>
    requires ties { Ties (arc_value server.now).engine pass.old }
    ensures ties { Ties (arc_value server.now).engine pass.new }
{
    let ports = ports.share()?;
    let theirs = Arc::try_clone(server).ok()?;
    let pass = parted(alloc, &**server, pass)?;
    Some(Looping {
        server: theirs,
        pass,
        limits,
        ports,
        clock: clock.twin(),
        alloc,
        rt: *rt,
    })
}

/// A pass more of a server's engine; none where there is no memory for it.
fn parted<G: Outside>(
    alloc: Global,
    server: &Server<G>,
    pass: &mut EnginePass,
) -> Option<EnginePass>
    requires ties { Ties server.now.engine pass.old }
    ensures ties { Ties server.now.engine pass.new }
    ensures other { IfSome result (λ p. Ties server.now.engine p) }
{
    server.engine().pass(alloc, pass).ok()
}

/// How the loops of these words serve: so many connections for all of them.
fn limits_of(words: &Words) -> Limits {
    let threads = u64::from(words.threads).max(1);
    Limits {
        sessions: words.connections.div_ceil(threads) as usize,
        idle: words.idle.saturating_mul(1000),
        look: if threads == 1 { 1000 } else { LOOK },
    }
}

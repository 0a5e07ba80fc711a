//! A run on a journal.
ghost use Rattle.std.specs.Prelude.{◌≡◌, ◌⊎◌, ◌≤◌, None, IfErr, IfOk, IfSome, IsSome, MatchResult};
ghost use Rattle.mx_outside.specs.Causes.{Rose};
ghost use Rattle.mx_ids.specs.Memory.{refused_memory};
ghost use Rattle.mx_ids.specs.declared.users.Users.{Users};
ghost use Rattle.mx_serve.specs.OfEngine.Places.{IsAlone};
ghost use Rattle.mx_serve.specs.OfEngine.Shown.{Ties, made_of, site_of, stops_of, stores_of};
ghost use Rattle.mx_pool.specs.Connections.{change, clocked, ends_by, service_of};
ghost use Rattle.mx_pool.specs.Lines.{Tells, line_of};
ghost use Rattle.mx_pool.specs.Runs.{HasNone, HasServedFrom, HasUsers, IsKeptCause, ListenerRose, RanModeOn, ServesAt, ServesFrom, ServesOn, TellsListened, TellsNone, TellsOn, TellsUnmade, arrivals, kept_stops, site_for, status_for};
ghost use Rattle.mx_pool.specs.Serving.{HasNoneLeft, IsServerStatus};
ghost use Rattle.mx_restore.specs.Restored.{Begins};
ghost use Rattle.mx_words.specs.Words.{address_in, said_by};

use crate::looping::loop_on;
use crate::serving::serve;
use crate::session::{Ran, set_up, unserved, users_told};
use crate::site::server_on;
use crate::status::{JournalFault, Status, server_status, status_of};
use crate::telling::{tell, tell_about, tell_address};
use mx_log::Logs;
use mx_outside::{Clock, Files, Listened, Listener, Ports, Sink, Source, Spawner};
use mx_restore::{Kept, RestoreFault};
use mx_serve::{EnginePass, Outside, Server, serve_connection};
use mx_words::{Mode, Words};
use std::alloc::Global;
use std::rt;
use std::sync::Wait;
use std::thread::Threads;

/// A run by words that name a journal.
pub(crate) fn run_kept<
    F: Files,
    J: Logs,
    S: Source,
    K: Sink,
    E: Sink,
    C: Clock + Drop + Send + 'static,
    L: Listener,
    Q: Ports + Drop + Send + 'static,
    R: Wait + rt::Clock + Threads + Copy + Drop + Send + 'static,
>(
    rt: &R,
    alloc: Global,
    words: &Words,
    name: &str,
    files: &mut F,
    logs: &mut J,
    input: &mut S,
    output: &mut K,
    errors: &mut E,
    clock: &mut C,
    listener: &mut L,
    spawner: &mut Spawner,
    ports: &mut Q,
) -> Ran
where
    L::In: Drop + Send + 'static,
    L::Out: Drop + Send + 'static,
    Q::Port: Drop + Send + 'static,
    requires workers { (1 ≤ words.now.workers) × (words.now.workers ≤ 16) }
    requires connections { 1 ≤ words.now.connections }
    ensures ran { RanModeOn (address_in (said_by words.now).way) name.now (said_by words.now) (record {
      file = F.told files.old;
      journal = J.told logs.old;
      left = change (S.left input.old) (S.left input.new);
      written = change (K.written output.old) (K.written output.new);
      file_faults = change (F.faults files.old) (F.faults files.new);
      journal_faults = change (J.faults logs.old) (J.faults logs.new);
      read_faults = change (S.faults input.old) (S.faults input.new);
      write_faults = change (K.faults output.old) (K.faults output.new);
      clock = change (clocked (C.last clock.old) (C.readings clock.old)) (clocked (C.last clock.new) (C.readings clock.new));
    }) result.status result.connection }
    ensures closed { result.status ≡ Status.Done → ServesAt (said_by words.now).way (L.left listener.new) (Q.left ports.new) }
    ensures listener { result.status ≡ Status.Listener → ListenerRose (said_by words.now).way (change (L.faults listener.old) (L.faults listener.new)) (change spawner.old.plan.faults spawner.new.plan.faults) (change (Q.faults ports.old) (Q.faults ports.new)) }
    ensures served { ServesOn (said_by words.now).way (J.told logs.old name.now) (said_by words.now) (F.told files.old) L.left (ends_by L.In.left L.Out.written L.In.faults L.Out.faults)
        (arrivals (change (L.left listener.old) (L.left listener.new)) (change spawner.old.plan.next spawner.new.plan.next)) result.status }
    ensures told { TellsOn (address_in (said_by words.now).way) (said_by words.now).users name.now result.connection (E.written errors.old) (E.written errors.new) (E.faults errors.old) (E.faults errors.new) result.status }
{
    let (server, pass) = match kept_server(rt, alloc, words, name, files, logs, errors) {
        Ok(made) => made,
        Err(status) => return unserved(status),
    };
    match &words.mode {
        Mode::Pipe => pipe_on(rt, alloc, server, pass, input, output, errors, clock),
        Mode::Serve(address) => unserved(listen_on(
            rt,
            alloc,
            server,
            pass,
            words,
            address.as_str(),
            errors,
            clock,
            listener,
            spawner,
        )),
        Mode::Loop(address) => unserved(loop_on(
            rt,
            alloc,
            server,
            pass,
            words,
            address.as_str(),
            b"\n",
            errors,
            clock,
            spawner,
            ports,
        )),
    }
}

/// A server for the users of the file, on the journal of a name; or the status of a run that has none, which is told.
fn kept_server<F: Files, J: Logs, E: Sink, R: Wait + Threads>(
    rt: &R,
    alloc: Global,
    words: &Words,
    name: &str,
    files: &mut F,
    logs: &mut J,
    errors: &mut E,
) -> Result<(Server<Kept<J::File>>, EnginePass), Status>
    requires workers { (1 ≤ words.now.workers) × (words.now.workers ≤ 16) }
    ensures ties { IfOk result (λ r. Ties r.0.engine r.1) }
    ensures site { IfOk result (λ r. (users : Users) × HasUsers (F.told files.old (said_by words.now).users) users × (site_of r.0.engine ≡ site_for users words.now.workers)) }
    ensures stops { IfOk result (λ r. stops_of r.0.engine ≡ kept_stops) }
    ensures limit { IfOk result (λ r. r.0.limit ≡ words.now.requests) }
    ensures stores { IfOk result (λ r. Begins (J.told logs.old name.now) (stores_of r.1)) }
    ensures alone { IfOk result (λ r. IsAlone (made_of r.1)) }
    ensures cause { IfErr result (λ s. IsKeptCause (F.told files.old (said_by words.now).users) (change (F.faults files.old) (F.faults files.new)) (change (J.faults logs.old) (J.faults logs.new)) s) }
    ensures told { MatchResult result (λ r. errors.new ≡ errors.old) (λ s. TellsNone (said_by words.now).users name.now (E.written errors.old) (E.written errors.new) (E.faults errors.old) (E.faults errors.new) s) }
{
    match users_told(alloc, words.users.as_str(), files, errors) {
        Ok(directory) => {
            match server_on(
                rt,
                alloc,
                directory,
                words.workers,
                words.requests,
                logs,
                name,
            ) {
                Ok(made) => Ok(made),
                Err(fault) => Err(tell_unrestored(alloc, errors, name, fault)),
            }
        }
        Err(status) => Err(status),
    }
}

/// Tells why there is no engine on the journal of a name; the status.
fn tell_unrestored<E: Sink>(
    alloc: Global,
    errors: &mut E,
    name: &str,
    fault: RestoreFault,
) -> Status
    ensures status { (result ≡ status_for fault) ⊎ (result ≡ Status.Memory refused_memory) }
    ensures told { TellsUnmade name.now (E.written errors.old) (E.written errors.new) (E.faults errors.old) (E.faults errors.new) result }
{
    match fault {
        RestoreFault::Busy => tell_about(alloc, errors, Status::Journal(JournalFault::Busy), name),
        RestoreFault::Failed => {
            tell_about(alloc, errors, Status::Journal(JournalFault::Failed), name)
        }
        RestoreFault::Line(number, wrong) => tell_about(
            alloc,
            errors,
            Status::Journal(JournalFault::Line(number)),
            wrong.words(),
        ),
        RestoreFault::Memory(refused) => tell_about(alloc, errors, Status::Memory(refused), name),
    }
}

/// A run in mode `pipe` on a server.
fn pipe_on<G: Outside, S: Source, K: Sink, E: Sink, C: Clock, R: Wait + rt::Clock>(
    rt: &R,
    alloc: Global,
    server: Server<G>,
    mut pass: EnginePass,
    input: &mut S,
    output: &mut K,
    errors: &mut E,
    clock: &mut C,
) -> Ran
    requires ties { Ties server.engine pass }
    ensures served { IfSome result.connection (λ c. ServesFrom (record { stops = stops_of server.engine; lists = stores_of pass; made = made_of pass }) (site_of server.engine).users (site_of server.engine).writers server.limit
        (change (S.left input.old) (S.left input.new)) (change (K.written output.old) (K.written output.new))
        (change (S.faults input.old) (S.faults input.new)) (change (K.faults output.old) (K.faults output.new))
        (change (clocked (C.last clock.old) (C.readings clock.old)) (clocked (C.last clock.new) (C.readings clock.new))) result.status c.0 c.1) }
    ensures some { IsSome result.connection }
    ensures told { Tells (E.written errors.old) (E.written errors.new) (E.faults errors.old) (E.faults errors.new) (line_of result.status None) }
{
    let ended = serve_connection(rt, alloc, &server, &mut pass, input, output, clock);
    drop(server);
    let status = status_of(ended.end);
    tell(errors, status, None);
    Ran {
        status,
        connection: Some((ended, pass)),
    }
}

/// Binds the address, and serves on a server the connections that come.
fn listen_on<
    G: Outside + Send + Sync + 'static,
    E: Sink,
    C: Clock + Drop + Send + 'static,
    L: Listener,
    R: Wait + rt::Clock + Threads + Copy + Drop + Send + 'static,
>(
    rt: &R,
    alloc: Global,
    server: Server<G>,
    pass: EnginePass,
    words: &Words,
    address: &str,
    errors: &mut E,
    clock: &C,
    listener: &mut L,
    spawner: &mut Spawner,
) -> Status
where
    G::Events: Send + 'static,
    G::Receipts: Send + 'static,
    G::Accounts: Send + 'static,
    L::In: Drop + Send + 'static,
    L::Out: Drop + Send + 'static,
    requires ties { Ties server.engine pass }
    requires connections { 1 ≤ words.now.connections }
    ensures only { IsServerStatus result }
    ensures closed { result ≡ Status.Done → HasNoneLeft (L.left listener.new) }
    ensures listener { result ≡ Status.Listener → Rose (L.faults listener.old) (L.faults listener.new) ⊎ Rose spawner.old.plan.faults spawner.new.plan.faults }
    ensures served { HasNone (arrivals (change (L.left listener.old) (L.left listener.new)) (change spawner.old.plan.next spawner.new.plan.next)) result
        ⊎ ∥ HasServedFrom (service_of server) (stores_of pass) L.left (ends_by L.In.left L.Out.written L.In.faults L.Out.faults)
        (arrivals (change (L.left listener.old) (L.left listener.new)) (change spawner.old.plan.next spawner.new.plan.next)) result ∥₁ }
    ensures told { TellsListened address.now (E.written errors.old) (E.written errors.new) (E.faults errors.old) (E.faults errors.new) result }
{
    set_up(words, listener);
    match listener.listen(address) {
        Listened::Failed => {
            drop(server);
            drop(pass);
            tell_about(alloc, errors, Status::Listener, address)
        }
        Listened::Done => {
            tell_address(errors, address, b"\n");
            let (served, _pass) = serve(
                rt,
                alloc,
                server,
                pass,
                words.connections,
                listener,
                spawner,
                clock,
            );
            let status = server_status(served);
            tell(errors, status, None);
            status
        }
    }
}

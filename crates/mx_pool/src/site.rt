//! A server for the users of a file.
ghost use Rattle.std.specs.Prelude.{◌≡◌, ◌≤◌, IfErr, IfOk};
ghost use Rattle.mx_serve.specs.OfEngine.Places.{IsAlone};
ghost use Rattle.mx_serve.specs.OfEngine.Shown.{Ties, made_of, none_made, site_of, stops_of, stores_of};
ghost use Rattle.mx_serve.specs.OfEngine.Answers.{nothing};
ghost use Rattle.mx_pool.specs.Connections.{change, clocked};
ghost use Rattle.mx_pool.specs.Runs.{ServesUsers, kept_stops, run_stops, site_for};
ghost use Rattle.mx_restore.specs.Faults.{HasCause};
ghost use Rattle.mx_restore.specs.Restored.{Begins};

use crate::status::{Status, status_of};
use mx_ids::Memory;
use mx_log::Logs;
use mx_outside::{Clock, Sink, Source};
use mx_restore::{Kept, RestoreFault, engine_on};
use mx_serve::{Ended, EnginePass, Server, Setup, engine, serve_connection};
use mx_users::Directory;
use mx_writers::Open;
use std::alloc::Global;
use std::rt;
use std::sync::Wait;
use std::thread::Threads;

/// No block of a stream is drawn once so many positions were.
const STOP: u64 = 281_474_976_694_272;

/// Serves one connection of so many requests for these users, by so many writers a stream: the status, and the connection, which is none for want of
/// memory alone.
pub(crate) fn serve_users<S: Source, K: Sink, C: Clock, R: Wait + rt::Clock>(
    rt: &R,
    alloc: Global,
    directory: Directory,
    workers: u8,
    limit: u64,
    input: &mut S,
    output: &mut K,
    clock: &mut C,
) -> (Status, Option<(Ended, EnginePass)>)
    requires workers { (1 ≤ workers) × (workers ≤ 16) }
    ensures { ServesUsers directory workers limit
        (change (S.left input.old) (S.left input.new)) (change (K.written output.old) (K.written output.new))
        (change (S.faults input.old) (S.faults input.new)) (change (K.faults output.old) (K.faults output.new))
        (change (clocked (C.last clock.old) (C.readings clock.old)) (clocked (C.last clock.new) (C.readings clock.new))) result.0 result.1 }
{
    let (server, mut pass) = match server_for(alloc, directory, workers, limit) {
        Ok(made) => made,
        Err(refused) => return (Status::Memory(refused), None),
    };
    let ended = serve_connection(rt, alloc, &server, &mut pass, input, output, clock);
    (status_of(ended.end), Some((ended, pass)))
}

/// A server of so many requests a connection on an engine without a store, with so many writers a stream, and a pass of the engine.
pub(crate) fn server_for(
    alloc: Global,
    directory: Directory,
    workers: u8,
    limit: u64,
) -> Result<(Server<Open>, EnginePass), Memory>
    requires workers { (1 ≤ workers) × (workers ≤ 16) }
    ensures ties { IfOk result (λ r. Ties r.0.engine r.1) }
    ensures site { IfOk result (λ r. site_of r.0.engine ≡ site_for directory workers) }
    ensures stops { IfOk result (λ r. stops_of r.0.engine ≡ run_stops) }
    ensures limit { IfOk result (λ r. r.0.limit ≡ limit) }
    ensures nothing { IfOk result (λ r. stores_of r.1 ≡ nothing) }
    ensures made { IfOk result (λ r. made_of r.1 ≡ none_made) }
{
    let setup = Setup {
        users: directory,
        workers,
        stop: STOP,
    };
    let (engine, pass) = engine(alloc, setup, Open)?;
    Ok((Server::new(alloc, engine, limit)?, pass))
}

/// A server of so many requests a connection on an engine with so many writers a stream, on the journal of a name, and a pass of the engine.
pub(crate) fn server_on<J: Logs, R: Wait + Threads>(
    rt: &R,
    alloc: Global,
    directory: Directory,
    workers: u8,
    limit: u64,
    logs: &mut J,
    name: &str,
) -> Result<(Server<Kept<J::File>>, EnginePass), RestoreFault>
    requires workers { (1 ≤ workers) × (workers ≤ 16) }
    ensures ties { IfOk result (λ r. Ties r.0.engine r.1) }
    ensures site { IfOk result (λ r. site_of r.0.engine ≡ site_for directory workers) }
    ensures stops { IfOk result (λ r. stops_of r.0.engine ≡ kept_stops) }
    ensures limit { IfOk result (λ r. r.0.limit ≡ limit) }
    ensures stores { IfOk result (λ r. Begins (J.told logs.old name.now) (stores_of r.1)) }
    ensures alone { IfOk result (λ r. IsAlone (made_of r.1)) }
    ensures cause { IfErr result (λ fault. HasCause fault (J.faults logs.old) (J.faults logs.new)) }
{
    let setup = Setup {
        users: directory,
        workers,
        stop: STOP,
    };
    let (engine, pass) = engine_on(rt, alloc, setup, logs, name)?;
    match Server::new(alloc, engine, limit) {
        Ok(server) => Ok((server, pass)),
        Err(refused) => {
            drop(pass);
            Err(RestoreFault::Memory(refused))
        }
    }
}

//! An engine on its journal.

ghost use Rattle.std.specs.Prelude.{◌≡◌, ◌≤◌, true, ℕ, List, IfErr, IfOk, OnOk};
ghost use Rattle.mx_journal.specs.Kept.{AreLines};
ghost use Rattle.mx_log.specs.Logs.{Opens};
ghost use Rattle.mx_engine.specs.Answers.{nothing, stops_with};
ghost use Rattle.mx_engine.specs.Places.{IsAlone};
ghost use Rattle.mx_engine.specs.Shown.{Ties, made_of, site_of, stops_of, stores_of};
ghost use Rattle.mx_restore.specs.Faults.{HasCause, IsOfLog, IsOfOpening, StaysAt};
ghost use Rattle.mx_restore.specs.Restored.{Begins, Continues, GoesOn, Restores};
ghost use Rattle.mx_restore.specs.Wrongs.{TellsWrong};

use crate::heads::{put_devices, put_head};
use crate::kept::Kept;
use crate::restoring::{Restored, Restoring, restore};
use crate::wrong::RestoreFault;
use mx_engine::{Engine, EnginePass, Setup, engine};
use mx_ids::{Memory, Users};
use mx_journal::{Journal, keep_lines};
use mx_log::{Log, LogFile, Logs, OpenFault};
use mx_outside::Put;
use std::alloc::Global;
use std::sync::Wait;
use std::thread::Threads;

/// An engine on the journal of a name, which has the stores of its lines, and its first pass, which has seen these and from which none was
/// split off. A journal that is missing or empty is begun. What stands behind the whole lines is cut off; where a line is refused the journal stays as it is, and `Line` comes
/// only of one that is wrong so, where the stores of all lines before it were made again. `Busy` and `Failed`
/// come only where the count of faults rose in this call, or stands at its last value.
pub fn engine_on<J: Logs, R: Wait + Threads>(
    rt: &R,
    alloc: Global,
    setup: Setup,
    logs: &mut J,
    name: &str,
) -> Result<(Engine<Kept<J::File>>, EnginePass), RestoreFault>
    requires workers { (1 ≤ setup.workers) × (setup.workers ≤ 16) }
    requires stop { setup.stop ≤ 281474976694272 }
    ensures ties { IfOk result (λ r. Ties r.0 r.1) }
    ensures site { IfOk result (λ r. site_of r.0 ≡ record { users = setup.users; writers = setup.workers }) }
    ensures stops { IfOk result (λ r. stops_of r.0 ≡ stops_with true true true setup.stop) }
    ensures stores { IfOk result (λ r. Begins (J.told logs.old name.now) (stores_of r.1)) }
    ensures alone { IfOk result (λ r. IsAlone (made_of r.1)) }
    ensures count { J.faults logs.old ≤ J.faults logs.new }
    ensures cause { IfErr result (λ fault. HasCause fault (J.faults logs.old) (J.faults logs.new)) }
    ensures wrong { IfErr result (TellsWrong (record { users = setup.users; writers = setup.workers }) (J.told logs.old name.now) nothing) }
{
    let mut log = open(logs, name)?;
    match engine_from(rt, alloc, setup, &mut log) {
        Ok((engine, pass)) => {
            engine.outside().desk().open(rt, Journal::new(log));
            Ok((engine, pass))
        }
        Err(fault) => {
            logs.close(log);
            Err(fault)
        }
    }
}

/// Opens the log of a name.
fn open<J: Logs>(logs: &mut J, name: &str) -> Result<J::File, RestoreFault>
    ensures opened { IfOk result (λ log. Opens (J.told logs.old name.now) (J.File.told log) (J.File.left log)) }
    ensures count { J.faults logs.old ≤ J.faults logs.new }
    ensures cause { IfErr result (λ fault. HasCause fault (J.faults logs.old) (J.faults logs.new)) }
    ensures fault { IfErr result IsOfOpening }
{
    match logs.open(name) {
        Ok(log) => Ok(log),
        Err(OpenFault::Busy) => Err(RestoreFault::Busy),
        Err(OpenFault::Failed) => Err(RestoreFault::Failed),
    }
}

/// An engine with the stores of a log's lines. The log then has these, and behind them the first lines that it lacked.
fn engine_from<L: LogFile + Drop + Send + 'static, R: Wait + Threads>(
    rt: &R,
    alloc: Global,
    setup: Setup,
    log: &mut L,
) -> Result<(Engine<Kept<L>>, EnginePass), RestoreFault>
    requires workers { (1 ≤ setup.workers) × (setup.workers ≤ 16) }
    requires stop { setup.stop ≤ 281474976694272 }
    ensures ties { IfOk result (λ r. Ties r.0 r.1) }
    ensures site { IfOk result (λ r. site_of r.0 ≡ record { users = setup.users; writers = setup.workers }) }
    ensures stops { IfOk result (λ r. stops_of r.0 ≡ stops_with true true true setup.stop) }
    ensures stores { IfOk result (λ r. Begins (L.left log.old) (stores_of r.1)) }
    ensures alone { IfOk result (λ r. IsAlone (made_of r.1)) }
    ensures kept { IfOk result (λ r. Continues (L.told log.old) (L.left log.old) (L.told log.new)) }
    ensures stays { IfErr result (λ fault. StaysAt fault (L.told log.old) (L.told log.new)) }
    ensures count { L.faults log.old ≤ L.faults log.new }
    ensures cause { IfErr result (λ fault. HasCause fault (L.faults log.old) (L.faults log.new)) }
    ensures wrong { IfErr result (TellsWrong (record { users = setup.users; writers = setup.workers }) (L.left log.old) nothing) }
{
    let (engine, mut pass) = engine(alloc, setup, Kept::new(alloc)?)?;
    match make_stores(rt, alloc, &engine, log, &mut pass) {
        Ok(()) => Ok((engine, pass)),
        Err(fault) => {
            drop(pass);
            drop(engine);
            Err(fault)
        }
    }
}

/// Makes the stores of a log's lines again. The log then has these lines, and behind them the first lines that it lacked.
fn make_stores<L: LogFile + Drop + Send + 'static, R: Wait + Threads>(
    rt: &R,
    alloc: Global,
    engine: &Engine<Kept<L>>,
    log: &mut L,
    pass: &mut EnginePass,
) -> Result<(), RestoreFault>
    requires ties { Ties engine.now pass.old }
    ensures ties { Ties engine.now pass.new }
    ensures stores { OnOk result (Restores (L.left log.old) (stores_of pass.old) (stores_of pass.new)) }
    ensures alone { IsAlone (made_of pass.old) → IsAlone (made_of pass.new) }
    ensures kept { OnOk result (Continues (L.told log.old) (L.left log.old) (L.told log.new)) }
    ensures stays { IfErr result (λ fault. StaysAt fault (L.told log.old) (L.told log.new)) }
    ensures count { L.faults log.old ≤ L.faults log.new }
    ensures cause { IfErr result (λ fault. HasCause fault (L.faults log.old) (L.faults log.new)) }
    ensures wrong { IfErr result (λ fault. TellsWrong (site_of engine.now) (L.left log.old) (stores_of pass.old) fault) }
{
    let desk = engine.outside().desk();
    let to = Restoring { engine, desk };
    let far = restore(rt, alloc, &to, log, pass)?;
    go_on(alloc, log, &far, engine.users().users(), engine.writers())?;
    Ok(())
}

/// Cuts a log off that was read so far, and puts the first lines that it lacks: that of the journal, and that of the devices.
fn go_on<L: LogFile>(
    alloc: Global,
    log: &mut L,
    far: &Restored,
    users: &Users,
    writers: u8,
) -> Result<(), RestoreFault>
    ensures kept { OnOk result (GoesOn (L.told log.old) far.now.bytes (L.told log.new)) }
    ensures fault { IfErr result IsOfLog }
    ensures count { L.faults log.old ≤ L.faults log.new }
    ensures cause { IfErr result (λ fault. HasCause fault (L.faults log.old) (L.faults log.new)) }
{
    let lines = first_lines(alloc, far, users, writers)?;
    match log.cut(far.bytes) {
        Put::Done => {}
        Put::Failed => return Err(RestoreFault::Failed),
    }
    if lines.is_empty() {
        return Ok(());
    }
    if keep_lines(log, lines.as_slice()) {
        return Ok(());
    }
    Err(RestoreFault::Failed)
}

/// The lines that a journal which was read so far lacks.
fn first_lines(alloc: Global, far: &Restored, users: &Users, writers: u8) -> Result<Vec<u8>, Memory>
    ensures { IfOk result (λ lines. (more : List (List ℕ)) × AreLines lines.items more) }
{
    let mut lines = Vec::new(alloc);
    if far.lines == 0 {
        put_head(alloc, &mut lines, &users.server, writers)?;
    }
    if far.devices < users.devices.len() {
        put_devices(alloc, &mut lines, users, far.devices)?;
    }
    Ok(lines)
}

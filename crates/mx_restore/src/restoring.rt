//! A journal is read, and its stores are made again.

ghost use Rattle.std.specs.Prelude.{◌≡◌, ◌≤◌, true, [], Some, IfErr, IfOk, OnOk};
ghost use Rattle.std.specs.Io.KnownBytes.{IsAtEnd};
ghost use Rattle.mx_engine.specs.Again.{with_record};
ghost use Rattle.mx_engine.specs.Places.{IsAlone};
ghost use Rattle.mx_engine.specs.Shown.{Ties, made_of, site_of, stores_of};
ghost use Rattle.mx_lines.specs.Lines.{IsOpen};
ghost use Rattle.mx_outside.specs.Causes.{Rose};
ghost use Rattle.mx_restore.specs.Batches.{HasReadMore, IsSaidBy, StopsAt};
ghost use Rattle.mx_restore.specs.Faults.{HasCause, IsOfLines};
ghost use Rattle.mx_restore.specs.Made.{MakesLine, MakesLines, devices_by, ended_at};
ghost use Rattle.mx_restore.specs.Restored.{CountsWhole, Restores};
ghost use Rattle.mx_restore.specs.Said.{IsOtherValue};
ghost use Rattle.mx_restore.specs.Wrongs.{IsNoStore, IsRefused, IsUnmade, TellsWrong};

use crate::heads::{devices_in, is_first, is_named};
use crate::reading::{Batch, LineSaid, ReadLine, Stopped, read_batch};
use crate::wrong::{RestoreFault, Wrong};
use mx_desk::Desk;
use mx_engine::{Engine, EnginePass, Outside, Record, Unreplayed};
use mx_json::Json;
use mx_log::{Log, LogFile};
use std::alloc::Global;
use std::marker::Send;
use std::mem;
use std::sync::Wait;
use std::thread::{Threads, join_mut};

/// How far a journal was read: the lines, and the devices among them.
#[derive(Clone, Copy, Debug, PartialEq, Eq)]
pub struct Restored {
    /// How many bytes the whole lines have.
    pub bytes: u64,
    pub lines: u64,
    /// How many devices of the users file they have.
    pub devices: usize,
}

impl Restored {
    /// Nothing was read.
    const NONE: Restored = Restored {
        bytes: 0,
        lines: 0,
        devices: 0,
    };

    /// How far a journal was read where no more of its lines are; or why it isn't restored.
    fn ended(self, stopped: Stopped) -> Result<Restored, RestoreFault>
        ensures { result ≡ ended_at self stopped }
    {
        match stopped {
            Stopped::Open | Stopped::End => Ok(self),
            Stopped::Wrong(wrong) => Err(RestoreFault::Line(self.lines.saturating_add(1), wrong)),
            Stopped::Failed => Err(RestoreFault::Failed),
            Stopped::Memory(refused) => Err(RestoreFault::Memory(refused)),
        }
    }
}

/// An engine whose stores are made again, with the desk that its writers keep them at.
#[derive(Clone, Copy)]
pub struct Restoring<'a, G: Outside, L: Log + Drop> {
    pub engine: &'a Engine<G>,
    pub desk: &'a Desk<L>,
}

/// Reads a log up to its end, and makes each store of its lines again, in its place. The lines of a batch are read by another thread, where
/// one can be started, while the stores of those before are made. The desk isn't open, so that each line has to come
/// out as itself. What stands behind the whole lines, in which no line ends, is passed over, but for 64 MiB without an end, which are no line.
/// Nobody else is to store meanwhile. The log stays as it was.
pub fn restore<G: Outside, L: Log + Drop, S: LogFile + Send, R: Wait + Threads>(
    rt: &R,
    alloc: Global,
    to: &Restoring<'_, G, L>,
    log: &mut S,
    pass: &mut EnginePass,
) -> Result<Restored, RestoreFault>
    requires ties { Ties to.now.engine.now pass.old }
    ensures ties { Ties to.now.engine.now pass.new }
    ensures alone { IsAlone (made_of pass.old) → IsAlone (made_of pass.new) }
    ensures restored { IfOk result (λ far. Restores (S.left log.old) (stores_of pass.old) (stores_of pass.new)) }
    ensures whole { IfOk result (λ far. CountsWhole (S.left log.old) far.bytes) }
    ensures told { S.told log.new ≡ S.told log.old }
    ensures count { S.faults log.old ≤ S.faults log.new }
    ensures cause { IfErr result (λ fault. HasCause fault (S.faults log.old) (S.faults log.new)) }
    ensures wrong { IfErr result (λ fault. TellsWrong (site_of to.now.engine.now) (S.left log.old) (stores_of pass.old) fault) }
{
    let mut far = Restored::NONE;
    let mut rest = Vec::new(alloc);
    let mut batch = read_batch(alloc, log, &mut rest);
    'batches: for _ in rt.forever() {
        let Batch { lines, stopped } = batch;
        if !stopped.is_open() {
            to.make_lines(rt, alloc, lines, &mut far, pass)?;
            return far.ended(stopped);
        }
        batch = to.make_and_read(rt, alloc, lines, &mut far, pass, log, &mut rest)?;
    }
    unreachable!()
}

impl<'a, G: Outside, L: Log + Drop> Restoring<'a, G, L> {
    /// Makes the stores of lines again, while the next lines of a log are read: those behind others, which left this rest.
    fn make_and_read<S: LogFile + Send, R: Wait + Threads>(
        &self,
        rt: &R,
        alloc: Global,
        lines: Vec<ReadLine>,
        far: &mut Restored,
        pass: &mut EnginePass,
        log: &mut S,
        rest: &mut Vec<u8>,
    ) -> Result<Batch, RestoreFault>
        requires ties { Ties self.now.engine.now pass.old }
        requires rest_open { IsOpen rest.old.items }
        ensures ties { Ties self.now.engine.now pass.new }
        ensures alone { IsAlone (made_of pass.old) → IsAlone (made_of pass.new) }
        ensures made { OnOk result (MakesLines (site_of self.now.engine.now).users lines.items far.old far.new (stores_of pass.old) (stores_of pass.new)) }
        ensures fault { IfErr result IsOfLines }
        ensures wrong { IfErr result (IsUnmade (site_of self.now.engine.now) lines.items far.old (stores_of pass.old)) }
        ensures read { IfOk result (λ next. HasReadMore (S.left log.old) (S.left log.new) rest.old.items rest.new.items [] next.lines.items) }
        ensures stops { IfOk result (λ next. StopsAt next.stopped rest.new.items) }
        ensures end { IfOk result (λ next. next.stopped ≡ Stopped.End → IsAtEnd (S.left log.new)) }
        ensures told { S.told log.new ≡ S.told log.old }
        ensures count { S.faults log.old ≤ S.faults log.new }
        ensures cause { IfOk result (λ next. next.stopped ≡ Stopped.Failed → Rose (S.faults log.old) (S.faults log.new)) }
    {
        let mut lines = lines;
        let (next, made) = join_mut(
            rt,
            &mut || -> Batch
                requires { IsOpen rest.now.items }
                ensures read { HasReadMore (S.left log.entry.now) (S.left log.exit.now) rest.entry.now.items rest.exit.now.items [] result.lines.items }
                ensures stops { StopsAt result.stopped rest.exit.now.items }
                ensures end { result.stopped ≡ Stopped.End → IsAtEnd (S.left log.exit.now) }
                ensures told { S.told log.exit.now ≡ S.told log.entry.now }
                ensures count { S.faults log.entry.now ≤ S.faults log.exit.now }
                ensures cause { result.stopped ≡ Stopped.Failed → Rose (S.faults log.entry.now) (S.faults log.exit.now) }
            { read_batch(alloc, log, rest) },
            &mut || -> Result<(), RestoreFault>
                requires { Ties self.now.engine.now pass.now }
                ensures ties { Ties self.entry.now.engine.now pass.exit.now }
                ensures alone { IsAlone (made_of pass.entry.now) → IsAlone (made_of pass.exit.now) }
                ensures made { OnOk result (MakesLines (site_of self.entry.now.engine.now).users lines.entry.items far.entry.now far.exit.now (stores_of pass.entry.now) (stores_of pass.exit.now)) }
                ensures fault { IfErr result IsOfLines }
                ensures wrong { IfErr result (IsUnmade (site_of self.entry.now.engine.now) lines.entry.items far.entry.now (stores_of pass.entry.now)) }
            {
                let lines = mem::replace(&mut lines, Vec::new(alloc));
                self.make_lines(rt, alloc, lines, far, pass)
            },
        );
        match made {
            Ok(()) => Ok(next),
            Err(fault) => {
                drop(next);
                Err(fault)
            }
        }
    }

    /// Makes the stores of lines again.
    fn make_lines<R: Wait>(
        &self,
        rt: &R,
        alloc: Global,
        lines: Vec<ReadLine>,
        far: &mut Restored,
        pass: &mut EnginePass,
    ) -> Result<(), RestoreFault>
        requires ties { Ties self.now.engine.now pass.old }
        ensures ties { Ties self.now.engine.now pass.new }
        ensures alone { IsAlone (made_of pass.old) → IsAlone (made_of pass.new) }
        ensures made { OnOk result (MakesLines (site_of self.now.engine.now).users lines.items far.old far.new (stores_of pass.old) (stores_of pass.new)) }
        ensures fault { IfErr result IsOfLines }
        ensures wrong { IfErr result (IsUnmade (site_of self.now.engine.now) lines.items far.old (stores_of pass.old)) }
    {
        'lines: for line in lines {
            self.make_line(rt, alloc, line, far, pass)?;
        }
        Ok(())
    }

    /// Makes the store of a line again, or takes in what else it says.
    fn make_line<R: Wait>(
        &self,
        rt: &R,
        alloc: Global,
        line: ReadLine,
        far: &mut Restored,
        pass: &mut EnginePass,
    ) -> Result<(), RestoreFault>
        requires ties { Ties self.now.engine.now pass.old }
        ensures ties { Ties self.now.engine.now pass.new }
        ensures alone { IsAlone (made_of pass.old) → IsAlone (made_of pass.new) }
        ensures made { OnOk result (MakesLine (site_of self.now.engine.now).users line far.old far.new (stores_of pass.old) (stores_of pass.new)) }
        ensures fault { IfErr result IsOfLines }
        ensures wrong { IfErr result (λ fault. (j : Json) → IsSaidBy j line.said → IsRefused (site_of self.now.engine.now) far.old j fault) }
    {
        let ReadLine { bytes, said } = line;
        let count = bytes.len() as u64;
        match said {
            LineSaid::Store(store) => self.make_again(rt, alloc, bytes, store, far.lines, pass)?,
            LineSaid::Other(value) => {
                drop(bytes);
                let taken = self.take_value(&value, far);
                drop(value);
                taken?;
            }
        }
        far.lines = far.lines.saturating_add(1);
        far.bytes = far.bytes.saturating_add(count);
        Ok(())
    }

    /// Takes in a value that says no store: that of the first line, or devices.
    fn take_value(&self, json: &Json, far: &mut Restored) -> Result<(), RestoreFault>
        ensures named { OnOk result (IsOtherValue json.now) }
        ensures far { (far.new.bytes ≡ far.old.bytes) × (far.new.lines ≡ far.old.lines) }
        ensures devices { OnOk result (far.new.devices ≡ devices_by (site_of self.now.engine.now).users far.old.devices json.now) }
        ensures fault { IfErr result IsOfLines }
        ensures wrong { IfErr result (IsRefused (site_of self.now.engine.now) far.old json.now) }
    {
        let number = far.lines.saturating_add(1);
        let users = self.engine.users().users();
        if far.lines == 0 {
            return if is_first(json, &users.server, self.engine.writers()) {
                Ok(())
            } else {
                Err(RestoreFault::Line(number, Wrong::Head))
            };
        }
        if is_named(json, "devices") {
            let Some(count) = devices_in(json, users, far.devices) else {
                return Err(RestoreFault::Line(number, Wrong::Devices));
            };
            far.devices = far.devices.saturating_add(count);
            return Ok(());
        }
        Err(RestoreFault::Line(number, Wrong::Text))
    }

    /// Makes a store again, whose line has to be this one, behind so many lines.
    fn make_again<R: Wait>(
        &self,
        rt: &R,
        alloc: Global,
        line: Vec<u8>,
        store: Record,
        lines: u64,
        pass: &mut EnginePass,
    ) -> Result<(), RestoreFault>
        requires ties { Ties self.now.engine.now pass.old }
        ensures ties { Ties self.now.engine.now pass.new }
        ensures alone { IsAlone (made_of pass.old) → IsAlone (made_of pass.new) }
        ensures made { OnOk result (stores_of pass.new ≡ with_record store (stores_of pass.old)) }
        ensures fault { IfErr result IsOfLines }
        ensures wrong { IfErr result (IsNoStore lines) }
    {
        let number = lines.saturating_add(1);
        if lines == 0 {
            return Err(RestoreFault::Line(number, Wrong::Head));
        }
        self.desk.replay(rt, line);
        match self.engine.replay_record(rt, alloc, pass, store) {
            Ok(()) => Ok(()),
            Err(Unreplayed::Memory(refused)) => Err(RestoreFault::Memory(refused)),
            Err(why) => Err(RestoreFault::Line(number, Wrong::Store(why))),
        }
    }
}

//! The lines of a journal are read, a batch at a time.

ghost use Rattle.std.specs.Prelude.{◌≡◌, ◌<◌, ◌≤◌, ◌-◌, ◌++◌, true, false, ℕ, List, [], ◌∷◌, Ok, IfErr, IfOk, MatchResult, OnErr, OnOk, drop, length, take};
ghost use Rattle.std.specs.Io.KnownBytes.{Consumes, IsAtEnd};
ghost use Rattle.mx_json.specs.Reading.{read_json};
ghost use Rattle.mx_lines.specs.Lines.{IsOpen};
ghost use Rattle.mx_outside.specs.Causes.{Rose};
ghost use Rattle.mx_outside.specs.Moves.{FitsRoom, Moves};
ghost use Rattle.mx_restore.specs.declared.reading.ReadLine.{ReadLine};
ghost use Rattle.mx_restore.specs.Batches.{HasRead, HasReadMore, IsSaidBy, ReadsOne, StopsAt, StopsHere, StopsText};

use crate::heads::is_named;
use crate::records::read_record;
use crate::wrong::Wrong;
use mx_engine::Record;
use mx_ids::Memory;
use mx_json::{Json, JsonFault, read};
use mx_lines::{First, first_line};
use mx_log::LogFile;
use mx_outside::Took;
use std::alloc::Global;

/// How many bytes a take asks for at least.
const PIECE: usize = 65_536;

/// How many takes give the lines of a batch, where the log hasn't ended before.
const TAKES: u32 = 8;

/// More bytes than a line has: that of a block of 512 events of 65,536 bytes is some 34 MiB.
const LONGEST: usize = 67_108_864;

/// A line that was read.
#[derive(Drop)]
pub(crate) struct ReadLine {
    /// The whole line.
    pub(crate) bytes: Vec<u8>,
    pub(crate) said: LineSaid,
}

/// What a line says.
#[derive(Drop)]
pub(crate) enum LineSaid {
    Store(Record),
    /// A value that says no store, with the name of a first line, that of devices, or another.
    Other(Json),
}

/// Why no more lines are read.
#[derive(Clone, Copy)]
pub(crate) enum Stopped {
    /// No line ends in what is left. More may follow.
    Open,
    /// The log has ended.
    End,
    /// What stands there is no line of a journal.
    Wrong(Wrong),
    /// The log couldn't be read.
    Failed,
    /// An allocation was refused.
    Memory(Memory),
}

/// Lines of a journal that were read, in their order, and why no more of them.
#[derive(Drop)]
pub(crate) struct Batch {
    pub(crate) lines: Vec<ReadLine>,
    pub(crate) stopped: Stopped,
}

impl Stopped {
    /// Whether more lines may follow.
    pub(crate) fn is_open(self) -> bool
        ensures open { result ≡ true → self ≡ Stopped.Open }
        ensures other { result ≡ false → self ≡ Stopped.Open → ⊥ }
    {
        matches!(self, Stopped::Open)
    }
}

impl From<Memory> for Stopped {
    ghost use Rattle.std.specs.Prelude.{◌≡◌};
    ghost use Rattle.mx_restore.specs.declared.reading.Stopped.TheVariants as stops;

    ghost from_gives = { λ m e. e ≡ stops.Memory m };

    fn from(refused: Memory) -> Stopped {
        Stopped::Memory(refused)
    }
}

/// Takes the next bytes of a log behind those in which no line ended, and reads the lines of them all. What stands behind these lines is
/// left. The log stays as it was.
pub(crate) fn read_batch<S: LogFile>(alloc: Global, log: &mut S, rest: &mut Vec<u8>) -> Batch
    requires rest_open { IsOpen rest.old.items }
    ensures read { HasReadMore (S.left log.old) (S.left log.new) rest.old.items rest.new.items [] result.lines.items }
    ensures stops { StopsAt result.stopped rest.new.items }
    ensures end { result.stopped ≡ Stopped.End → IsAtEnd (S.left log.new) }
    ensures told { S.told log.new ≡ S.told log.old }
    ensures count { S.faults log.old ≤ S.faults log.new }
    ensures cause { result.stopped ≡ Stopped.Failed → Rose (S.faults log.old) (S.faults log.new) }
{
    let mut lines = Vec::new(alloc);
    'takes: for _ in 0..TAKES {
        let stopped = read_more(alloc, log, rest, &mut lines);
        if !stopped.is_open() {
            return Batch { lines, stopped };
        }
    }
    Batch {
        lines,
        stopped: Stopped::Open,
    }
}

/// Takes the next bytes of a log behind others, and reads the lines of them all; why no more lines are read.
fn read_more<S: LogFile>(
    alloc: Global,
    log: &mut S,
    rest: &mut Vec<u8>,
    lines: &mut Vec<ReadLine>,
) -> Stopped
    requires rest_open { IsOpen rest.old.items }
    ensures read { HasReadMore (S.left log.old) (S.left log.new) rest.old.items rest.new.items lines.old.items lines.new.items }
    ensures stops { StopsAt result rest.new.items }
    ensures end { result ≡ Stopped.End → IsAtEnd (S.left log.new) }
    ensures told { S.told log.new ≡ S.told log.old }
    ensures count { S.faults log.old ≤ S.faults log.new }
    ensures cause { result ≡ Stopped.Failed → Rose (S.faults log.old) (S.faults log.new) }
{
    if let Err(stopped) = take_piece(log, rest) {
        return stopped;
    }
    let (used, stopped) = read_lines(alloc, rest.as_slice(), lines);
    cut_front(rest, used);
    unless_long(stopped, rest.as_slice())
}

/// Takes the next bytes of a log behind others, in which no line ends; why there are none.
fn take_piece<S: LogFile>(log: &mut S, bytes: &mut Vec<u8>) -> Result<(), Stopped>
    requires bytes_open { IsOpen bytes.old.items }
    ensures took { (piece : List ℕ) × (bytes.new.items ≡ bytes.old.items ++ piece) × Consumes (S.left log.old) (S.left log.new) piece }
    ensures stops { IfErr result (λ s. StopsAt s bytes.new.items) }
    ensures end { IfErr result (λ s. s ≡ Stopped.End → IsAtEnd (S.left log.new)) }
    ensures told { S.told log.new ≡ S.told log.old }
    ensures count { S.faults log.old ≤ S.faults log.new }
    ensures cause { IfErr result (λ s. s ≡ Stopped.Failed → Rose (S.faults log.old) (S.faults log.new)) }
{
    let before = bytes.len();
    grow(bytes)?;
    match take_behind(log, bytes.as_mut_slice(), before) {
        Took::Got(count) => {
            bytes.truncate(before + count);
            Ok(())
        }
        Took::End => {
            bytes.truncate(before);
            Err(Stopped::End)
        }
        Took::Failed => {
            bytes.truncate(before);
            Err(Stopped::Failed)
        }
    }
}

/// Takes the next bytes of a log behind the first so many.
fn take_behind<S: LogFile>(log: &mut S, bytes: &mut [u8], before: usize) -> Took
    requires { before < length bytes.old }
    ensures front { take before bytes.new ≡ take before bytes.old }
    ensures room { FitsRoom result (length bytes.old - before) }
    ensures took { Moves (S.left log.old) (S.left log.new) result (drop before bytes.new) }
    ensures told { S.told log.new ≡ S.told log.old }
    ensures count { S.faults log.old ≤ S.faults log.new }
    ensures cause { result ≡ Took.Failed → Rose (S.faults log.old) (S.faults log.new) }
{
    log.take(&mut bytes[before..])
}

/// Makes room behind bytes for as many more, or for a piece.
fn grow(bytes: &mut Vec<u8>) -> Result<(), Memory>
    ensures front { OnOk result (take (length bytes.old.items) bytes.new.items ≡ bytes.old.items) }
    ensures room { OnOk result (length bytes.old.items < length bytes.new.items) }
    ensures same { OnErr result (bytes.new.items ≡ bytes.old.items) }
{
    let count = bytes.len();
    bytes.resize(count.saturating_add(count.max(PIECE)), 0)?;
    Ok(())
}

/// Removes the first so many bytes.
fn cut_front(bytes: &mut Vec<u8>, used: usize)
    requires { used ≤ length bytes.old.items }
    ensures { bytes.new.items ≡ drop used bytes.old.items }
{
    bytes.drain(..used);
}

/// Reads the lines of bytes: how many bytes these have, and why no more lines are read.
fn read_lines(alloc: Global, bytes: &[u8], lines: &mut Vec<ReadLine>) -> (usize, Stopped)
    ensures within { result.0 ≤ length bytes.now }
    ensures read { HasRead bytes.now (drop result.0 bytes.now) lines.old.items lines.new.items }
    ensures stops { StopsHere result.1 (drop result.0 bytes.now) }
{
    let mut rest = bytes;
    'lines: loop {
        match read_first(alloc, rest, lines) {
            Ok(behind) => rest = behind,
            Err(stopped) => return (bytes.len() - rest.len(), stopped),
        }
    }
}

/// Reads the line at the front of bytes: what stands behind it.
fn read_first<'a>(
    alloc: Global,
    bytes: &'a [u8],
    lines: &mut Vec<ReadLine>,
) -> Result<&'a [u8], Stopped>
    ensures read { IfOk result (λ behind. ReadsOne bytes.now behind.now lines.old.items lines.new.items) }
    ensures stops { IfErr result (λ s. StopsHere s bytes.now) }
    ensures same { OnErr result (lines.new.items ≡ lines.old.items) }
{
    match first_line(bytes) {
        First::Line(text, behind) => {
            let value = read_text(alloc, text)?;
            let said = said_by(alloc, value)?;
            let line = &bytes[..bytes.len() - behind.len()];
            push_line(alloc, lines, line, said)?;
            Ok(behind)
        }
        First::Open => Err(Stopped::Open),
        First::Wrong => Err(Stopped::Wrong(Wrong::Check)),
    }
}

/// What a text says.
fn read_text(alloc: Global, text: &[u8]) -> Result<Json, Stopped>
    ensures read { IfOk result (λ j. read_json text.now ≡ Ok j) }
    ensures stops { IfErr result (λ s. StopsText s text.now) }
{
    match read(alloc, text) {
        Ok(value) => Ok(value),
        Err(JsonFault::Memory(refused)) => Err(Stopped::Memory(refused)),
        Err(_) => Err(Stopped::Wrong(Wrong::Text)),
    }
}

/// What a line of this value says.
fn said_by(alloc: Global, value: Json) -> Result<LineSaid, Memory>
    ensures { IfOk result (λ said. IsSaidBy value said) }
{
    if is_named(&value, "mxsync") || is_named(&value, "devices") {
        return Ok(LineSaid::Other(value));
    }
    match read_record(alloc, &value)? {
        Some(store) => Ok(LineSaid::Store(store)),
        None => Ok(LineSaid::Other(value)),
    }
}

/// Puts a line, of which a copy is made, and what it says behind others.
fn push_line(
    alloc: Global,
    lines: &mut Vec<ReadLine>,
    line: &[u8],
    said: LineSaid,
) -> Result<(), Memory>
    ensures pushed { OnOk result ((l : ReadLine) × (lines.new.items ≡ lines.old.items ++ l ∷ []) × (l.bytes.items ≡ line.now) × (l.said ≡ said)) }
    ensures same { OnErr result (lines.new.items ≡ lines.old.items) }
{
    let bytes = Vec::from_slice(alloc, line)?;
    lines.push(ReadLine { bytes, said })?;
    Ok(())
}

/// Why no more lines are read, where these bytes are left: also since so many are no line.
fn unless_long(stopped: Stopped, rest: &[u8]) -> Stopped
    requires { StopsHere stopped rest.now }
    ensures { StopsHere result rest.now }
{
    if rest.len() <= LONGEST {
        return stopped;
    }
    match stopped {
        Stopped::Open => Stopped::Wrong(Wrong::Long),
        other => other,
    }
}

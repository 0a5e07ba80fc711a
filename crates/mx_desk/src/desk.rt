//! The desk: a queue of lines before a journal.

ghost use Rattle.std.specs.Prelude.{◌<◌};

use mx_ids::Memory;
use mx_journal::{Closed, Journal};
use mx_log::Log;
use mx_wait::StreamName;
use std::alloc::Global;
use std::mem;
use std::sync::{Condvar, Mutex, Wait};

/// How many streams share a journal.
const STREAMS: usize = 3;

/// How many lines wait at most: one of each writer of each stream.
const MOST_LINES: usize = 16 * STREAMS;

/// What becomes of lines.
#[derive(Drop)]
enum Phase {
    /// Each has to be this line, which the file has.
    Replaying(Vec<u8>),
    /// They are kept.
    Open,
    /// They are refused.
    Closed,
}

/// What is under the lock.
#[derive(Drop)]
struct State<L: Log> {
    phase: Phase,
    /// The journal, once the desk is open, unless a writer has it in hand and keeps lines.
    journal: Option<Journal<L>>,
    /// The lines that wait.
    queue: Vec<Vec<u8>>,
    /// The space of the queue while a writer has the journal in hand.
    spare: Vec<Vec<u8>>,
    /// Of each stream the position at which its next line begins.
    next: [u64; STREAMS],
    /// How many lines came.
    came: u64,
    /// How many of them are settled.
    settled: u64,
}

/// The positions that a line stores at.
#[derive(Clone, Copy)]
pub struct Block {
    pub stream: StreamName,
    pub first: u64,
    pub count: u64,
}

impl<L: Log> State<L> {
    /// Whether a block is the next one of its stream.
    fn is_next(&self, block: Block) -> bool {
        self.next[place_of(block)] == block.first
    }

    /// The block came.
    fn pass(&mut self, block: Block) {
        self.next[place_of(block)] = block.first.saturating_add(block.count);
    }

    /// Puts a line at the end of the queue, and numbers it.
    fn push(&mut self, block: Block, line: Vec<u8>) -> Result<u64, Closed> {
        if self.queue.push(line).is_err() {
            self.phase = Phase::Closed;
            return Err(Closed);
        }
        self.pass(block);
        self.came = self.came.saturating_add(1);
        Ok(self.came)
    }

    /// The lines that wait.
    fn take_lines(&mut self, alloc: Global) -> Vec<Vec<u8>> {
        let space = mem::replace(&mut self.spare, Vec::new(alloc));
        mem::replace(&mut self.queue, space)
    }
}

/// The place of a block's stream.
fn place_of(block: Block) -> usize
    ensures { result < 3 }
{
    match block.stream {
        StreamName::Events => 0,
        StreamName::Receipts => 1,
        StreamName::Accounts => 2,
    }
}

/// A journal that writers share.
#[derive(Drop)]
pub struct Desk<L: Log> {
    alloc: Global,
    state: Mutex<State<L>>,
    changed: Condvar,
}

impl<L: Log + Drop> Desk<L> {
    /// A desk without a journal, whose streams have no line yet. Until it is opened each line has to be one that is replayed.
    pub fn new(alloc: Global) -> Result<Desk<L>, Memory> {
        let queue = Vec::with_capacity(alloc, MOST_LINES)?;
        let spare = Vec::with_capacity(alloc, MOST_LINES)?;
        Ok(Desk {
            alloc,
            state: Mutex::new(State {
                phase: Phase::Replaying(Vec::new(alloc)),
                journal: None,
                queue,
                spare,
                next: [1; STREAMS],
                came: 0,
                settled: 0,
            }),
            changed: Condvar::new(),
        })
    }

    /// The next line has to be this one.
    pub fn replay<R: Wait>(&self, rt: &R, line: Vec<u8>) {
        let mut state = self.state.lock(rt);
        state.phase = Phase::Replaying(line);
    }

    /// From now on lines are kept, behind those of this journal, which are the ones that were replayed.
    pub fn open<R: Wait>(&self, rt: &R, journal: Journal<L>) {
        let mut state = self.state.lock(rt);
        state.journal = Some(journal);
        state.phase = Phase::Open;
    }

    /// Gives the journal back, where no writer has it in hand, and keeps nothing any more.
    pub fn close<R: Wait>(&self, rt: &R) -> Option<Journal<L>> {
        let mut state = self.state.lock(rt);
        state.phase = Phase::Closed;
        state.journal.take()
    }

    /// Keeps the line of a block: it is settled at `Ok`. Waits until the lines of all lower positions of the stream came, and for
    /// the settling. While lines are replayed it is only compared with the one that is due.
    pub fn keep<R: Wait>(&self, rt: &R, block: Block, line: Vec<u8>) -> Result<(), Closed> {
        match self.enqueue(rt, block, line)? {
            Some(number) => self.settle(rt, number),
            None => Ok(()),
        }
    }

    /// Waits until a block is the next one of its stream, and puts its line into the queue: its number, or nothing where the line is
    /// replayed.
    fn enqueue<R: Wait>(&self, rt: &R, block: Block, line: Vec<u8>) -> Result<Option<u64>, Closed> {
        let mut state = self.state.lock(rt);
        for _ in rt.forever() {
            match &state.phase {
                Phase::Closed => return Err(Closed),
                Phase::Replaying(known) => {
                    if *known.as_slice() != *line.as_slice() || !state.is_next(block) {
                        return Err(Closed);
                    }
                    state.pass(block);
                    return Ok(None);
                }
                Phase::Open => {}
            }
            if state.is_next(block) {
                break;
            }
            state = self.changed.wait(rt, state);
        }
        let number = state.push(block, line);
        self.changed.notify_all();
        Ok(Some(number?))
    }

    /// Waits until so many lines are settled. Whoever finds the journal free settles all that wait.
    fn settle<R: Wait>(&self, rt: &R, number: u64) -> Result<(), Closed> {
        let mut state = self.state.lock(rt);
        for _ in rt.forever() {
            if state.settled >= number {
                return Ok(());
            }
            if matches!(state.phase, Phase::Closed) {
                return Err(Closed);
            }
            match state.journal.take() {
                None => state = self.changed.wait(rt, state),
                Some(mut journal) => {
                    let mut lines = state.take_lines(self.alloc);
                    let upto = state.came;
                    drop(state);
                    let kept = keep_all(self.alloc, &mut journal, &lines);
                    lines.clear();
                    state = self.state.lock(rt);
                    state.journal = Some(journal);
                    state.spare = lines;
                    if kept {
                        state.settled = upto;
                    } else {
                        state.phase = Phase::Closed;
                    }
                    self.changed.notify_all();
                }
            }
        }
        unreachable!()
    }
}

/// Keeps lines, all at once where memory for that is given, and says whether all are kept.
fn keep_all<L: Log>(alloc: Global, journal: &mut Journal<L>, lines: &Vec<Vec<u8>>) -> bool {
    match joined(alloc, lines) {
        Ok(batch) => journal.keep(batch.as_slice()).is_ok(),
        Err(_) => each_kept(journal, lines.as_slice()),
    }
}

fn each_kept<L: Log>(journal: &mut Journal<L>, lines: &[Vec<u8>]) -> bool {
    'lines: for line in lines {
        if journal.keep(line.as_slice()).is_err() {
            return false;
        }
    }
    true
}

/// The lines one after the other.
fn joined(alloc: Global, lines: &Vec<Vec<u8>>) -> Result<Vec<u8>, Memory> {
    let mut batch = Vec::new(alloc);
    'lines: for line in lines {
        batch.extend_from_slice(line.as_slice())?;
    }
    Ok(batch)
}

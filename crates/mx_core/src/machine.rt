//! The machine of a stream: its writers, their drawn blocks, its history and its front.

ghost use Rattle.std.specs.Prelude.{◌≡◌, ◌<◌, ◌≤◌, ◌^◌, ◌+◌, length, IfOk, IfErr, OnErr, IfSome};
ghost use Rattle.mx_core.specs.Front.{IsFront};
ghost use Rattle.mx_core.specs.Limits.{most_writers};
ghost use Rattle.mx_core.specs.State.{start, before_block};
ghost use Rattle.mx_core.specs.Moves.{IsStep, Moves, IsRefused};
ghost use Rattle.mx_core.specs.Runs.{IsReached};
ghost use Rattle.mx_core.specs.declared.machine.Step.TheVariants.{Draw, Store};

use crate::history::Stored;
use mx_ids::{Memory, Seq};
use std::alloc::{AllocFailed, Global};
use std::marker::Model;

/// Consecutive positions that a writer has drawn and not stored yet.
#[derive(Clone, Copy, Debug, PartialEq, Eq)]
pub struct Block {
    /// The first position, at least 1.
    pub first: u64,
    /// The number of positions, at least 1.
    pub count: u16,
}

/// One step of a writer. Writers are numbered from 0.
#[derive(Debug, Drop)]
pub enum Step<I> {
    /// Draws the next `count` positions.
    Draw { writer: u8, count: u16 },
    /// Stores items at the positions that the writer has drawn.
    Store { writer: u8, items: Seq<I> },
}

/// What a step that was taken answers.
#[derive(Clone, Copy, Debug, PartialEq, Eq)]
pub enum Moved {
    /// The block that a draw gave.
    Drawn { first: u64, count: u16 },
    /// The front after a store.
    Stored { front: u64 },
}

/// Why a step was refused.
#[derive(Clone, Copy, Debug, PartialEq, Eq)]
pub enum StepFault {
    /// The writer of a draw holds a block, which begins at this position.
    AlreadyDrawn(u64),
    /// The writer of a store holds no block.
    NothingDrawn,
    /// A store gives another number of items than its writer drew positions.
    WrongCount { drawn: u16, given: u64 },
    /// The draw would reach the limit: the last position that was drawn.
    AtLimit(u64),
    /// The allocator refused the room for one more store.
    Memory(Memory),
}

impl<T: Drop> From<AllocFailed<T>> for StepFault {
    ghost use Rattle.std.specs.Prelude.{◌≡◌};
    ghost use Rattle.mx_ids.specs.Memory.{refused_memory};
    ghost use Rattle.mx_core.specs.declared.machine.StepFault.TheVariants as faults;

    ghost from_gives = { λ _ e. e ≡ faults.Memory refused_memory };

    fn from(refused: AllocFailed<T>) -> StepFault {
        StepFault::Memory(refused.into())
    }
}

/// A stream as a plain value: the number of positions drawn, the block that each writer holds, and the history of the
/// stores. Contracts see it as a `State`. Each machine is in a state that steps have reached from the empty one.
#[derive(Drop)]
pub struct Machine<I> {
    limit: u64,
    next: u64,
    held: Vec<Option<Block>>,
    history: Vec<Stored<I>>,
}

impl<I> Model for Machine<I> {
    ghost use Rattle.mx_core.specs.State.{State};
    ghost use Rattle.mx_core.specs.Machine.{IsMachine};

    ghost Value = { State I };

    ghost view = { λ m. record { limit = m.limit; next = m.next; held = m.held.items; history = m.history.items } };

    ghost invariant = { λ m. IsMachine (record { limit = m.limit; next = m.next; held = m.held.items; history = m.history.items }) };
}

impl<I: Drop> Machine<I> {
    /// A machine of 1 to 16 writers, whose positions stay below `limit`, at most 2^48. `Memory` where the allocator
    /// refuses the list of writers.
    pub fn new(alloc: Global, writers: u8, limit: u64) -> Result<Machine<I>, Memory>
        requires writers { (1 ≤ writers) × (writers ≤ most_writers) }
        requires limit { limit ≤ 2 ^ 48 }
        ensures { IfOk result (λ m. m ≡ start writers limit) }
    {
        Ok(Machine {
            limit,
            next: 0,
            held: vec![in alloc; None; usize::from(writers)]?,
            history: Vec::new(alloc),
        })
    }

    /// Takes one step of a writer of this machine; a draw asks for at least one position. On a fault nothing changes,
    /// and the items are dropped. The faults are judged in this order. A draw: `AlreadyDrawn` exactly where the writer
    /// holds a block; `AtLimit` exactly where the positions drawn and those asked for reach the limit. A store:
    /// `NothingDrawn` exactly where the writer holds no block; `WrongCount` exactly where the numbers differ;
    /// `Memory` where the allocator refuses the room for the store. Costs time in the number of writers, however long
    /// the stream is.
    pub fn apply(&mut self, step: Step<I>) -> Result<Moved, StepFault>
        requires { IsStep self.old step }
        ensures moved { IfOk result (λ moved. Moves self.old step moved self.new) }
        ensures refused { IfErr result (λ fault. IsRefused self.old step fault) }
        ensures same { OnErr result (self.new ≡ self.old) }
        ensures writers { length self.new.held ≡ length self.old.held }
        ensures reached { IsReached self.new }
    {
        match step {
            Step::Draw { writer, count } => self.draw(writer, count),
            Step::Store { writer, items } => self.store(writer, items),
        }
    }
}

impl<I: Drop> Machine<I> {
    /// The front: the greatest position such that each position from 1 to it is stored. Takes no memory, and time in
    /// the number of writers: what isn't stored up to the last position drawn is held by a writer.
    pub fn front(&self) -> u64
        ensures { IsFront self.now.history result }
    {
        let mut front = self.next;
        for block in &self.held {
            front = before_block(front, *block);
        }
        front
    }

    fn draw(&mut self, writer: u8, count: u16) -> Result<Moved, StepFault>
        requires writer { writer < length self.old.held }
        requires count { 0 < count }
        ensures moved { IfOk result (λ moved. Moves self.old (Draw writer count) moved self.new) }
        ensures refused { IfErr result (λ fault. IsRefused self.old (Draw writer count) fault) }
        ensures same { OnErr result (self.new ≡ self.old) }
        ensures reached { IsReached self.new }
    {
        let holder = usize::from(writer);
        match self.held[holder] {
            Some(block) => return Err(StepFault::AlreadyDrawn(block.first)),
            None => {}
        }
        if self.next + u64::from(count) >= self.limit {
            return Err(StepFault::AtLimit(self.next));
        }
        let first = self.next + 1;
        self.held[holder] = Some(Block { first, count });
        self.next += u64::from(count);
        Ok(Moved::Drawn { first, count })
    }

    fn store(&mut self, writer: u8, items: Seq<I>) -> Result<Moved, StepFault>
        requires writer { writer < length self.old.held }
        ensures moved { IfOk result (λ moved. Moves self.old (Store writer items) moved self.new) }
        ensures refused { IfErr result (λ fault. IsRefused self.old (Store writer items) fault) }
        ensures same { OnErr result (self.new ≡ self.old) }
        ensures reached { IsReached self.new }
    {
        let holder = usize::from(writer);
        let Some(block) = self.held[holder] else {
            return Err(StepFault::NothingDrawn);
        };
        let given = items.len() as u64;
        if given != u64::from(block.count) {
            return Err(StepFault::WrongCount {
                drawn: block.count,
                given,
            });
        }
        let store = Stored {
            writer,
            first: block.first,
            items,
        };
        self.history.push(store)?;
        self.held[holder] = None;
        Ok(Moved::Stored {
            front: self.front(),
        })
    }
}

/// The lesser of a position and the position before a block.
fn before_block(position: u64, block: Option<Block>) -> u64
    requires { IfSome block (λ b. 0 < b.first) }
    ensures { result ≡ before_block position block }
{
    match block {
        None => position,
        Some(block) => position.min(block.first - 1),
    }
}

//! What a writer keeps its stores by: a desk.

ghost use Rattle.std.specs.Prelude.{◌≡◌, ◌∷◌, [], ◌++◌, IfOk, OnOk, decimal};
ghost use Rattle.mx_journal.specs.Kept.{AreLines};

use crate::desk::{Block, Desk};
use crate::texts::Texts;
use itoa::Buffer;
use mx_core::{Placed, Prepared};
use mx_ids::{Memory, Seq};
use mx_journal::{LineFault, add_line};
use mx_keep::Keeper;
use mx_log::Log;
use mx_records::RecordFault;
use mx_wait::StreamName;
use mx_writers::Lost;
use std::alloc::Global;
use std::sync::{Arc, Wait};

/// The text of a block that is prepared, as far as its first position, and the space of its line.
#[derive(Drop)]
struct Begun {
    text: Vec<u8>,
    line: Vec<u8>,
    ghost fresh: { line.items ≡ [] },
}

/// A writer of a stream at a desk.
#[derive(Drop)]
pub struct DeskKeeper<L: Log, T> {
    alloc: Global,
    desk: Arc<Desk<L>>,
    texts: T,
    stream: StreamName,
    writer: u8,
    begun: Option<Begun>,
}

/// The space of a line besides the text as far as the first position: its check, a space, 20 digits, a bracket and the end.
const MARGIN: usize = 31;

impl<L: Log + Drop, T> DeskKeeper<L, T> {
    /// The keeper of a writer of a stream.
    pub fn new(
        alloc: Global,
        desk: Arc<Desk<L>>,
        texts: T,
        stream: StreamName,
        writer: u8,
    ) -> DeskKeeper<L, T>
        ensures { result.writer ≡ writer }
    {
        DeskKeeper {
            alloc,
            desk,
            texts,
            stream,
            writer,
            begun: None,
        }
    }

    /// Makes the text of a block, with all space that its line wants.
    fn begin<I>(&self, items: &Seq<I>) -> Result<Begun, RecordFault>
    where
        T: Texts<I>,
        ensures { IfOk result (λ b. b.text.items ≡ T.front self.now.texts self.now.writer items.now) }
    {
        let text = self.texts.front(self.alloc, self.writer, items)?;
        Ok(with_space(self.alloc, text.into_string().into_bytes())?)
    }
}

/// A text with the space for its end, and the space of its line.
fn with_space(alloc: Global, mut text: Vec<u8>) -> Result<Begun, Memory>
    ensures { IfOk result (λ b. b.text.items ≡ text.items) }
{
    text.reserve(MARGIN)?;
    let line = Vec::with_capacity(alloc, text.len().saturating_add(MARGIN))?;
    Ok(Begun { text, line })
}

/// The line of a block, whose first position is known now.
fn line_from(begun: Begun, first: u64) -> Result<Vec<u8>, LineFault>
    ensures { IfOk result (λ line. AreLines line.items ((begun.text.items ++ (decimal first ++ 93 ∷ [])) ∷ [])) }
{
    let Begun { mut text, mut line } = begun;
    put_first(&mut text, first)?;
    add_line(&mut line, text.as_slice())?;
    Ok(line)
}

/// Ends the text of a block: its first position, and a bracket.
fn put_first(text: &mut Vec<u8>, first: u64) -> Result<(), Memory>
    ensures { OnOk result (text.new.items ≡ text.old.items ++ (decimal first ++ 93 ∷ [])) }
{
    let mut digits = Buffer::new();
    text.extend_from_slice(digits.format(first).as_bytes())?;
    text.push(b']')?;
    Ok(())
}

impl<I: Placed, L: Log + Drop, T: Texts<I> + Drop> Keeper<I> for DeskKeeper<L, T> {
    ghost use Rattle.std.specs.Prelude.{true, false, []};

    ghost writer = { λ k. k.writer };

    ghost tells = { false };

    ghost loses = { true };

    ghost kept = { λ _. [] };

    ghost ready = { λ _ _. true };

    fn prepare(&mut self, _alloc: Global, prepared: &Prepared<I>) -> Result<(), Memory> {
        self.begun = None;
        match self.begin(&prepared.items) {
            Ok(begun) => {
                self.begun = Some(begun);
                Ok(())
            }
            Err(RecordFault::Large) => Ok(()),
            Err(RecordFault::Memory(refused)) => Err(refused),
        }
    }

    fn keep<R: Wait>(&mut self, rt: &R, first: u64, prepared: &Prepared<I>) -> Result<(), Lost> {
        let Some(begun) = self.begun.take() else {
            return Err(Lost);
        };
        let Ok(line) = line_from(begun, first) else {
            return Err(Lost);
        };
        let block = Block {
            stream: self.stream,
            first,
            count: prepared.items.len() as u64,
        };
        match self.desk.keep(rt, block, line) {
            Ok(()) => Ok(()),
            Err(_) => Err(Lost),
        }
    }
}

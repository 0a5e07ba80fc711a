//! The bytes of an answer on their way to a sink. They wait in a stage, so that a small answer is
//! one `put`, and a large one few.
ghost use Rattle.std.specs.Prelude.{◌≡◌, ◌+◌, ◌≤◌, ◌++◌, [], length, flat_map, OnOk};
ghost use Rattle.mx_http.specs.Stages.{state_of, Sends};

use crate::answer::WriteFault;
use mx_outside::{Put, Sink};
use std::marker::Model;

/// How many bytes may wait.
const SIZE: usize = 4096;

/// Bytes that wait, which contracts see as their list.
#[derive(Drop)]
pub(crate) struct Stage {
    bytes: [u8; SIZE],
    len: usize,
}

impl Model for Stage {
    ghost use Rattle.std.specs.Prelude.{ℕ, List, ◌≤◌, take};

    ghost Value = { List ℕ };

    ghost view = { λ s. take s.len s.bytes };

    ghost invariant = { λ s. s.len ≤ 4096 };
}

impl Stage {
    /// No byte waits.
    pub(crate) fn new() -> Stage
        ensures { result ≡ [] }
    {
        Stage {
            bytes: [0; SIZE],
            len: 0,
        }
    }

    /// The bytes that wait.
    fn as_slice(&self) -> &[u8]
        ensures { result.now ≡ self.now }
    {
        &self.bytes[..self.len]
    }

    /// How many more bytes may wait.
    fn room(&self) -> usize
        ensures { result + length self.now ≡ 4096 }
    {
        SIZE - self.len
    }

    fn append(&mut self, more: &[u8])
        requires { length self.old + length more.now ≤ 4096 }
        ensures { self.new ≡ self.old ++ more.now }
    {
        let len = self.len;
        self.bytes[len..len + more.len()].copy_from_slice(more);
        self.len = len + more.len();
    }

    fn clear(&mut self)
        ensures { self.new ≡ [] }
    {
        self.len = 0;
    }
}

/// Puts bytes behind those that wait. What finds no room makes those go to the sink first.
pub(crate) fn put<K: Sink>(sink: &mut K, stage: &mut Stage, bytes: &[u8]) -> Result<(), WriteFault>
    ensures { Sends (state_of K.written K.faults sink.old stage.old) result (state_of K.written K.faults sink.new stage.new) bytes.now }
{
    if bytes.len() <= stage.room() {
        stage.append(bytes);
        return Ok(());
    }
    flush(sink, stage)?;
    if bytes.len() <= stage.room() {
        stage.append(bytes);
        return Ok(());
    }
    hand_on(sink, bytes)
}

/// Puts all of the pieces, one after the other.
pub(crate) fn put_all<K: Sink>(
    sink: &mut K,
    stage: &mut Stage,
    pieces: &[&[u8]],
) -> Result<(), WriteFault>
    ensures { Sends (state_of K.written K.faults sink.old stage.old) result (state_of K.written K.faults sink.new stage.new)
        (flat_map (λ p. p.now) pieces.now) }
{
    'pieces: for piece in pieces {
        put(sink, stage, piece)?;
    }
    Ok(())
}

/// Hands on all bytes that wait to the sink.
pub(crate) fn flush<K: Sink>(sink: &mut K, stage: &mut Stage) -> Result<(), WriteFault>
    ensures bytes { Sends (state_of K.written K.faults sink.old stage.old) result (state_of K.written K.faults sink.new stage.new) [] }
    ensures empty { OnOk result (stage.new ≡ []) }
{
    hand_on(sink, stage.as_slice())?;
    stage.clear();
    Ok(())
}

/// Hands on bytes to the sink, where none wait.
fn hand_on<K: Sink>(sink: &mut K, bytes: &[u8]) -> Result<(), WriteFault>
    ensures { Sends (state_of K.written K.faults sink.old []) result (state_of K.written K.faults sink.new []) bytes.now }
{
    match sink.put(bytes) {
        Put::Done => Ok(()),
        Put::Failed => Err(WriteFault),
    }
}

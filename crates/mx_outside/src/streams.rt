//! The standard streams, and any reader or writer of std.
ghost use Rattle.std.specs.Prelude.{◌≡◌, ◌≤◌};
ghost use Rattle.mx_outside.specs.Causes.{Rose};
ghost use Rattle.mx_outside.specs.Moves.{Adds};

use crate::sink::{Put, Sink};
use crate::source::{Source, Took};
use std::io::{Read, Stderr, Stdin, Stdout, Write};
use std::marker::Model;

/// A reader of std as a source. Each error of the reader, also an interrupted read, is a fault.
#[derive(Drop)]
pub struct Reading<R> {
    reader: R,
    faults: u64,
}

/// A writer of std as a sink. Each error of the writer, and a write that takes nothing, is a fault.
#[derive(Drop)]
pub struct Writing<W> {
    writer: W,
    faults: u64,
}

/// Standard input. Nothing is told of its bytes.
pub type StdIn = Reading<Stdin>;

/// Standard output, without a buffer. Nothing is told of its bytes.
pub type StdOut = Writing<Stdout>;

/// Standard error, without a buffer. Nothing is told of its bytes.
pub type StdErr = Writing<Stderr>;

impl<R> Model for Reading<R> {
    ghost use Rattle.std.specs.Prelude.{ℕ};

    ghost Value = { R × ℕ };

    ghost view = { λ s. (s.reader, s.faults) };
}

impl<W> Model for Writing<W> {
    ghost use Rattle.std.specs.Prelude.{ℕ};

    ghost Value = { W × ℕ };

    ghost view = { λ s. (s.writer, s.faults) };
}

impl<R: Read> Reading<R> {
    /// The source of what `reader` gives, without a fault so far.
    pub fn new(reader: R) -> Reading<R>
        ensures { result ≡ (reader, 0) }
    {
        Reading { reader, faults: 0 }
    }
}

impl<W: Write> Writing<W> {
    /// The sink that hands on to `writer`, without a fault so far.
    pub fn new(writer: W) -> Writing<W>
        ensures { result ≡ (writer, 0) }
    {
        Writing { writer, faults: 0 }
    }

    pub(crate) fn writer(&self) -> &W
        ensures { result.now ≡ self.now.0 }
    {
        &self.writer
    }

    /// Counts a fault.
    pub(crate) fn fault(&mut self)
        ensures writer { self.new.0 ≡ self.old.0 }
        ensures count { self.old.1 ≤ self.new.1 }
        ensures rose { Rose self.old.1 self.new.1 }
    {
        self.faults = self.faults.saturating_add(1);
    }
}

impl<R: Read> Source for Reading<R> {
    ghost left = { λ s. R.remaining s.0 };

    ghost faults = { λ s. s.1 };

    fn take(&mut self, into: &mut [u8]) -> Took {
        match self.reader.read(into) {
            Ok(0) => Took::End,
            Ok(count) => Took::Got(count),
            Err(_) => {
                self.faults = self.faults.saturating_add(1);
                Took::Failed
            }
        }
    }
}

impl<W: Write> Sink for Writing<W> {
    ghost written = { λ s. W.contents s.0 };

    ghost faults = { λ s. s.1 };

    /// The writer is flushed, so that what was put is seen at once.
    fn put(&mut self, bytes: &[u8]) -> Put {
        let put = write_and_flush(&mut self.writer, bytes);
        if matches!(put, Put::Failed) {
            self.fault();
        }
        put
    }

    /// A writer tells it by its errors alone.
    fn is_gone(&mut self) -> bool {
        false
    }
}

/// Writes all of `bytes`, or a part from their front.
fn write_and_flush<W: Write>(writer: &mut W, bytes: &[u8]) -> Put
    ensures { Adds (W.contents writer.old) (W.contents writer.new) result bytes.now }
{
    let mut done = 0;
    'writes: while done < bytes.len() {
        match writer.write(&bytes[done..]) {
            Ok(0) | Err(_) => return Put::Failed,
            Ok(count) => done += count,
        }
    }
    match writer.flush() {
        Ok(()) => Put::Done,
        Err(_) => Put::Failed,
    }
}

//! The files of the system.
ghost use Rattle.std.specs.Prelude.{◌≡◌, ◌<◌, ◌≤◌, ℕ, length, IfOk, IsErrOf, None, List, ◌++◌};
ghost use Rattle.std.specs.Io.KnownBytes.{Consumes, IsAtEnd};
ghost use Rattle.mx_outside.specs.Moves.{Holds, IsLonger};

use crate::file_set::{FileFault, Files};
use std::alloc::Global;
use std::io::Read;
use std::marker::Model;
use std::{fs, rt};

/// How many bytes one read asks for, at most.
const PIECE: usize = 4096;

/// The files of the system. Nothing is told of their bytes.
#[derive(Drop)]
pub struct HostFiles<R> {
    rt: R,
    faults: u64,
}

impl<R> Model for HostFiles<R> {
    ghost use Rattle.std.specs.Prelude.{ℕ};

    ghost Value = { R × ℕ };

    ghost view = { λ s. (s.rt, s.faults) };
}

impl<R: rt::Files> HostFiles<R> {
    /// The files that `rt` gives, without a fault so far.
    pub fn new(rt: R) -> HostFiles<R>
        ensures { result ≡ (rt, 0) }
    {
        HostFiles { rt, faults: 0 }
    }
}

impl<R: rt::Files> Files for HostFiles<R> {
    ghost told = { λ _ _. None };

    ghost faults = { λ s. s.1 };

    fn read(&mut self, alloc: Global, name: &str, most: usize) -> Result<Vec<u8>, FileFault> {
        let result = match fs::open(&self.rt, name) {
            Ok(mut file) => read_within(alloc, &mut file, most),
            Err(_) => Err(FileFault::Failed),
        };
        if matches!(result, Err(FileFault::Failed)) {
            self.faults = self.faults.saturating_add(1);
        }
        result
    }
}

/// Reads to the end, at most `most` bytes and one more.
fn read_within<R: Read>(alloc: Global, reader: &mut R, most: usize) -> Result<Vec<u8>, FileFault>
    ensures found { IfOk result (λ bytes. Holds (R.remaining reader.old) bytes.items) }
    ensures within { IfOk result (λ bytes. length bytes.items ≤ most) }
    ensures too_long { IsErrOf result FileFault.TooLong → IsLonger (R.remaining reader.old) most }
{
    let mut bytes = Vec::new(alloc);
    'pieces: while bytes.len() <= most {
        let room = (most - bytes.len()).min(PIECE - 1) + 1;
        if read_piece(reader, room, &mut bytes)? == 0 {
            return Ok(bytes);
        }
    }
    Err(FileFault::TooLong)
}

/// Reads once, at most `room` bytes, to the end of `bytes`.
fn read_piece<R: Read>(reader: &mut R, room: usize, bytes: &mut Vec<u8>) -> Result<usize, FileFault>
    requires some { 0 < room }
    requires fits { room ≤ PIECE }
    ensures moved { IfOk result (λ n. (piece : List ℕ) × (bytes.new.items ≡ bytes.old.items ++ piece) × (length piece ≡ n)
        × Consumes (R.remaining reader.old) (R.remaining reader.new) piece) }
    ensures end { IfOk result (λ n. n ≡ 0 → IsAtEnd (R.remaining reader.new)) }
    ensures cause { IsErrOf result FileFault.TooLong → ⊥ }
{
    let mut piece = [0u8; PIECE];
    let count = match reader.read(&mut piece[..room]) {
        Ok(count) => count,
        Err(_) => return Err(FileFault::Failed),
    };
    bytes.extend_from_slice(&piece[..count])?;
    Ok(count)
}

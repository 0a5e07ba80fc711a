//! A keeper that keeps nothing.

ghost use Rattle.std.specs.Prelude.{◌≡◌};

use crate::keeper::Keeper;
use mx_core::{Placed, Prepared};
use mx_ids::Memory;
use mx_writers::Lost;
use std::alloc::Global;
use std::sync::Wait;

/// The keeper of a writer whose stores are kept nowhere else.
#[derive(Clone, Copy, Debug, Drop)]
pub struct Unkept {
    writer: u8,
}

impl Unkept {
    /// That of a writer.
    pub fn new(writer: u8) -> Unkept
        ensures { result.writer ≡ writer }
    {
        Unkept { writer }
    }
}

impl<I: Placed> Keeper<I> for Unkept {
    ghost use Rattle.std.specs.Prelude.{true, false, []};

    ghost writer = { λ k. k.writer };

    ghost tells = { false };

    ghost loses = { false };

    ghost kept = { λ k. [] };

    ghost ready = { λ k items. true };

    fn prepare(&mut self, _alloc: Global, _prepared: &Prepared<I>) -> Result<(), Memory> {
        Ok(())
    }

    fn keep<R: Wait>(&mut self, _rt: &R, _first: u64, _prepared: &Prepared<I>) -> Result<(), Lost> {
        Ok(())
    }
}

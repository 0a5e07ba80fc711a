//! The start of a reader.
ghost use Rattle.std.specs.Prelude.{◌≡◌, [], IfOk};

use crate::requests::Reader;
use mx_ids::Memory;
use std::alloc::Global;

/// A reader that holds no bytes, with room for 5,600 field lines. `Memory` where memory was refused.
pub fn reader(alloc: Global) -> Result<Reader, Memory>
    ensures { IfOk result (λ r. r ≡ []) }
{
    Reader::new(alloc)
}

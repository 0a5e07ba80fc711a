ghost use Rattle.std.specs.Prelude.{◌≡◌};

use std::alloc::{AllocError, AllocFailed};

/// Want of memory: an allocation that a call needed was refused. One is made of an allocator's refusal alone, and each
/// error that says `Memory` carries one: no code here can tell want of memory without a refusal in hand.
#[derive(Clone, Copy, Debug, PartialEq, Eq)]
pub struct Memory {
    refused: AllocError,
}

impl From<AllocError> for Memory {
    fn from(refused: AllocError) -> Memory {
        Memory { refused }
    }
}

impl<T: Drop> From<AllocFailed<T>> for Memory {
    /// The value that found no room is dropped.
    fn from(refused: AllocFailed<T>) -> Memory {
        Memory {
            refused: refused.into(),
        }
    }
}

impl Memory {
    /// The value for which there was no room, and the refusal.
    pub fn with_value<T>(failed: AllocFailed<T>) -> (T, Memory)
        ensures { result.0 ≡ failed.value }
    {
        (
            failed.value,
            Memory {
                refused: AllocError,
            },
        )
    }
}

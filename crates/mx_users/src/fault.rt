//! Why a users file isn't read.

use mx_ids::Memory;
use std::alloc::AllocFailed;

/// Why a users file isn't read.
#[derive(Clone, Copy, Debug, PartialEq, Eq)]
pub enum UsersFault {
    /// The first line that isn't of its form or may not follow those before it, from 1.
    Line(u64),
    /// Want of memory.
    Memory(Memory),
}

/// Why a line isn't taken in.
#[derive(Clone, Copy, Debug, PartialEq, Eq)]
pub(crate) enum LineFault {
    /// It isn't of its form, or may not follow.
    Broken,
    /// Want of memory.
    Memory(Memory),
}

impl From<Memory> for UsersFault {
    ghost use Rattle.std.specs.Prelude.{◌≡◌};
    ghost use Rattle.mx_users.specs.declared.fault.UsersFault.TheVariants as faults;

    ghost from_gives = { λ m e. e ≡ faults.Memory m };

    fn from(refused: Memory) -> UsersFault {
        UsersFault::Memory(refused)
    }
}

impl From<Memory> for LineFault {
    ghost use Rattle.std.specs.Prelude.{◌≡◌};
    ghost use Rattle.mx_users.specs.declared.fault.LineFault.TheVariants as faults;

    ghost from_gives = { λ m e. e ≡ faults.Memory m };

    fn from(refused: Memory) -> LineFault {
        LineFault::Memory(refused)
    }
}

impl<T: Drop> From<AllocFailed<T>> for LineFault {
    ghost use Rattle.std.specs.Prelude.{◌≡◌};
    ghost use Rattle.mx_ids.specs.Memory.{refused_memory};
    ghost use Rattle.mx_users.specs.declared.fault.LineFault.TheVariants as faults;

    ghost from_gives = { λ _ e. e ≡ faults.Memory refused_memory };

    /// The value that found no room is dropped.
    fn from(refused: AllocFailed<T>) -> LineFault {
        LineFault::Memory(refused.into())
    }
}

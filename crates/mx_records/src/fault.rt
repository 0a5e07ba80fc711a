//! Why a store isn't written.

use mx_ids::Memory;

/// Why a store isn't written.
#[derive(Clone, Copy, Debug, PartialEq, Eq)]
pub enum RecordFault {
    /// A number is above 9,007,199,254,740,991.
    Large,
    /// An allocation was refused.
    Memory(Memory),
}

impl From<Memory> for RecordFault {
    ghost use Rattle.std.specs.Prelude.{◌≡◌};
    ghost use Rattle.mx_records.specs.declared.fault.RecordFault.TheVariants as faults;

    ghost from_gives = { λ m e. e ≡ faults.Memory m };

    fn from(refused: Memory) -> RecordFault {
        RecordFault::Memory(refused)
    }
}

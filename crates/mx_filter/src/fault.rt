//! Why a filter isn't read.
use mx_ids::{Memory, Text};
use std::alloc::AllocError;
use thiserror::Error;

/// Why a filter isn't read.
#[derive(Debug, Drop, Error)]
pub enum FilterFault {
    /// A known field has the wrong type: the first in byte order of the paths of keys, which are joined by dots. `body`
    /// where the filter is no object.
    #[error("a field of the filter is of the wrong type")]
    Shape(Text),
    /// `event_format` is `federation`, which isn't served.
    #[error("the event format isn't served")]
    Format,
    /// An allocation was refused.
    #[error("want of memory")]
    Memory(Memory),
}

impl From<Memory> for FilterFault {
    ghost use Rattle.std.specs.Prelude.{◌≡◌};
    ghost use Rattle.mx_filter.specs.declared.fault.FilterFault.TheVariants as faults;

    ghost from_gives = { λ m e. e ≡ faults.Memory m };

    fn from(refused: Memory) -> FilterFault {
        FilterFault::Memory(refused)
    }
}

impl From<AllocError> for FilterFault {
    ghost use Rattle.std.specs.Prelude.{◌≡◌};
    ghost use Rattle.mx_ids.specs.Memory.{refused_memory};
    ghost use Rattle.mx_filter.specs.declared.fault.FilterFault.TheVariants as faults;

    ghost from_gives = { λ _ e. e ≡ faults.Memory refused_memory };

    fn from(refused: AllocError) -> FilterFault {
        FilterFault::Memory(refused.into())
    }
}

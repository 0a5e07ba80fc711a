//! Why a page isn't sent.

use mx_ids::Memory;
use thiserror::Error;

/// Why a page isn't sent.
#[derive(Debug, Drop, Error)]
pub enum PageFault {
    /// A component of a bound exceeds its stream's front.
    #[error("a token is ahead of the streams")]
    TokenAhead { asked: u64, front: u64 },
    /// The user sees no event of the room.
    #[error("no event of the room is visible")]
    Forbidden,
    /// An allocation was refused.
    #[error("want of memory")]
    Memory(Memory),
}

impl From<Memory> for PageFault {
    ghost use Rattle.std.specs.Prelude.{◌≡◌};
    ghost use Rattle.mx_pager.specs.declared.fault.PageFault.TheVariants as faults;

    ghost from_gives = { λ m e. e ≡ faults.Memory m };

    fn from(refused: Memory) -> PageFault {
        PageFault::Memory(refused)
    }
}

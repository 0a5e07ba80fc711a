//! Why a draft is refused.

use mx_ids::Memory;
use thiserror::Error;

/// Why a draft is refused, in the order in which the causes are judged; want of memory may come at any time.
#[derive(Clone, Copy, Debug, PartialEq, Eq, Error)]
pub enum RoomFault {
    /// The writer has no such room.
    #[error("no such room")]
    NoRoom,
    /// The event would be larger than 65,536 bytes (Client-Server API, Size limits).
    #[error("the event is too large")]
    TooLarge,
    /// A redaction names no event of the room.
    #[error("the redaction names no event of the room")]
    NoTarget,
    /// The first authorization rule that refuses the event (Room Version 11, Authorization rules).
    #[error("forbidden by rule {0}")]
    Denied(u8),
    /// The allocator refused.
    #[error("no memory")]
    Memory(Memory),
}

impl From<Memory> for RoomFault {
    ghost use Rattle.std.specs.Prelude.{◌≡◌};
    ghost use Rattle.mx_room.specs.declared.fault.RoomFault.TheVariants as faults;

    ghost from_gives = { λ m e. e ≡ faults.Memory m };

    fn from(refused: Memory) -> RoomFault {
        RoomFault::Memory(refused)
    }
}

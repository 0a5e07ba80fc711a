//! Why a room isn't created.

use mx_ids::Memory;
use thiserror::Error;

/// Why a room isn't created (Client-Server API, `POST /createRoom`), in the order in which the
/// causes are judged; want of memory may come at any time.
#[derive(Clone, Copy, Debug, PartialEq, Eq, Error)]
pub enum CreateFault {
    /// The body names another room version than 11.
    #[error("the room version isn't 11")]
    Version,
    /// The body names a preset that there isn't.
    #[error("no such preset")]
    Preset,
    /// An invited user isn't one of the server's.
    #[error("an invited user isn't known")]
    NoUser,
    /// The block would have more than 512 events.
    #[error("more than 512 events")]
    TooMany,
    /// An event is larger than 65,536 bytes.
    #[error("an event is too large")]
    TooLarge,
    /// An event isn't allowed after those before it: the number of the rule that refuses the first
    /// such one.
    #[error("refused by rule {0}")]
    State(u8),
    /// The allocator refused.
    #[error("no memory")]
    Memory(Memory),
}

impl From<Memory> for CreateFault {
    ghost use Rattle.std.specs.Prelude.{◌≡◌};
    ghost use Rattle.mx_create.specs.declared.fault.CreateFault.TheVariants as faults;

    ghost from_gives = { λ m e. e ≡ faults.Memory m };

    fn from(refused: Memory) -> CreateFault {
        CreateFault::Memory(refused)
    }
}

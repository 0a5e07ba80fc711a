//! Why a run tells no number.

use mx_ids::Memory;
use mx_json::JsonFault;
use mx_users::UsersFault;
use std::alloc::{AllocError, AllocFailed};

/// Why nothing was measured.
#[derive(Clone, Copy, Debug)]
pub enum Unmeasured {
    /// The allocator refused.
    Memory(Memory),
    /// The engine answered otherwise than what is measured asks, or a text of the program isn't of its form.
    Other,
}

impl From<Memory> for Unmeasured {
    fn from(refused: Memory) -> Unmeasured {
        Unmeasured::Memory(refused)
    }
}

impl From<AllocError> for Unmeasured {
    fn from(refused: AllocError) -> Unmeasured {
        Unmeasured::Memory(refused.into())
    }
}

impl<T: Drop> From<AllocFailed<T>> for Unmeasured {
    /// The value that found no room is dropped.
    fn from(refused: AllocFailed<T>) -> Unmeasured {
        Unmeasured::Memory(refused.into())
    }
}

impl From<JsonFault> for Unmeasured {
    fn from(fault: JsonFault) -> Unmeasured {
        match fault {
            JsonFault::Memory(refused) => Unmeasured::Memory(refused),
            _ => Unmeasured::Other,
        }
    }
}

impl From<UsersFault> for Unmeasured {
    fn from(fault: UsersFault) -> Unmeasured {
        match fault {
            UsersFault::Memory(refused) => Unmeasured::Memory(refused),
            UsersFault::Line(_) => Unmeasured::Other,
        }
    }
}

//! Files that are read by name.
ghost use Rattle.std.specs.Prelude.{◌≡◌, ℕ, ◌≤◌, List, length, IfOk, IsErrOf};
ghost use Rattle.std.specs.declared.option.Option.{Option};
ghost use Rattle.mx_outside.specs.Causes.{Rose};
ghost use Rattle.mx_outside.specs.Moves.{Holds, IsLonger};

use std::alloc::{AllocError, Global};

/// Why a file wasn't read.
#[derive(Clone, Copy, PartialEq, Eq, Debug)]
pub enum FileFault {
    /// The file couldn't be opened or read, and the count of faults rose.
    Failed,
    /// The file has more bytes than were allowed.
    TooLong,
    /// Memory was refused.
    Memory(AllocError),
}

impl From<AllocError> for FileFault {
    ghost use Rattle.std.specs.Prelude.{◌≡◌};
    ghost use Rattle.mx_outside.specs.declared.file_set.FileFault.TheVariants as faults;

    ghost from_gives = { λ m e. e ≡ faults.Memory m };

    fn from(refused: AllocError) -> Self {
        FileFault::Memory(refused)
    }
}

/// Files that are read by name, each whole.
pub trait Files {
    /// The bytes of the file with a name, where they are told.
    ghost told: { Self → List ℕ → Option (List ℕ) };

    /// The faults so far, a count that never falls. It may stop at 2^64 - 1.
    ghost faults: { Self → ℕ };

    /// Reads the whole file `name`, of at most `most` bytes. `TooLong` comes exactly where the file
    /// has more than `most` bytes. `Failed` comes only where the count of faults rose in this call,
    /// or stands at its last value. What the files hold stays as it was.
    fn read(&mut self, alloc: Global, name: &str, most: usize) -> Result<Vec<u8>, FileFault>
        ensures found { IfOk result (λ bytes. Holds (told self.old name.now) bytes.items) }
        ensures within { IfOk result (λ bytes. length bytes.items ≤ most) }
        ensures too_long { IsErrOf result FileFault.TooLong → IsLonger (told self.old name.now) most }
        ensures count { faults self.old ≤ faults self.new }
        ensures cause { IsErrOf result FileFault.Failed → Rose (faults self.old) (faults self.new) }
        ensures kept { (each : List ℕ) → told self.new each ≡ told self.old each };
}

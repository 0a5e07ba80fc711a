//! Logs that are opened by name.

ghost use Rattle.std.specs.Prelude.{◌≡◌, ℕ, ◌<◌, ◌≤◌, List, Option, IfErr, IfOk};
ghost use Rattle.mx_outside.specs.Causes.{Rose};
ghost use Rattle.mx_log.specs.Logs.{Opens};

use crate::log::LogFile;

/// Why a log isn't opened.
#[derive(Clone, Copy, Debug, PartialEq, Eq)]
pub enum OpenFault {
    /// Another process has it open.
    Busy,
    /// The system failed.
    Failed,
}

/// Logs that are opened by name.
pub trait Logs {
    /// What is opened.
    type File: LogFile + Drop + Send + 'static;

    // The bytes of the log of a name, where they are told.
    ghost told: { Self → List ℕ → Option (List ℕ) };

    // The faults so far, a count that never falls. It may stop at 2^64 - 1.
    ghost faults: { Self → ℕ };

    /// Opens a log, which is made where it is missing: its bytes are settled, and none of them is read yet. Nobody else opens it before it is
    /// dropped. A fault comes only where the count of faults rose in this call, or stands at its last value.
    fn open(&mut self, name: &str) -> Result<Self::File, OpenFault>
        ensures opened { IfOk result (λ log. Opens (told self.old name.now) (Self.File.told log) (Self.File.left log)) }
        ensures count { faults self.old ≤ faults self.new }
        ensures cause { IfErr result (λ _. Rose (faults self.old) (faults self.new)) };

    /// Closes a log that was opened here. Where its own count of faults isn't 0 the count of faults rises, or stands at its last value.
    fn close(&mut self, log: Self::File)
        ensures count { faults self.old ≤ faults self.new }
        ensures counted { 0 < Self.File.faults log → Rose (faults self.old) (faults self.new) };
}

//! Why a journal isn't restored.

use mx_engine::Unreplayed;
use mx_ids::Memory;

/// What is wrong with a line.
#[derive(Clone, Copy, Debug, PartialEq, Eq)]
pub enum Wrong {
    /// Its check isn't that of its text.
    Check,
    /// It doesn't end within 64 MiB, which no line of a journal does.
    Long,
    /// It is the first one, and not that of this server with so many writers.
    Head,
    /// It has other devices than the users file.
    Devices,
    /// Its text says no store.
    Text,
    /// Its store isn't made again.
    Store(Unreplayed),
}

/// Why an engine isn't restored from its journal.
#[derive(Clone, Copy, Debug, PartialEq, Eq)]
pub enum RestoreFault {
    /// Another process has the journal open.
    Busy,
    /// The first line that is wrong, from 1.
    Line(u64, Wrong),
    /// The journal couldn't be opened, read or written.
    Failed,
    /// An allocation was refused.
    Memory(Memory),
}

impl From<Memory> for RestoreFault {
    ghost use Rattle.std.specs.Prelude.{◌≡◌};
    ghost use Rattle.mx_restore.specs.declared.wrong.RestoreFault.TheVariants as faults;

    ghost from_gives = { λ m e. e ≡ faults.Memory m };

    fn from(refused: Memory) -> RestoreFault {
        RestoreFault::Memory(refused)
    }
}

impl Wrong {
    /// What it is, in words.
    pub fn words(self) -> &'static str {
        match self {
            Wrong::Check => "no line",
            Wrong::Long => "longer than any line",
            Wrong::Head => "of another server, number of writers or version",
            Wrong::Devices => "other devices than in the users file",
            Wrong::Text => "no store",
            Wrong::Store(why) => unreplayed(why),
        }
    }
}

fn unreplayed(why: Unreplayed) -> &'static str {
    match why {
        Unreplayed::Writer => "a store of no writer",
        Unreplayed::Refused => "a store that is refused",
        Unreplayed::Kept => "a store that was made before",
        Unreplayed::Elsewhere => "a store at another position",
        Unreplayed::Full => "a store in a full stream",
        Unreplayed::Lost => "a store that is decided otherwise",
        Unreplayed::Memory(_) => "memory",
    }
}

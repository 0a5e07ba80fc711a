//! The start of boards and flags.

ghost use Rattle.std.specs.Prelude.{◌≡◌, []};
ghost use Rattle.mx_wait.specs.Parked.{parked, told_at};

use crate::flags::Flag;
use crate::parking::{Line, Registry, Wake};
use crate::telling::Board;
use mx_ids::{Memory, Seq};
use std::alloc::Global;
use std::sync::Arc;
use std::sync::atomic::AtomicU64;

/// A registry in which nobody waits. Takes no memory.
pub fn registry<W: Wake + Drop>(alloc: Global) -> Registry<W>
    ensures nobody { (s : _) → parked result s ≡ [] }
{
    Registry {
        events: line(alloc),
        receipts: line(alloc),
        accounts: line(alloc),
    }
}

fn line<W: Drop>(alloc: Global) -> Line<W>
    ensures { result ≡ record { wakers = []; round = 0 } }
{
    Line {
        wakers: Seq::new(alloc),
        round: 0,
    }
}

/// A board that was told nothing, on which nobody waits. Takes no memory.
pub fn board<W: Wake + Drop>(alloc: Global) -> Board<W>
    ensures nobody { (s : _) → parked result.wakers s ≡ [] }
    ensures nothing { (s : _) → told_at result s ≡ 0 }
{
    Board {
        wakers: registry(alloc),
        events: 0,
        receipts: 0,
        accounts: 0,
    }
}

/// A flag that wasn't raised yet.
pub fn flag(alloc: Global) -> Result<Flag, Memory> {
    let word = Arc::new(alloc, AtomicU64::new(0))?;
    Ok(Flag { word })
}

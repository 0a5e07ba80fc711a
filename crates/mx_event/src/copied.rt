ghost use Rattle.std.specs.Prelude.{◌≡◌, IfOk};

use crate::event::{Event, Shown, Txn};
use mx_ids::{Copied, Memory};
use std::alloc::Global;

impl Copied for Txn {
    fn copy(&self, alloc: Global) -> Result<Txn, Memory> {
        Ok(Txn {
            device: self.device,
            id: self.id.copy(alloc)?,
            path: self.path.copy(alloc)?,
        })
    }
}

impl Copied for Event {
    fn copy(&self, alloc: Global) -> Result<Event, Memory> {
        Ok(Event {
            id: self.id,
            room: self.room,
            kind: self.kind.copy(alloc)?,
            state_key: self.state_key.copy(alloc)?,
            sender: self.sender.copy(alloc)?,
            content: self.content.copy(alloc)?,
            ts: self.ts,
            txn: self.txn.copy(alloc)?,
            has_url: self.has_url,
        })
    }
}

impl Copied for Shown {
    fn copy(&self, alloc: Global) -> Result<Shown, Memory> {
        Ok(Shown {
            event: self.event.copy(alloc)?,
            because: self.because.copy(alloc)?,
        })
    }
}
